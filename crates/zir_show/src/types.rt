// Types, and names with their types.

ghost use Rattle.std.specs.Prelude.{◌≡◌, [], ◌∷◌, map, OnOk};
ghost use Rattle.zir_print.specs.Marks.{mark, nowhere, parted};
ghost use Rattle.zir_print.specs.Types.{dimension_words, field_words, inner_words, keyword_of, type_words, word_if};
ghost use Rattle.zir_show.specs.Growth.{Adds};

use crate::text::Text;
use std::alloc::AllocError;
use zir_lex::token::{Keyword, Symbol};
use zir_tree::ident::Ident;
use zir_tree::types::{Base, Dimension, Field, TypeExpr};

/// The keyword that names a type, if one does.
fn base_keyword(base: Base) -> Option<Keyword>
    ensures { result ≡ keyword_of base }
{
    match base {
        Base::Bit => Some(Keyword::Bit),
        Base::Bool => Some(Keyword::Bool),
        Base::Int8 => Some(Keyword::Int8),
        Base::Int16 => Some(Keyword::Int16),
        Base::Int32 => Some(Keyword::Int32),
        Base::Int64 => Some(Keyword::Int64),
        Base::Complex16 => Some(Keyword::Complex16),
        Base::Complex32 => Some(Keyword::Complex32),
        Base::Unit | Base::Struct(_) => None,
    }
}

/// The keyword of a type, if one names it.
pub fn put_base(text: &mut Text, base: Base) -> Result<(), AllocError>
    ensures { OnOk result (Adds text.old text.new (word_if (keyword_of base) nowhere)) }
{
    match base_keyword(base) {
        Some(keyword) => text.keyword(keyword),
        None => Ok(()),
    }
}

fn put_dimension(text: &mut Text, dimension: &Dimension) -> Result<(), AllocError>
    ensures { OnOk result (Adds text.old text.new (dimension_words (dimension.now ∷ []))) }
{
    text.keyword(Keyword::Arr)?;
    text.symbol(Symbol::LeftBracket)?;
    text.number(dimension.length as u128)?;
    text.symbol(Symbol::RightBracket)
}

fn put_dimensions(text: &mut Text, dimensions: &[Dimension]) -> Result<(), AllocError>
    ensures { OnOk result (Adds text.old text.new (dimension_words dimensions.now)) }
{
    for dimension in dimensions {
        put_dimension(text, dimension)?;
    }
    Ok(())
}

fn put_inner(text: &mut Text, name: &Option<Ident>, base: Base) -> Result<(), AllocError>
    ensures { OnOk result (Adds text.old text.new (inner_words name.now base nowhere)) }
{
    match name {
        Some(name) => text.name(&name.name),
        None => put_base(text, base),
    }
}

/// A type.
pub fn put_type(text: &mut Text, ty: &TypeExpr) -> Result<(), AllocError>
    ensures { OnOk result (Adds text.old text.new (type_words ty.now)) }
{
    put_dimensions(text, ty.dimensions.as_slice())?;
    put_inner(text, &ty.name, ty.base)
}

/// A name with its type.
fn put_field(text: &mut Text, field: &Field) -> Result<(), AllocError>
    ensures { OnOk result (Adds text.old text.new (field_words field.now)) }
{
    text.name(&field.name.name)?;
    text.symbol(Symbol::Colon)?;
    put_type(text, &field.ty)
}

/// Names with their types, with a sign between each two.
pub fn put_fields(text: &mut Text, between: Symbol, fields: &[Field]) -> Result<(), AllocError>
    ensures { OnOk result (Adds text.old text.new (parted (mark between) (map field_words fields.now))) }
{
    for (index, field) in fields.iter().enumerate() {
        text.before_part(index, between)?;
        put_field(text, field)?;
    }
    Ok(())
}
