// Declarations and programs.

ghost use Rattle.std.specs.Prelude.{◌≡◌, [], ◌∷◌, ◌++◌, IfOk, OnOk};
ghost use Rattle.zir_lex.specs.declared.token.Symbol.TheVariants.{Semicolon};
ghost use Rattle.zir_print.specs.Marks.{mark};
ghost use Rattle.zir_print.specs.Types.{ident_word};
ghost use Rattle.zir_print.specs.Statements.{var_words};
ghost use Rattle.zir_print.specs.Canonical.{comp_function_words, decl_words, function_words, gives_words, main_words, params_words, stream_words, struct_words};
ghost use Rattle.zir_print.specs.Text.{canonical_text, decl_lines, line};
ghost use Rattle.zir_show.specs.Growth.{Adds};

use crate::components::put_comp;
use crate::statements::{put_body, put_declared};
use crate::text::Text;
use crate::types::{put_fields, put_type};
use std::alloc::{AllocError, Global};
use zir_lex::token::{Keyword, Symbol};
use zir_tree::ident::Ident;
use zir_tree::program::{CompFunction, Decl, Function, Prog, Struct};
use zir_tree::stmt::Var;
use zir_tree::types::{Field, TypeExpr};

/// The canonical text of a program: its tokens with one space between each two, a line for each declaration and one for
/// main. Whole numbers are decimal, and parentheses stand only where they are needed. Its one error is want of memory.
pub fn print(alloc: Global, p: &Prog) -> Result<Vec<u8>, AllocError>
    ensures { IfOk result (λ bytes. bytes.items ≡ canonical_text p.now) }
{
    let mut text = Text::new(alloc);
    put_declarations(&mut text, p.declarations.as_slice())?;
    put_main(&mut text, p)?;
    Ok(text.into_bytes())
}

fn put_declarations(text: &mut Text, declarations: &[Decl]) -> Result<(), AllocError>
    ensures { OnOk result (text.new ≡ text.old ++ decl_lines declarations.now) }
{
    for declaration in declarations {
        put_declaration(text, declaration)?;
    }
    Ok(())
}

fn put_declaration(text: &mut Text, declaration: &Decl) -> Result<(), AllocError>
    ensures { OnOk result (text.new ≡ text.old ++ line (decl_words declaration.now)) }
{
    match declaration {
        Decl::Var(var) => put_top_var(text, var),
        Decl::Struct(declared) => put_struct(text, declared),
        Decl::Function(function) => put_function(text, function),
        Decl::Comp(function) => put_comp_function(text, function),
    }
}

fn put_top_var(text: &mut Text, var: &Var) -> Result<(), AllocError>
    ensures { OnOk result (text.new ≡ text.old ++ line (var_words var.now ++ mark Semicolon ∷ [])) }
{
    text.begin_line(Keyword::Var)?;
    put_declared(text, var)?;
    text.symbol(Symbol::Semicolon)?;
    text.end_line()
}

fn put_struct(text: &mut Text, declared: &Struct) -> Result<(), AllocError>
    ensures { OnOk result (text.new ≡ text.old ++ line (struct_words declared.now)) }
{
    text.begin_line(Keyword::Struct)?;
    text.name(&declared.name.name)?;
    text.symbol(Symbol::Equal)?;
    text.symbol(Symbol::LeftBrace)?;
    put_fields(text, Symbol::Semicolon, declared.fields.as_slice())?;
    text.symbol(Symbol::RightBrace)?;
    text.end_line()
}

/// The name and the parameters of a function.
fn put_head(text: &mut Text, name: &Ident, params: &[Field]) -> Result<(), AllocError>
    ensures { OnOk result (Adds text.old text.new (ident_word name.now ∷ params_words params.now)) }
{
    text.name(&name.name)?;
    text.symbol(Symbol::LeftParenthesis)?;
    put_fields(text, Symbol::Comma, params)?;
    text.symbol(Symbol::RightParenthesis)
}

fn put_given(text: &mut Text, given: &Option<TypeExpr>) -> Result<(), AllocError>
    ensures { OnOk result (Adds text.old text.new (gives_words given.now)) }
{
    match given {
        Some(ty) => {
            text.symbol(Symbol::Colon)?;
            put_type(text, ty)
        }
        None => Ok(()),
    }
}

fn put_function(text: &mut Text, function: &Function) -> Result<(), AllocError>
    ensures { OnOk result (text.new ≡ text.old ++ line (function_words function.now)) }
{
    text.begin_line(Keyword::Fun)?;
    put_head(text, &function.name, function.params.as_slice())?;
    put_given(text, &function.result)?;
    put_body(text, &function.body)?;
    text.end_line()
}

fn put_comp_function(text: &mut Text, function: &CompFunction) -> Result<(), AllocError>
    ensures { OnOk result (text.new ≡ text.old ++ line (comp_function_words function.now)) }
{
    text.begin_line(Keyword::Fun)?;
    text.keyword(Keyword::Comp)?;
    put_head(text, &function.name, function.params.as_slice())?;
    put_comp(text, &function.body)?;
    text.end_line()
}

/// `read` or `write` with its type in brackets.
fn put_stream(text: &mut Text, keyword: Keyword, ty: &TypeExpr) -> Result<(), AllocError>
    ensures { OnOk result (Adds text.old text.new (stream_words keyword ty.now)) }
{
    text.keyword(keyword)?;
    text.symbol(Symbol::LeftBracket)?;
    put_type(text, ty)?;
    text.symbol(Symbol::RightBracket)
}

fn put_main(text: &mut Text, p: &Prog) -> Result<(), AllocError>
    ensures { OnOk result (text.new ≡ text.old ++ line (main_words p.now)) }
{
    text.begin_line(Keyword::Let)?;
    text.keyword(Keyword::Comp)?;
    text.main_name()?;
    text.symbol(Symbol::Equal)?;
    put_stream(text, Keyword::Read, &p.input)?;
    text.symbol(Symbol::Pipe)?;
    put_comp(text, &p.main)?;
    text.symbol(Symbol::Pipe)?;
    put_stream(text, Keyword::Write, &p.output)?;
    text.end_line()
}
