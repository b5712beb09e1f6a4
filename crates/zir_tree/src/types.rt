// Types, and types as a text writes them.

use crate::ident::Ident;
use crate::name::Name;
use crate::place::Place;
use sqlite_items::Items;

/// A type that is no array. `Struct` has the struct's place in the list of structs, from 0.
#[derive(Clone, Copy, Debug, PartialEq, Eq)]
pub enum Base {
    Unit,
    Bit,
    Bool,
    Int8,
    Int16,
    Int32,
    Int64,
    Complex16,
    Complex32,
    Struct(u32),
}

/// A type: the lengths of its arrays, the outermost first, and what the innermost holds.
#[derive(Debug, Drop)]
pub struct Ty {
    pub lengths: Items<u64>,
    pub base: Base,
}

/// `arr[n]` before a type, at the place of `arr`.
#[derive(Clone, Copy, Debug, PartialEq, Eq)]
pub struct Dimension {
    pub length: u64,
    pub at: Place,
}

/// A type as a text writes it, at the place of its first token. The type of a struct has its name; its number is 0 until
/// typing fills it in.
#[derive(Debug, Drop)]
pub struct TypeExpr {
    pub dimensions: Items<Dimension>,
    pub base: Base,
    pub name: Option<Ident>,
    pub at: Place,
}

/// A name with its type: a field of a struct, or a parameter.
#[derive(Debug, Drop)]
pub struct Field {
    pub name: Ident,
    pub ty: TypeExpr,
}

/// A field of a struct's definition.
#[derive(Debug, Drop)]
pub struct FieldDef {
    pub name: Name,
    pub ty: Ty,
}

/// A struct: its name, and its fields in the order of the declaration. Its fields name structs before it alone.
#[derive(Debug, Drop)]
pub struct StructDef {
    pub name: Name,
    pub fields: Items<FieldDef>,
}
