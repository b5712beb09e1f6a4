// What is in scope, and what a name means there.

ghost use Rattle.std.specs.Prelude.{◌≡◌, ◌≤◌, ◌++◌, ◌∷◌, [], List, ℕ, Some, None, take, drop, length, slice_get, option_map, IfOk, OnOk, MatchOption, MatchResult};
ghost use Rattle.std.specs.Option.{option_copied};
ghost use Rattle.std.specs.Str.{bytes_eq};
ghost use Rattle.zir_tree.specs.declared.types.Ty.{Ty};
ghost use Rattle.zir_types.specs.Walk.{Told, Fine};
ghost use Rattle.zir_types.specs.Scope.{Visible, Placed, nothing, declare as declaring, type_in, function_from, shape_from};
ghost use Rattle.zir_types.specs.Scope.{function_called as calling, struct_called as making, called_in, field_types as types_of, field_from};
ghost use Rattle.zir_types.specs.Found.{placed_function};
ghost use Rattle.zir_types.specs.Numbered.{IsFunctionAt, IsShapeAt};
ghost use Rattle.zir_types.specs.Scope.{half_part as half_named, part_in, lengths_of, plain as plain_base, base_in, written_if, written as writing};

use crate::error::TypeError;
use crate::kinds::{copy, half_of, scalar};
use crate::typed::{Called, Selected, Written};
use sqlite_items::Items;
use std::alloc::{AllocError, Global};
use std::marker::Model;
use zir_lookup::Numbers;
use zir_tree::expr::Callee;
use zir_tree::ident::Ident;
use zir_tree::name::Name;
use zir_tree::types::{Base, Dimension, FieldDef, StructDef, Ty, TypeExpr};

/// A variable, a parameter or a bound name in scope: the number of its declaration, and its type.
#[derive(Debug, Drop)]
pub struct Seen {
    pub id: u32,
    pub ty: Ty,
}

/// A struct in scope: the number of its declaration, its definition, and its cells, with 65,537 for every greater number.
#[derive(Debug, Drop)]
pub struct Shape {
    pub id: u32,
    pub def: StructDef,
    pub cells: u32,
}

/// A function in scope: the number of its declaration, the types of its parameters, and the type of its result.
#[derive(Debug, Drop)]
pub struct Signature {
    pub id: u32,
    pub params: Items<Ty>,
    pub result: Ty,
}

/// A function with its place among the functions in scope.
#[derive(Clone, Copy)]
pub struct FoundFunction<'a> {
    pub place: u32,
    pub signature: &'a Signature,
}

/// What a part of a program sees, each in the order of the text, with the numbers of all of each kind.
#[derive(Debug, Drop)]
pub struct Scope {
    shapes: Vec<Shape>,
    functions: Vec<Signature>,
    variables: Vec<Seen>,
    shape_numbers: Numbers,
    function_numbers: Numbers,
    variable_numbers: Numbers,
}

impl Model for Scope {
    ghost use Rattle.zir_types.specs.Scope.{Visible};
    ghost use Rattle.zir_types.specs.Numbered.{AreNumbered};

    ghost Value = { Visible };

    ghost view = { λ scope. record { shapes = scope.shapes.items; functions = scope.functions.items; variables = scope.variables.items } };

    ghost invariant = { λ scope. AreNumbered scope.shapes.items scope.functions.items scope.variables.items
        scope.shape_numbers scope.function_numbers scope.variable_numbers };
}

impl Scope {
    /// Nothing is in scope.
    pub fn new(alloc: Global) -> Scope
        ensures { result ≡ nothing }
    {
        Scope {
            shapes: Vec::new(alloc),
            functions: Vec::new(alloc),
            variables: Vec::new(alloc),
            shape_numbers: Numbers::new(alloc),
            function_numbers: Numbers::new(alloc),
            variable_numbers: Numbers::new(alloc),
        }
    }

    /// The type of a variable, by its number.
    pub fn variable(&self, id: u32) -> Option<&Ty>
        ensures { option_copied result ≡ type_in self.now.variables id }
    {
        match self.variable_numbers.find(id) {
            None => None,
            Some(place) => match sqlite_items::at(self.variables.as_slice(), place) {
                None => None,
                Some(variable) => Some(&variable.ty),
            },
        }
    }

    /// The place of the function of this number.
    fn function_place(&self, id: u32) -> Option<usize>
        ensures { MatchOption result (function_from 0 self.now.functions id ≡ None) (IsFunctionAt self.now.functions id) }
    {
        self.function_numbers.find(id)
    }

    /// The place of the struct of this number.
    fn shape_place(&self, id: u32) -> Option<usize>
        ensures { MatchOption result (shape_from 0 self.now.shapes id ≡ None) (IsShapeAt self.now.shapes id) }
    {
        self.shape_numbers.find(id)
    }

    /// A function, by its number.
    pub fn function(&self, id: u32) -> Result<Option<FoundFunction<'_>>, TypeError>
        ensures { MatchResult result (λ found. option_map placed_function found ≡ function_from 0 self.now.functions id) (λ e. e ≡ TypeError.Memory) }
    {
        match self.function_place(id) {
            None => Ok(None),
            Some(place) => {
                let signature = &self.functions[place];
                let place = number(place)?;
                Ok(Some(FoundFunction { place, signature }))
            }
        }
    }

    /// What a call in an expression calls, by its number.
    pub fn called(&self, alloc: Global, id: u32) -> Result<Option<Called>, TypeError>
        ensures { Told (Fine (called_in self.now id)) result }
    {
        if let Some(place) = self.function_place(id) {
            let called = function_called(alloc, place, &self.functions[place])?;
            return Ok(Some(called));
        }
        match self.shape_place(id) {
            None => Ok(None),
            Some(place) => {
                let called = struct_called(alloc, place, &self.shapes[place])?;
                Ok(Some(called))
            }
        }
    }

    /// The part of this name of a value of a type.
    pub fn part(&self, alloc: Global, ty: &Ty, name: &[u8]) -> Result<Option<Selected>, TypeError>
        ensures { Told (Fine (part_in self.now.shapes ty.now name.now)) result }
    {
        match ty.lengths.as_slice() {
            [] => match ty.base {
                Base::Struct(k) => match self.shapes.get(k as usize) {
                    None => Ok(None),
                    Some(shape) => field(alloc, shape.def.fields.as_slice(), name),
                },
                base => match half_of(base) {
                    None => Ok(None),
                    Some(half) => Ok(half_part(alloc, half, name)),
                },
            },
            [_, ..] => Ok(None),
        }
    }

    /// A written type, and the type that it is.
    pub fn written(&self, alloc: Global, ty: &TypeExpr) -> Result<Written, TypeError>
        ensures { Told (writing self.now.shapes ty.now) result }
    {
        match self.base(&ty.name, ty.base)? {
            None => Err(TypeError::Mismatch(ty.at)),
            Some(base) => with_base(alloc, ty, base),
        }
    }

    /// The base of a written type: that of its word, or the struct that its name means.
    fn base(&self, name: &Option<Ident>, base: Base) -> Result<Option<Base>, TypeError>
        ensures { Told (Fine (base_in self.now.shapes name.now base)) result }
    {
        match name {
            None => Ok(plain(base)),
            Some(name) => match self.shape_place(name.id) {
                None => Ok(None),
                Some(place) => {
                    let place = number(place)?;
                    Ok(Some(Base::Struct(place)))
                }
            },
        }
    }

    /// A variable comes into scope.
    pub fn declare(&mut self, variable: Seen) -> Result<(), AllocError>
        ensures { OnOk result (self.new ≡ declaring (variable ∷ []) self.old) }
    {
        let before = self.variables.len();
        let id = variable.id;
        self.variables.push(variable)?;
        match self.variable_numbers.push(id) {
            Ok(()) => Ok(()),
            Err(error) => {
                self.variables.truncate(before);
                Err(error)
            }
        }
    }

    /// How many variables are in scope.
    pub fn depth(&self) -> usize
        ensures { result ≡ length self.now.variables }
    {
        self.variables.len()
    }

    /// All but the first so many variables leave the scope.
    pub fn leave(&mut self, depth: usize)
        ensures { self.new ≡ record { shapes = self.old.shapes; functions = self.old.functions; variables = take depth self.old.variables } }
    {
        self.variables.truncate(depth);
        self.variable_numbers.truncate(depth);
    }

    /// The structs in scope.
    pub fn shapes(&self) -> &[Shape]
        ensures { result.now ≡ self.now.shapes }
    {
        self.shapes.as_slice()
    }

    /// A struct comes into scope.
    pub fn add_shape(&mut self, shape: Shape) -> Result<(), AllocError>
        ensures { OnOk result (self.new ≡ record self.old { shapes = self.old.shapes ++ shape ∷ [] }) }
    {
        let before = self.shapes.len();
        let id = shape.id;
        self.shapes.push(shape)?;
        match self.shape_numbers.push(id) {
            Ok(()) => Ok(()),
            Err(error) => {
                self.shapes.truncate(before);
                Err(error)
            }
        }
    }

    /// A function comes into scope.
    pub fn add_function(&mut self, signature: Signature) -> Result<(), AllocError>
        ensures { OnOk result (self.new ≡ record self.old { functions = self.old.functions ++ signature ∷ [] }) }
    {
        let before = self.functions.len();
        let id = signature.id;
        self.functions.push(signature)?;
        match self.function_numbers.push(id) {
            Ok(()) => Ok(()),
            Err(error) => {
                self.functions.truncate(before);
                Err(error)
            }
        }
    }

    /// All but the first so many variables leave the scope, to come back later.
    pub fn detach(&mut self, depth: usize) -> Result<Vec<Seen>, AllocError>
        requires { depth ≤ length self.old.variables }
        ensures taken { IfOk result (λ variables. variables.items ≡ drop depth self.old.variables) }
        ensures left { OnOk result (self.new ≡ record self.old { variables = take depth self.old.variables }) }
    {
        let variables = self.variables.split_off(depth)?;
        self.variable_numbers.truncate(depth);
        Ok(variables)
    }

    /// Variables come into scope.
    pub fn attach(&mut self, variables: Vec<Seen>) -> Result<(), AllocError>
        ensures { OnOk result (self.new ≡ declaring variables.items self.old) }
    {
        for variable in variables {
            self.declare(variable)?;
        }
        Ok(())
    }
}

/// A place among declarations, as the trees hold it.
pub fn number(place: usize) -> Result<u32, TypeError>
    ensures { Told (Fine place) result }
{
    match u32::try_from(place) {
        Err(_) => Err(TypeError::Memory),
        Ok(place) => Ok(place),
    }
}

/// Copies of types.
pub fn copy_all(alloc: Global, types: &[Ty]) -> Result<Items<Ty>, AllocError>
    ensures { IfOk result (λ copies. copies ≡ types.now) }
{
    let mut copies = Items::new(alloc);
    for ty in types {
        let ty = copy(alloc, ty)?;
        copies.push(ty)?;
    }
    Ok(copies)
}

/// The types of fields.
fn field_types(alloc: Global, fields: &[FieldDef]) -> Result<Items<Ty>, AllocError>
    ensures { IfOk result (λ types. types ≡ types_of fields.now) }
{
    let mut types = Items::new(alloc);
    for field in fields {
        let ty = copy(alloc, &field.ty)?;
        types.push(ty)?;
    }
    Ok(types)
}

/// A call of the function at a place.
fn function_called(alloc: Global, place: usize, signature: &Signature) -> Result<Called, TypeError>
    ensures { Told (Fine (calling (record { place = place; item = signature.now }))) result }
{
    let place = number(place)?;
    let params = copy_all(alloc, signature.params.as_slice())?;
    let result = copy(alloc, &signature.result)?;
    Ok(Called {
        callee: Callee::Function(place),
        params,
        result,
    })
}

/// A call of the struct at a place, whose parameters are its fields.
fn struct_called(alloc: Global, place: usize, shape: &Shape) -> Result<Called, TypeError>
    ensures { Told (Fine (making (record { place = place; item = shape.now }))) result }
{
    let place = number(place)?;
    let params = field_types(alloc, shape.def.fields.as_slice())?;
    Ok(Called {
        callee: Callee::Struct(place),
        params,
        result: scalar(alloc, Base::Struct(place)),
    })
}

/// The first field of this name.
fn field(alloc: Global, fields: &[FieldDef], name: &[u8]) -> Result<Option<Selected>, TypeError>
    ensures { Told (Fine (field_from 0 fields.now name.now)) result }
{
    for place in 0..fields.len() {
        if fields[place].name.as_slice() == name {
            let ty = copy(alloc, &fields[place].ty)?;
            let place = number(place)?;
            return Ok(Some(Selected { place, ty }));
        }
    }
    Ok(None)
}

/// The part of this name of a complex number whose parts have this type.
fn half_part(alloc: Global, half: Base, name: &[u8]) -> Option<Selected>
    ensures { result ≡ half_named (Some half) name.now }
{
    if name == b"re".as_slice() {
        return Some(Selected {
            place: 0,
            ty: scalar(alloc, half),
        });
    }
    if name == b"im".as_slice() {
        return Some(Selected {
            place: 1,
            ty: scalar(alloc, half),
        });
    }
    None
}

/// The base that a written type without a name has.
fn plain(base: Base) -> Option<Base>
    ensures { result ≡ plain_base base }
{
    match base {
        Base::Struct(_) => None,
        _ => Some(base),
    }
}

/// The lengths of written arrays.
fn lengths(alloc: Global, dimensions: &[Dimension]) -> Result<Items<u64>, AllocError>
    ensures { IfOk result (λ lengths. lengths ≡ lengths_of dimensions.now) }
{
    let mut lengths = Items::new(alloc);
    for dimension in dimensions {
        lengths.push(dimension.length)?;
    }
    Ok(lengths)
}

/// A copy of a name at its place.
pub fn copy_ident(alloc: Global, x: &Ident) -> Result<Ident, AllocError>
    ensures { IfOk result (λ y. y ≡ x.now) }
{
    let name = Name::from_slice(alloc, x.name.as_slice())?;
    Ok(Ident {
        name,
        id: x.id,
        at: x.at,
    })
}

/// A copy of a name at its place, where there is one.
pub fn copy_name(alloc: Global, name: &Option<Ident>) -> Result<Option<Ident>, AllocError>
    ensures { IfOk result (λ copy. copy ≡ name.now) }
{
    match name {
        None => Ok(None),
        Some(x) => {
            let x = copy_ident(alloc, x)?;
            Ok(Some(x))
        }
    }
}

/// A written type with its base.
fn with_base(alloc: Global, ty: &TypeExpr, base: Base) -> Result<Written, TypeError>
    ensures { Told (written_if (Some base) ty.now) result }
{
    let dimensions = Items::from_slice(alloc, ty.dimensions.as_slice())?;
    let name = copy_name(alloc, &ty.name)?;
    let lengths = lengths(alloc, ty.dimensions.as_slice())?;
    Ok(Written {
        what: TypeExpr {
            dimensions,
            base,
            name,
            at: ty.at,
        },
        ty: Ty { lengths, base },
    })
}
