// The types of typed trees, read off the trees again.

ghost use Rattle.std.specs.Prelude.{◌≡◌, [], Some, map, slice_get, IfOk};
ghost use Rattle.zir_types.specs.Kinds.{arr};
ghost use Rattle.zir_types.specs.Scope.{lengths_of, type_in, part_in, half_part as half_named, field_from};
ghost use Rattle.zir_types.specs.Typing.{called_at};
ghost use Rattle.zir_types.specs.Known.{ty_of as ty_written, or_unit, result_in, signature_of, result_of as base_of_result, element_of as element_in};
ghost use Rattle.zir_types.specs.Known.{part_ty, called_ty, type_of as type_known, function_result};
ghost use Rattle.zir_limits.specs.Facts.{told, sight};
ghost use Rattle.zir_limits.specs.Lists.{array_ty, nested};

use crate::facts::Facts;
use crate::scope::Scope;
use sqlite_items::Items;
use std::alloc::{AllocError, Global};
use zir_tree::expr::{Callee, Expr, Operator};
use zir_tree::types::{Base, Dimension, FieldDef, Ty, TypeExpr};
use zir_types::kinds::{copy, half_of, scalar};
use zir_types::scope::Shape;

/// The lengths of written arrays.
fn lengths(alloc: Global, dimensions: &[Dimension]) -> Result<Items<u64>, AllocError>
    ensures { IfOk result (λ lengths. lengths ≡ lengths_of dimensions.now) }
{
    let mut lengths = Items::new(alloc);
    for dimension in dimensions {
        lengths.push(dimension.length)?;
    }
    Ok(lengths)
}

/// The type of a written type of the core.
pub fn ty_of(alloc: Global, ty: &TypeExpr) -> Result<Ty, AllocError>
    ensures { IfOk result (λ t. t ≡ ty_written ty.now) }
{
    let lengths = lengths(alloc, ty.dimensions.as_slice())?;
    Ok(Ty {
        lengths,
        base: ty.base,
    })
}

/// A copy of a type where there is one, and else unit.
pub fn copy_or_unit(alloc: Global, ty: &Option<Ty>) -> Result<Ty, AllocError>
    ensures { IfOk result (λ t. t ≡ or_unit ty.now) }
{
    match ty {
        None => Ok(scalar(alloc, Base::Unit)),
        Some(ty) => copy(alloc, ty),
    }
}

/// The type of a written result.
fn result_type(alloc: Global, written: &Option<TypeExpr>) -> Result<Ty, AllocError>
    ensures { IfOk result (λ t. t ≡ result_in written.now) }
{
    match written {
        None => Ok(scalar(alloc, Base::Unit)),
        Some(ty) => ty_of(alloc, ty),
    }
}

/// A type in arrays of the outer lengths.
fn nest(outer: Items<u64>, ty: Ty) -> Result<Ty, AllocError>
    ensures { IfOk result (λ t. t ≡ nested outer ty) }
{
    let mut lengths = outer;
    lengths.append(ty.lengths)?;
    Ok(Ty {
        lengths,
        base: ty.base,
    })
}

/// An array of so many elements of a type.
pub fn array_of(alloc: Global, count: u64, element: Ty) -> Result<Ty, AllocError>
    ensures { IfOk result (λ t. t ≡ arr count element) }
{
    let mut lengths = Items::new(alloc);
    lengths.push(count)?;
    nest(lengths, element)
}

/// The type of an array's elements.
pub fn element_of(alloc: Global, ty: &Ty) -> Result<Ty, AllocError>
    ensures { IfOk result (λ t. t ≡ element_in ty.now) }
{
    match ty.lengths.as_slice() {
        [] => Ok(scalar(alloc, ty.base)),
        [_, more @ ..] => {
            let lengths = Items::from_slice(alloc, more)?;
            Ok(Ty {
                lengths,
                base: ty.base,
            })
        }
    }
}

/// The type of an operator's result over the type of its left side.
fn result_of(op: Operator, base: Base) -> Base
    ensures { result ≡ base_of_result op base }
{
    match op {
        Operator::Or | Operator::And => Base::Bool,
        Operator::Equal | Operator::NotEqual => Base::Bool,
        Operator::Less | Operator::LessEqual | Operator::Greater | Operator::GreaterEqual => {
            Base::Bool
        }
        _ => base,
    }
}

/// The type of a variable, by its number.
fn variable_type(alloc: Global, scope: &Scope, id: u32) -> Result<Ty, AllocError>
    ensures { IfOk result (λ t. t ≡ or_unit (type_in scope.now id)) }
{
    match scope.find(id) {
        None => Ok(scalar(alloc, Base::Unit)),
        Some(ty) => copy(alloc, ty),
    }
}

/// The type of the first field of this name.
fn field_type(alloc: Global, fields: &[FieldDef], name: &[u8]) -> Result<Ty, AllocError>
    ensures { IfOk result (λ t. t ≡ part_ty (field_from 0 fields.now name.now)) }
{
    for place in 0..fields.len() {
        if fields[place].name.as_slice() == name {
            return copy(alloc, &fields[place].ty);
        }
    }
    Ok(scalar(alloc, Base::Unit))
}

/// The type of the part of this name of a complex number whose parts have this type.
fn half_type(alloc: Global, half: Base, name: &[u8]) -> Ty
    ensures { result ≡ part_ty (half_named (Some half) name.now) }
{
    if name == b"re".as_slice() {
        return scalar(alloc, half);
    }
    if name == b"im".as_slice() {
        return scalar(alloc, half);
    }
    scalar(alloc, Base::Unit)
}

/// The type of the part of this name of a value of a type.
fn part_type(alloc: Global, shapes: &[Shape], ty: &Ty, name: &[u8]) -> Result<Ty, AllocError>
    ensures { IfOk result (λ t. t ≡ part_ty (part_in shapes.now ty.now name.now)) }
{
    match ty.lengths.as_slice() {
        [] => match ty.base {
            Base::Struct(k) => match sqlite_items::at(shapes, k as usize) {
                None => Ok(scalar(alloc, Base::Unit)),
                Some(shape) => field_type(alloc, shape.def.fields.as_slice(), name),
            },
            base => match half_of(base) {
                None => Ok(scalar(alloc, Base::Unit)),
                Some(half) => Ok(half_type(alloc, half, name)),
            },
        },
        [_, ..] => Ok(scalar(alloc, Base::Unit)),
    }
}

/// The type that a function gives, by its place.
pub fn function_type(alloc: Global, facts: &Facts, place: u32) -> Result<Ty, AllocError>
    ensures { IfOk result (λ t. t ≡ function_result (slice_get (map signature_of (told facts.now).functions) place)) }
{
    match sqlite_items::at(facts.functions(), place as usize) {
        None => Ok(scalar(alloc, Base::Unit)),
        Some(function) => result_type(alloc, &function.result),
    }
}

/// The type of a call's result.
fn called_type(alloc: Global, facts: &Facts, callee: Callee) -> Result<Ty, AllocError>
    ensures { IfOk result (λ t. t ≡ called_ty (called_at (sight (told facts.now) []) callee)) }
{
    match callee {
        Callee::Function(k) => function_type(alloc, facts, k),
        Callee::Struct(k) => match sqlite_items::at(facts.shapes(), k as usize) {
            None => Ok(scalar(alloc, Base::Unit)),
            Some(_) => Ok(scalar(alloc, Base::Struct(k))),
        },
    }
}

/// The type of a typed expression.
#[cycle(types)]
pub fn type_of(alloc: Global, facts: &Facts, scope: &Scope, e: &Expr) -> Result<Ty, AllocError>
    ensures { IfOk result (λ t. t ≡ type_known (sight (told facts.now) scope.now) e.now) }
{
    match e {
        Expr::Unit(_) => Ok(scalar(alloc, Base::Unit)),
        Expr::Bit(_, _) => Ok(scalar(alloc, Base::Bit)),
        Expr::Bool(_, _) => Ok(scalar(alloc, Base::Bool)),
        Expr::Int(_, base, _) => Ok(scalar(alloc, *base)),
        Expr::Variable(x) => variable_type(alloc, scope, x.id),
        Expr::Unary(_, base, _, _) => Ok(scalar(alloc, *base)),
        Expr::Binary(op, base, _, _, _) => Ok(scalar(alloc, result_of(*op, *base))),
        Expr::Index(a, _, _) => {
            let ty = type_of(alloc, facts, scope, a.get())?;
            element_of(alloc, &ty)
        }
        Expr::Slice(a, _, count, _) => {
            let ty = type_of(alloc, facts, scope, a.get())?;
            let element = element_of(alloc, &ty)?;
            array_of(alloc, *count, element)
        }
        Expr::Part(a, name, _, _) => {
            let ty = type_of(alloc, facts, scope, a.get())?;
            part_type(alloc, facts.shapes(), &ty, name.as_slice())
        }
        Expr::Call(_, callee, _) => called_type(alloc, facts, *callee),
        Expr::Array(es, _) => { array_type(alloc, facts, scope, Items::new(alloc), es.as_slice()) }
        Expr::Convert(base, _, _) => Ok(scalar(alloc, *base)),
        Expr::Complex(base, _, _, _) => Ok(scalar(alloc, *base)),
    }
}

/// The type of an array of these expressions, that of the first for all, in arrays of the outer lengths.
#[cycle(types)]
fn array_type(
    alloc: Global,
    facts: &Facts,
    scope: &Scope,
    outer: Items<u64>,
    es: &[Expr],
) -> Result<Ty, AllocError>
    ensures { IfOk result (λ t. t ≡ nested outer (array_ty (sight (told facts.now) scope.now) es.now)) }
{
    let mut lengths = outer;
    lengths.push(es.len() as u64)?;
    match es {
        [] => Ok(Ty {
            lengths,
            base: Base::Unit,
        }),
        [e, ..] => match e {
            Expr::Array(inner, _) => array_type(alloc, facts, scope, lengths, inner.as_slice()),
            _ => {
                let element = type_of(alloc, facts, scope, e)?;
                nest(lengths, element)
            }
        },
    }
}
