// Rule 1: no side of a composition assigns a variable that the other uses.

ghost use Rattle.zir_names.specs.Touched.{in_comp};
ghost use Rattle.zir_names.specs.Sharing.{joints, shared_at, shared_by, first_shared, throughout};
ghost use Rattle.zir_names.specs.Numbers.{least};
ghost use Rattle.zir_sharing.specs.Ascending.{AllAscend};
ghost use Rattle.std.specs.List.{flat_map};
ghost use Rattle.zir_sharing.specs.Blocks.{of_member, of_decl};
ghost use Rattle.zir_sharing.specs.Answers.{Answers};

use crate::component::touched_by;
use crate::error::ShareError;
use crate::functions::Functions;
use std::alloc::Global;
use zir_tree::comp::{Comp, Member};
use zir_tree::place::Place;
use zir_tree::program::{Decl, Prog};

/// One composition.
fn check_joint(
    alloc: Global,
    functions: &Functions,
    left: &Comp,
    right: &Comp,
    at: Place,
) -> Result<(), ShareError>
    requires { AllAscend functions.now }
    ensures { Answers (shared_at (least (shared_by (in_comp functions.now left.now) (in_comp functions.now right.now))) at) result }
{
    let left = touched_by(alloc, functions, left)?;
    let right = touched_by(alloc, functions, right)?;
    match left.first_shared(right)? {
        None => Ok(()),
        Some(x) => Err(ShareError::Shared(x, at)),
    }
}

/// The compositions in a component, in the order of their operators.
#[cycle(compositions)]
fn check_comp(alloc: Global, functions: &Functions, c: &Comp) -> Result<(), ShareError>
    requires { AllAscend functions.now }
    ensures { Answers (first_shared functions.now (joints c.now)) result }
{
    match c {
        Comp::Take(_) => Ok(()),
        Comp::Takes(_, _) => Ok(()),
        Comp::Emit(_, _) => Ok(()),
        Comp::Emits(_, _) => Ok(()),
        Comp::Return(_, _) => Ok(()),
        Comp::Do(_, _) => Ok(()),
        Comp::Repeat(inner, _) => check_comp(alloc, functions, inner.get()),
        Comp::While(_, _, inner, _) => check_comp(alloc, functions, inner.get()),
        Comp::Times(_, inner, _) => check_comp(alloc, functions, inner.get()),
        Comp::For(_, _, _, inner, _) => check_comp(alloc, functions, inner.get()),
        Comp::If(_, inner, other, _) => {
            check_comp(alloc, functions, inner.get())?;
            check_comp(alloc, functions, other.get())
        }
        Comp::Map(_, _, _) => Ok(()),
        Comp::Filter(_, _, _) => Ok(()),
        Comp::Call(_, _, _) => Ok(()),
        Comp::Block(members, _) => check_members(alloc, functions, members.as_slice()),
        Comp::Pipe(_, left, right, at) => {
            check_comp(alloc, functions, left.get())?;
            check_joint(alloc, functions, left.get(), right.get(), *at)?;
            check_comp(alloc, functions, right.get())
        }
    }
}

/// The compositions in a member.
#[cycle(compositions)]
fn check_member(alloc: Global, functions: &Functions, m: &Member) -> Result<(), ShareError>
    requires { AllAscend functions.now }
    ensures { Answers (first_shared functions.now (of_member joints m.now)) result }
{
    match m {
        Member::Bind(_, c) => check_comp(alloc, functions, c),
        Member::Var(_) => Ok(()),
        Member::Run(c) => check_comp(alloc, functions, c),
    }
}

/// The compositions in members.
#[cycle(compositions)]
fn check_members(alloc: Global, functions: &Functions, ms: &[Member]) -> Result<(), ShareError>
    requires { AllAscend functions.now }
    ensures { Answers (first_shared functions.now (flat_map (of_member joints) ms.now)) result }
{
    for m in ms {
        check_member(alloc, functions, m)?;
    }
    Ok(())
}

/// The compositions in the body of a `fun comp`.
fn check_decl(alloc: Global, functions: &Functions, d: &Decl) -> Result<(), ShareError>
    requires { AllAscend functions.now }
    ensures { Answers (first_shared functions.now (of_decl joints d.now)) result }
{
    match d {
        Decl::Var(_) => Ok(()),
        Decl::Struct(_) => Ok(()),
        Decl::Function(_) => Ok(()),
        Decl::Comp(f) => check_comp(alloc, functions, &f.body),
    }
}

/// The compositions in the `fun comp`s of a program and in main.
pub fn check_shared(alloc: Global, functions: &Functions, p: &Prog) -> Result<(), ShareError>
    requires { AllAscend functions.now }
    ensures { Answers (first_shared functions.now (throughout joints p.now.declarations p.now.main)) result }
{
    let ds = p.declarations.as_slice();
    for d in ds {
        check_decl(alloc, functions, d)?;
    }
    check_comp(alloc, functions, &p.main)
}
