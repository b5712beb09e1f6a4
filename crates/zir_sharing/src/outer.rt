// Rule 3: no operand of a chain but the last assigns a variable declared outside the chain.

ghost use Rattle.std.specs.Prelude.{◌≡◌, None, IfOk, unwrap_or};
ghost use Rattle.std.specs.Option.{option_copied};
ghost use Rattle.zir_names.specs.Touched.{in_comp};
ghost use Rattle.zir_names.specs.Sharing.{outers, outer_of, chain_declares, last_operand as operand_of, first_of, throughout};
ghost use Rattle.zir_sharing.specs.Ascending.{AllAscend};
ghost use Rattle.std.specs.List.{flat_map};
ghost use Rattle.zir_sharing.specs.Blocks.{of_member, of_decl};
ghost use Rattle.zir_sharing.specs.Answers.{Answers};

use crate::component::touched_by;
use crate::error::ShareError;
use crate::functions::Functions;
use crate::number_set::NumberSet;
use std::alloc::{AllocError, Global};
use zir_tree::comp::{Comp, Link, Member};
use zir_tree::place::Place;
use zir_tree::program::{Decl, Prog};

/// What the chain of a `|>>>|` declares, where no operator to its right has told it.
fn own_declared(
    alloc: Global,
    functions: &Functions,
    chain: Option<&NumberSet>,
    left: &Comp,
    right: &Comp,
) -> Result<NumberSet, AllocError>
    requires { AllAscend functions.now }
    ensures { IfOk result (λ own.
        unwrap_or (option_copied chain.entry) own
        ≡ chain_declares (option_copied chain.entry) (in_comp functions.now left.now) (in_comp functions.now right.now)) }
{
    match chain {
        Some(_) => Ok(NumberSet::new(alloc)),
        None => {
            let left = touched_by(alloc, functions, left)?;
            let right = touched_by(alloc, functions, right)?;
            left.all_declared(right)
        }
    }
}

/// What a chain declares, from an operator to the right or else its own.
fn inside_of<'a>(chain: Option<&'a NumberSet>, own: &'a NumberSet) -> &'a NumberSet
    ensures { result.now ≡ unwrap_or (option_copied chain.entry) own.now }
{
    match chain {
        Some(inside) => inside,
        None => own,
    }
}

/// The last operand of a left side.
fn last_operand(c: &Comp) -> &Comp
    ensures { result.now ≡ operand_of c.now }
{
    match c {
        Comp::Pipe(link, _, right, _) => match link {
            Link::Parallel => right.get(),
            Link::Serial => c,
        },
        _ => c,
    }
}

/// The operand before a `|>>>|`.
fn check_operand(
    alloc: Global,
    functions: &Functions,
    inside: &NumberSet,
    left: &Comp,
    at: Place,
) -> Result<(), ShareError>
    requires { AllAscend functions.now }
    ensures { Answers (first_of (outer_of inside.now (in_comp functions.now (operand_of left.now)) at)) result }
{
    let operand = touched_by(alloc, functions, last_operand(left))?;
    match operand.first_assigned(inside) {
        None => Ok(()),
        Some(x) => Err(ShareError::OuterAssign(x, at)),
    }
}

/// The operators `|>>>|` in a component, in the order of the text; where it is the left side of a `|>>>|`, with what that
/// chain declares.
#[cycle(chains)]
fn check_comp(
    alloc: Global,
    functions: &Functions,
    chain: Option<&NumberSet>,
    c: &Comp,
) -> Result<(), ShareError>
    requires { AllAscend functions.now }
    ensures { Answers (first_of (outers functions.now (option_copied chain.entry) c.now)) result }
{
    match c {
        Comp::Take(_) => Ok(()),
        Comp::Takes(_, _) => Ok(()),
        Comp::Emit(_, _) => Ok(()),
        Comp::Emits(_, _) => Ok(()),
        Comp::Return(_, _) => Ok(()),
        Comp::Do(_, _) => Ok(()),
        Comp::Repeat(inner, _) => check_comp(alloc, functions, None, inner.get()),
        Comp::While(_, _, inner, _) => check_comp(alloc, functions, None, inner.get()),
        Comp::Times(_, inner, _) => check_comp(alloc, functions, None, inner.get()),
        Comp::For(_, _, _, inner, _) => check_comp(alloc, functions, None, inner.get()),
        Comp::If(_, inner, other, _) => {
            check_comp(alloc, functions, None, inner.get())?;
            check_comp(alloc, functions, None, other.get())
        }
        Comp::Map(_, _, _) => Ok(()),
        Comp::Filter(_, _, _) => Ok(()),
        Comp::Call(_, _, _) => Ok(()),
        Comp::Block(members, _) => check_members(alloc, functions, members.as_slice()),
        Comp::Pipe(link, left, right, at) => match link {
            Link::Serial => {
                check_comp(alloc, functions, None, left.get())?;
                check_comp(alloc, functions, None, right.get())
            }
            Link::Parallel => {
                let own = own_declared(alloc, functions, chain, left.get(), right.get())?;
                let inside = inside_of(chain, &own);
                check_comp(alloc, functions, Some(inside), left.get())?;
                check_operand(alloc, functions, inside, left.get(), *at)?;
                check_comp(alloc, functions, None, right.get())
            }
        },
    }
}

/// The same in a member.
#[cycle(chains)]
fn check_member(alloc: Global, functions: &Functions, m: &Member) -> Result<(), ShareError>
    requires { AllAscend functions.now }
    ensures { Answers (first_of (of_member (outers functions.now None) m.now)) result }
{
    match m {
        Member::Bind(_, c) => check_comp(alloc, functions, None, c),
        Member::Var(_) => Ok(()),
        Member::Run(c) => check_comp(alloc, functions, None, c),
    }
}

/// The same in members.
#[cycle(chains)]
fn check_members(alloc: Global, functions: &Functions, ms: &[Member]) -> Result<(), ShareError>
    requires { AllAscend functions.now }
    ensures { Answers (first_of (flat_map (of_member (outers functions.now None)) ms.now)) result }
{
    for m in ms {
        check_member(alloc, functions, m)?;
    }
    Ok(())
}

/// The same in the body of a `fun comp`.
fn check_decl(alloc: Global, functions: &Functions, d: &Decl) -> Result<(), ShareError>
    requires { AllAscend functions.now }
    ensures { Answers (first_of (of_decl (outers functions.now None) d.now)) result }
{
    match d {
        Decl::Var(_) => Ok(()),
        Decl::Struct(_) => Ok(()),
        Decl::Function(_) => Ok(()),
        Decl::Comp(f) => check_comp(alloc, functions, None, &f.body),
    }
}

/// The same in the `fun comp`s of a program and in main.
pub fn check_outer(alloc: Global, functions: &Functions, p: &Prog) -> Result<(), ShareError>
    requires { AllAscend functions.now }
    ensures { Answers (first_of (throughout (outers functions.now None) p.now.declarations p.now.main)) result }
{
    let ds = p.declarations.as_slice();
    for d in ds {
        check_decl(alloc, functions, d)?;
    }
    check_comp(alloc, functions, None, &p.main)
}
