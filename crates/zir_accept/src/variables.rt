// The names of variables by their numbers.

ghost use Rattle.std.specs.Prelude.{◌≡◌, [], ◌∷◌, IfOk};
ghost use Rattle.std.specs.List.{flat_map};
ghost use Rattle.std.specs.Option.{option_copied};
ghost use Rattle.zir_accept.specs.Variables.{first_name, in_blocks, of_decl, variable_name, variables_of};
ghost use Rattle.zir_accept.specs.Finding.{of_member};

use std::alloc::{AllocError, Global};
use zir_tree::comp::{Comp, Member};
use zir_tree::name::Name;
use zir_tree::program::{Decl, Prog};
use zir_tree::stmt::Var;

/// A copy of the name of the variable of this number, and no bytes where there is none.
pub fn name_of_variable(alloc: Global, p: &Prog, x: u32) -> Result<Name, AllocError>
    ensures { IfOk result (λ name. name ≡ variable_name p.now x) }
{
    match find_in_prog(x, p) {
        Some(name) => Name::from_slice(alloc, name.as_slice()),
        None => Name::from_slice(alloc, b""),
    }
}

/// The name of the variable of this number in a program.
fn find_in_prog(x: u32, p: &Prog) -> Option<&Name>
    ensures { option_copied result ≡ first_name x (variables_of p.now) }
{
    match find_at_top(x, p.declarations.as_slice()) {
        Some(name) => Some(name),
        None => find_in_comp(x, &p.main),
    }
}

/// The same in declarations.
fn find_at_top(x: u32, ds: &[Decl]) -> Option<&Name>
    ensures { option_copied result ≡ first_name x (flat_map of_decl ds.now) }
{
    for d in ds {
        if let Some(name) = find_in_decl(x, d) {
            return Some(name);
        }
    }
    None
}

/// The same in a declaration.
fn find_in_decl(x: u32, d: &Decl) -> Option<&Name>
    ensures { option_copied result ≡ first_name x (of_decl d.now) }
{
    match d {
        Decl::Var(v) => name_if(x, v),
        Decl::Struct(_) => None,
        Decl::Function(_) => None,
        Decl::Comp(f) => find_in_comp(x, &f.body),
    }
}

/// The name of a variable, where it has this number.
fn name_if(x: u32, v: &Var) -> Option<&Name>
    ensures { option_copied result ≡ first_name x (v.now ∷ []) }
{
    if v.name.id == x {
        Some(&v.name.name)
    } else {
        None
    }
}

/// The name of the variable of this number in the blocks of a component.
#[cycle(blocks)]
fn find_in_comp(x: u32, c: &Comp) -> Option<&Name>
    ensures { option_copied result ≡ first_name x (in_blocks c.now) }
{
    match c {
        Comp::Take(_) => None,
        Comp::Takes(_, _) => None,
        Comp::Emit(_, _) => None,
        Comp::Emits(_, _) => None,
        Comp::Return(_, _) => None,
        Comp::Do(_, _) => None,
        Comp::Repeat(inner, _) => find_in_comp(x, inner.get()),
        Comp::While(_, _, inner, _) => find_in_comp(x, inner.get()),
        Comp::Times(_, inner, _) => find_in_comp(x, inner.get()),
        Comp::For(_, _, _, inner, _) => find_in_comp(x, inner.get()),
        Comp::If(_, inner, other, _) => match find_in_comp(x, inner.get()) {
            Some(name) => Some(name),
            None => find_in_comp(x, other.get()),
        },
        Comp::Map(_, _, _) => None,
        Comp::Filter(_, _, _) => None,
        Comp::Call(_, _, _) => None,
        Comp::Block(members, _) => find_in_block(x, members.as_slice()),
        Comp::Pipe(_, left, right, _) => match find_in_comp(x, left.get()) {
            Some(name) => Some(name),
            None => find_in_comp(x, right.get()),
        },
    }
}

/// The same in the members of a block.
#[cycle(blocks)]
fn find_in_block(x: u32, ms: &[Member]) -> Option<&Name>
    ensures { option_copied result ≡ first_name x (flat_map of_member ms.now) }
{
    for m in ms {
        if let Some(name) = find_in_member(x, m) {
            return Some(name);
        }
    }
    None
}

/// The same in a member.
#[cycle(blocks)]
fn find_in_member(x: u32, m: &Member) -> Option<&Name>
    ensures { option_copied result ≡ first_name x (of_member m.now) }
{
    match m {
        Member::Bind(_, c) => find_in_comp(x, c),
        Member::Var(v) => name_if(x, v),
        Member::Run(c) => find_in_comp(x, c),
    }
}
