// The variables and functions of a program.

ghost use Rattle.std.specs.Prelude.{◌≡◌, ◌∷◌, [], OnOk, IfOk};
ghost use Rattle.zir_names.specs.Numbers.{union};
ghost use Rattle.zir_names.specs.Touched.{both, tops, all_of, in_decl, functions_from, functions as functions_of_program, variables as variables_of_program};
ghost use Rattle.zir_sharing.specs.Ascending.{AllAscend};

use crate::component::touch_comp;
use crate::functions::Functions;
use crate::number_set::NumberSet;
use crate::statement::{touch_body, touch_var};
use crate::touched::Touched;
use std::alloc::{AllocError, Global};
use zir_names::Named;
use zir_tree::program::Decl;

/// The variables that are declared at the top.
fn top_variables(alloc: Global, ds: &[Decl]) -> Result<NumberSet, AllocError>
    ensures { IfOk result (λ top. top ≡ tops ds.now) }
{
    let mut top = NumberSet::new(alloc);
    for d in ds {
        add_top(&mut top, d)?;
    }
    Ok(top)
}

/// The variable of a declaration, where it is one.
fn add_top(top: &mut NumberSet, d: &Decl) -> Result<(), AllocError>
    ensures { OnOk result (top.new ≡ union (tops (d.now ∷ [])) top.old) }
{
    match d {
        Decl::Var(v) => top.insert(v.name.id),
        Decl::Struct(_) => Ok(()),
        Decl::Function(_) => Ok(()),
        Decl::Comp(_) => Ok(()),
    }
}

/// What a call touches of the body of a declaration, where it is a function.
fn with_declaration(
    alloc: Global,
    functions: Functions,
    top: &NumberSet,
    d: &Decl,
) -> Result<Functions, AllocError>
    requires { AllAscend functions }
    ensures { IfOk result (λ more. more ≡ functions_from top.now functions (d.now ∷ [])) }
{
    match d {
        Decl::Var(_) => Ok(functions),
        Decl::Struct(_) => Ok(functions),
        Decl::Function(f) => {
            let mut touched = Touched::new(alloc);
            touch_body(&functions, &f.body, &mut touched)?;
            functions.with(f.name.id, touched.seen_outside(alloc, top))
        }
        Decl::Comp(f) => {
            let mut touched = Touched::new(alloc);
            touch_comp(&functions, &f.body, &mut touched)?;
            functions.with(f.name.id, touched.seen_outside(alloc, top))
        }
    }
}

/// The functions of declarations, each with what a call of it touches.
fn functions_among(alloc: Global, top: &NumberSet, ds: &[Decl]) -> Result<Functions, AllocError>
    ensures { IfOk result (λ functions. functions ≡ functions_from top.now [] ds.now) }
{
    let mut functions = Functions::new(alloc);
    for d in ds {
        let more = with_declaration(alloc, functions, top, d)?;
        functions = more;
    }
    Ok(functions)
}

/// The functions of a program, each with what a call of it touches.
pub fn functions_of(alloc: Global, program: &Named) -> Result<Functions, AllocError>
    ensures { IfOk result (λ functions. functions ≡ functions_of_program program.now) }
{
    let ds = program.program.declarations.as_slice();
    let top = top_variables(alloc, ds)?;
    functions_among(alloc, &top, ds)
}

/// What a declaration declares, with all that stands in it.
fn touch_decl(none: &Functions, d: &Decl, touched: &mut Touched) -> Result<(), AllocError>
    requires { none.now ≡ [] }
    ensures { OnOk result (touched.new ≡ both (in_decl d.now) touched.old) }
{
    match d {
        Decl::Var(v) => touch_var(none, v, touched),
        Decl::Struct(_) => Ok(()),
        Decl::Function(f) => touch_body(none, &f.body, touched),
        Decl::Comp(f) => touch_comp(none, &f.body, touched),
    }
}

/// All variables of a program.
pub fn variables_of(alloc: Global, program: &Named) -> Result<NumberSet, AllocError>
    ensures { IfOk result (λ variables. variables ≡ variables_of_program program.now) }
{
    let none = Functions::new(alloc);
    let mut touched = Touched::new(alloc);
    let ds = program.program.declarations.as_slice();
    for d in ds {
        touch_decl(&none, d, &mut touched)?;
    }
    touch_comp(&none, &program.program.main, &mut touched)?;
    Ok(touched.into_declared())
}
