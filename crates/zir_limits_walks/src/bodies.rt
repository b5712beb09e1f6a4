// What the limits look at in the bodies of a core, with their calls and needs.

ghost use Rattle.std.specs.Prelude.{◌≡◌, List, ◌++◌, [], OnOk, IfOk};
ghost use Rattle.zir_types.specs.declared.scope.Seen.{Seen};
ghost use Rattle.zir_types.specs.Known.{seen_fields, seen_vars};
ghost use Rattle.zir_types.specs.Needs.{fields_cells as cells_of_fields, vars_cells as cells_of_vars, with_call as need_with_call};
ghost use Rattle.zir_types.specs.Limits.{in_fields, in_vars, in_result, in_functions, in_instances};
ghost use Rattle.zir_limits.specs.Facts.{told, sight};
ghost use Rattle.zir_limits.specs.Notes.{noted};
ghost use Rattle.zir_limits_walks.specs.Bodies.{Visits, firsts, function_measures, instance_measures, main_measures, function_need, instance_need, main_need};
ghost use Rattle.zir_limits_walks.specs.Bodies.{functions_known, instances_known, function_calls, instance_calls};

use crate::component::walk_comp;
use crate::found::Visited;
use crate::statement::{declare_var, note_body, note_var};
use sqlite_items::Items;
use std::alloc::{AllocError, Global};
use zir_limits::cells::{cells, written_cells};
use zir_limits::expression::note_type;
use zir_limits::facts::Facts;
use zir_limits::known::ty_of;
use zir_limits::need::{body_need, counted};
use zir_limits::notes::{Call, Notes};
use zir_limits::scope::Scope;
use zir_tree::program::{Core, Function, Instance, Prog};
use zir_tree::stmt::Var;
use zir_tree::types::{Field, TypeExpr};

/// The cells of parameters.
fn fields_cells(facts: &Facts, fields: &[Field]) -> u64
    ensures { result ≡ cells_of_fields (told facts.now).shapes fields.now }
{
    let mut sum = 0;
    for i in (0..fields.len()).rev() {
        sum = counted(written_cells(facts.shapes(), &fields[i].ty), sum);
    }
    sum
}

/// The cells of variables.
pub fn vars_cells(facts: &Facts, vars: &[Var]) -> u64
    ensures { result ≡ cells_of_vars (told facts.now).shapes vars.now }
{
    let mut sum = 0;
    for i in (0..vars.len()).rev() {
        sum = counted(written_cells(facts.shapes(), &vars[i].ty), sum);
    }
    sum
}

/// The need of a call of a body with these parameters.
fn with_call(facts: &Facts, fields: &[Field], need: u64) -> u64
    ensures { result ≡ need_with_call (told facts.now).shapes fields.now need }
{
    let arguments = fields_cells(facts, fields).saturating_add(1);
    counted(arguments, need)
}

/// The written types of parameters.
fn note_fields(facts: &Facts, notes: &mut Notes, fields: &[Field])
    ensures { (vs : List Seen) → notes.new ≡ noted (in_fields (sight (told facts.now) vs) fields.now) notes.old }
{
    for field in fields {
        note_type(facts, notes, &field.ty);
    }
}

/// The written type of a result.
fn note_result(facts: &Facts, notes: &mut Notes, written: &Option<TypeExpr>)
    ensures { (vs : List Seen) → notes.new ≡ noted (in_result (sight (told facts.now) vs) written.now) notes.old }
{
    match written {
        None => {}
        Some(ty) => note_type(facts, notes, ty),
    }
}

/// Parameters come into scope.
fn declare_fields(alloc: Global, scope: &mut Scope, fields: &[Field]) -> Result<(), AllocError>
    ensures { OnOk result (scope.new ≡ scope.old ++ seen_fields fields.now) }
{
    for field in fields {
        let ty = ty_of(alloc, &field.ty)?;
        scope.declare(field.name.id, ty)?;
    }
    Ok(())
}

/// Top variables come into scope.
pub fn declare_vars(alloc: Global, scope: &mut Scope, vars: &[Var]) -> Result<(), AllocError>
    ensures { OnOk result (scope.new ≡ scope.old ++ seen_vars vars.now) }
{
    for v in vars {
        declare_var(alloc, scope, v)?;
    }
    Ok(())
}

/// The top variables, which are all in scope.
pub fn note_vars(
    alloc: Global,
    facts: &Facts,
    scope: &Scope,
    notes: &mut Notes,
    vars: &[Var],
) -> Result<(), AllocError>
    ensures { OnOk result (notes.new ≡ noted (in_vars (sight (told facts.now) scope.now) vars.now) notes.old) }
{
    for v in vars {
        note_var(alloc, facts, scope, notes, v)?;
    }
    Ok(())
}

/// A function, whose calls are no longer noted.
fn visit_function(
    alloc: Global,
    facts: &Facts,
    scope: &mut Scope,
    notes: &mut Notes,
    f: &Function,
) -> Result<Visited, AllocError>
    ensures { Visits (function_measures (sight (told facts.now) scope.old) f.now) (function_need (told facts.now) f.now)
        notes.old notes.new scope.old scope.new result }
{
    let before = scope.len();
    note_fields(facts, notes, f.params.as_slice());
    note_result(facts, notes, &f.result);
    declare_fields(alloc, scope, f.params.as_slice())?;
    note_body(alloc, facts, scope, notes, &f.body)?;
    scope.leave(before);
    let need = with_call(facts, f.params.as_slice(), body_need(facts, &f.body));
    let calls = notes.take_calls(alloc);
    Ok(Visited { calls, need })
}

/// Functions, whose needs are known behind them; the calls of each.
pub fn visit_functions(
    alloc: Global,
    facts: &mut Facts,
    scope: &mut Scope,
    notes: &mut Notes,
    functions: &[Function],
) -> Result<Items<Items<Call>>, AllocError>
    requires { notes.old.calls ≡ [] }
    ensures noted { OnOk result (notes.new
        ≡ firsts (in_functions (sight (told facts.old) scope.old) functions.now) notes.old) }
    ensures calls { IfOk result (λ calls. calls ≡ function_calls (sight (told facts.old) scope.old) functions.now) }
    ensures known { OnOk result (told facts.new ≡ functions_known (told facts.old) functions.now) }
    ensures left { OnOk result (scope.new ≡ scope.old) }
{
    let mut calls = Items::new(alloc);
    for f in functions {
        let visited = visit_function(alloc, facts, scope, notes, f)?;
        facts.know_function(visited.need)?;
        calls.push(visited.calls)?;
    }
    Ok(calls)
}

/// An instance, whose calls are no longer noted.
fn visit_instance(
    alloc: Global,
    facts: &Facts,
    scope: &mut Scope,
    notes: &mut Notes,
    i: &Instance,
) -> Result<Visited, AllocError>
    ensures { Visits (instance_measures (told facts.now).instances (sight (told facts.now) scope.old) i.now)
        (instance_need (told facts.now) scope.old i.now) notes.old notes.new scope.old scope.new result }
{
    let before = scope.len();
    note_fields(facts, notes, i.params.as_slice());
    declare_fields(alloc, scope, i.params.as_slice())?;
    let walked = walk_comp(alloc, facts, scope, notes, &i.input, &i.body)?;
    scope.leave(before);
    let need = with_call(facts, i.params.as_slice(), walked.need);
    let calls = notes.take_calls(alloc);
    Ok(Visited { calls, need })
}

/// Instances, whose needs are known behind them; the calls of each.
pub fn visit_instances(
    alloc: Global,
    facts: &mut Facts,
    scope: &mut Scope,
    notes: &mut Notes,
    instances: &[Instance],
) -> Result<Items<Items<Call>>, AllocError>
    requires { notes.old.calls ≡ [] }
    ensures noted { OnOk result (notes.new
        ≡ firsts (in_instances (told facts.old).instances (sight (told facts.old) scope.old) instances.now) notes.old) }
    ensures calls { IfOk result (λ calls.
        calls ≡ instance_calls (told facts.old).instances (sight (told facts.old) scope.old) instances.now) }
    ensures known { OnOk result (told facts.new ≡ instances_known (told facts.old) scope.old instances.now) }
    ensures left { OnOk result (scope.new ≡ scope.old) }
{
    let mut calls = Items::new(alloc);
    for i in instances {
        let visited = visit_instance(alloc, facts, scope, notes, i)?;
        facts.know_instance(visited.need)?;
        calls.push(visited.calls)?;
    }
    Ok(calls)
}

/// The streams and main, whose calls are no longer noted.
pub fn visit_main(
    alloc: Global,
    facts: &Facts,
    scope: &mut Scope,
    notes: &mut Notes,
    program: &Prog,
    core: &Core,
) -> Result<Visited, AllocError>
    ensures { Visits (main_measures (told facts.now) scope.old program.now core.now) (main_need (told facts.now) scope.old core.now)
        notes.old notes.new scope.old scope.new result }
{
    note_type(facts, notes, &program.input);
    notes.sends(cells(facts.shapes(), &core.input), program.input.at);
    let walked = walk_comp(alloc, facts, scope, notes, &core.input, &core.main)?;
    note_type(facts, notes, &program.output);
    let need = walked.need;
    let calls = notes.take_calls(alloc);
    Ok(Visited { calls, need })
}
