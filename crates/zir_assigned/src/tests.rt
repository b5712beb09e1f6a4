use crate::assigned::Assigned;
use sqlite_items::{Boxed, Items};
use std::alloc::{AllocError, Global};
use std::test::Fail;
use zir_tree::comp::{Comp, Link, Member};
use zir_tree::expr::Expr;
use zir_tree::ident::Ident;
use zir_tree::name::Name;
use zir_tree::place::Place;
use zir_tree::program::{Function, Instance};
use zir_tree::stmt::{Body, Stmt, Var};
use zir_tree::types::{Base, Ty, TypeExpr};

fn at() -> Place {
    Place { line: 1, col: 1 }
}

fn named(alloc: Global, id: u32) -> Result<Ident, AllocError> {
    let name = Name::from_slice(alloc, b"x")?;
    Ok(Ident { name, id, at: at() })
}

fn variable(alloc: Global, id: u32) -> Result<Var, AllocError> {
    let name = named(alloc, id)?;
    let ty = TypeExpr {
        dimensions: Items::new(alloc),
        base: Base::Unit,
        name: None,
        at: at(),
    };
    Ok(Var {
        name,
        ty,
        initial: None,
        at: at(),
    })
}

fn assignment(alloc: Global, id: u32) -> Result<Stmt, AllocError> {
    let name = named(alloc, id)?;
    Ok(Stmt::Assign(name, Items::new(alloc), Expr::Unit(at())))
}

// A component of one statement.
fn doing(alloc: Global, statement: Stmt) -> Result<Comp, AllocError> {
    let mut statements = Items::new(alloc);
    statements.push(statement)?;
    let body = Body {
        statements,
        result: None,
    };
    Ok(Comp::Do(body, at()))
}

// A function that assigns 1, and declares and assigns 2.
fn function(alloc: Global) -> Result<Function, AllocError> {
    let mut statements = Items::new(alloc);
    statements.push(assignment(alloc, 1)?)?;
    statements.push(Stmt::Var(variable(alloc, 2)?))?;
    statements.push(assignment(alloc, 2)?)?;
    let body = Body {
        statements,
        result: None,
    };
    Ok(Function {
        name: named(alloc, 0)?,
        params: Items::new(alloc),
        result: None,
        body,
        at: at(),
    })
}

// An instance that calls the function.
fn instance(alloc: Global) -> Result<Instance, AllocError> {
    let call = Stmt::Call(named(alloc, 0)?, 0, Items::new(alloc));
    let body = doing(alloc, call)?;
    Ok(Instance {
        declaration: 0,
        input: Ty {
            lengths: Items::new(alloc),
            base: Base::Unit,
        },
        params: Items::new(alloc),
        body,
        emits: None,
        value: None,
    })
}

fn made(alloc: Global) -> Result<Assigned, AllocError> {
    let mut functions = Vec::new(alloc);
    functions.push(function(alloc)?)?;
    let mut instances = Vec::new(alloc);
    instances.push(instance(alloc)?)?;
    Assigned::of(alloc, functions.as_slice(), instances.as_slice())
}

// A call of the instance.
fn call(alloc: Global) -> Result<Comp, AllocError> {
    let name = named(alloc, 0)?;
    Ok(Comp::Call(name, 0, Items::new(alloc)))
}

#[test]
fn an_instance_assigns_what_its_functions_do(rt: HostRuntime) -> Result<(), Fail> {
    let alloc = rt.alloc();
    let made = made(alloc)?;
    let call = Boxed::new(alloc, call(alloc)?)?;
    let set = made.component(alloc, call.get())?;
    assert_eq!(rt; set.contains(1), true);
    assert_eq!(rt; set.contains(2), false);
    Ok(())
}

#[test]
fn a_variable_is_hidden_in_its_scope_alone(rt: HostRuntime) -> Result<(), Fail> {
    let alloc = rt.alloc();
    let made = made(alloc)?;
    let mut members = Items::new(alloc);
    members.push(Member::Run(doing(alloc, assignment(alloc, 3)?)?))?;
    members.push(Member::Var(variable(alloc, 4)?))?;
    members.push(Member::Run(doing(alloc, assignment(alloc, 4)?)?))?;
    members.push(Member::Run(doing(alloc, assignment(alloc, 5)?)?))?;
    let inner = Boxed::new(alloc, Comp::Block(members, at()))?;
    let set = made.component(alloc, inner.get())?;
    assert_eq!(rt; set.contains(3), true);
    assert_eq!(rt; set.contains(4), false);
    assert_eq!(rt; set.contains(5), true);
    let outer = Boxed::new(alloc, doing(alloc, assignment(alloc, 4)?)?)?;
    let set = made.component(alloc, &Comp::Pipe(Link::Serial, outer, inner, at()))?;
    assert_eq!(rt; set.contains(3), true);
    assert_eq!(rt; set.contains(4), true);
    assert_eq!(rt; set.contains(6), false);
    Ok(())
}
