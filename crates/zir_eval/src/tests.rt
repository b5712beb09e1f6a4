use crate::evaluation::{Stop, eval};
use crate::opening::{frame_of, names_of};
use crate::variables::{read, write};
use sqlite_items::{Boxed, Items};
use std::alloc::{AllocError, Global};
use std::test::Fail;
use zir_compile::scope::Names;
use zir_expr::frame::Frame;
use zir_tree::comp::Comp;
use zir_tree::ends::Trap;
use zir_tree::expr::{Callee, Expr, Operator};
use zir_tree::ident::Ident;
use zir_tree::name::Name;
use zir_tree::place::Place;
use zir_tree::program::{Core, Function};
use zir_tree::stmt::{Body, Return, Stmt, Var};
use zir_tree::types::{Base, Field, Ty, TypeExpr};

const AT: Place = Place { line: 3, col: 7 };

// The top variable x, and the parameter a of the function f.
const X: u32 = 1;

const A: u32 = 2;

fn ident(alloc: Global, id: u32) -> Result<Ident, AllocError> {
    let name = Name::from_slice(alloc, b"n")?;
    Ok(Ident { name, id, at: AT })
}

fn int32(alloc: Global) -> TypeExpr {
    TypeExpr {
        dimensions: Items::new(alloc),
        base: Base::Int32,
        name: None,
        at: AT,
    }
}

fn variable(alloc: Global, id: u32) -> Result<Expr, AllocError> {
    Ok(Expr::Variable(ident(alloc, id)?))
}

fn both(alloc: Global, o: Operator, a: Expr, b: Expr) -> Result<Expr, AllocError> {
    let a = Boxed::new(alloc, a)?;
    let b = Boxed::new(alloc, b)?;
    Ok(Expr::Binary(o, Base::Int32, a, b, AT))
}

// `f(e)`
fn call(alloc: Global, e: Expr) -> Result<Expr, AllocError> {
    let name = ident(alloc, 3)?;
    let mut es = Items::new(alloc);
    es.push(e)?;
    Ok(Expr::Call(name, Callee::Function(0), es))
}

// `{ x := x + a; return a * a }`
fn body(alloc: Global) -> Result<Body, AllocError> {
    let sum = both(
        alloc,
        Operator::Add,
        variable(alloc, X)?,
        variable(alloc, A)?,
    )?;
    let mut statements = Items::new(alloc);
    statements.push(Stmt::Assign(ident(alloc, X)?, Items::new(alloc), sum))?;
    let value = both(
        alloc,
        Operator::Multiply,
        variable(alloc, A)?,
        variable(alloc, A)?,
    )?;
    let result = Some(Return { value, at: AT });
    Ok(Body { statements, result })
}

// `fun f(a : int32) : int32`
fn function(alloc: Global) -> Result<Function, AllocError> {
    let mut params = Items::new(alloc);
    params.push(Field {
        name: ident(alloc, A)?,
        ty: int32(alloc),
    })?;
    Ok(Function {
        name: ident(alloc, 3)?,
        params,
        result: Some(int32(alloc)),
        body: body(alloc)?,
        at: AT,
    })
}

fn plain(alloc: Global, base: Base) -> Ty {
    Ty {
        lengths: Items::new(alloc),
        base,
    }
}

// `var x : int32` and f
fn program(alloc: Global) -> Result<Core, AllocError> {
    let mut variables = Items::new(alloc);
    variables.push(Var {
        name: ident(alloc, X)?,
        ty: int32(alloc),
        initial: None,
        at: AT,
    })?;
    let mut functions = Items::new(alloc);
    functions.push(function(alloc)?)?;
    Ok(Core {
        structs: Items::new(alloc),
        variables,
        functions,
        instances: Items::new(alloc),
        main: Comp::Take(AT),
        input: plain(alloc, Base::Bit),
        output: plain(alloc, Base::Bit),
        value: None,
        at: AT,
    })
}

// The value of x, if it is read.
fn value_of_x(names: &Names, frame: &Frame) -> Option<i64> {
    let mut cells = [0i64];
    if read(names, X, frame, 1, &mut cells) {
        Some(cells[0])
    } else {
        None
    }
}

// How the evaluation of an expression ends where x is 5, and what x is then.
fn evaluated(
    alloc: Global,
    e: &Expr,
    limit: u64,
) -> Result<Option<(Result<i64, Stop>, Option<i64>)>, AllocError> {
    let core = program(alloc)?;
    let Some(names) = names_of(alloc, &core)? else {
        return Ok(None);
    };
    let Some(made) = names.code(alloc, e, 0)? else {
        return Ok(None);
    };
    let mut frame = frame_of(alloc, &names, made.peak, limit)?;
    if !write(&names, X, &[5], &mut frame, 1) {
        return Ok(None);
    }
    let end = match eval(&made, &mut frame, 1) {
        Ok(at) => Ok(frame.cell(at)),
        Err(stop) => Err(stop),
    };
    Ok(Some((end, value_of_x(&names, &frame))))
}

#[test]
fn a_variable_is_read_before_a_call_assigns_it(rt: HostRuntime) -> Result<(), Fail> {
    let alloc = rt.alloc();
    let f = call(alloc, variable(alloc, X)?)?;
    let e = both(alloc, Operator::Add, variable(alloc, X)?, f)?;
    assert_eq!(rt; evaluated(alloc, &e, 1)?, Some((Ok(30), Some(10))));
    assert_eq!(rt; evaluated(alloc, &e, 0)?, Some((Err(Stop::Spent), Some(5))));
    Ok(())
}

#[test]
fn a_trap_has_its_place(rt: HostRuntime) -> Result<(), Fail> {
    let alloc = rt.alloc();
    let zero = both(
        alloc,
        Operator::Subtract,
        variable(alloc, X)?,
        variable(alloc, X)?,
    )?;
    let e = both(alloc, Operator::Divide, variable(alloc, X)?, zero)?;
    let trap = Stop::Trap(Trap { code: 1, at: AT });
    assert_eq!(rt; evaluated(alloc, &e, 1)?, Some((Err(trap), Some(5))));
    Ok(())
}
