// About how much memory trees take. The body of a `fun comp` is typed once for each of its instances, so that a short text can ask for
// hundreds of copies of a long body.

use zir_tree::comp::{Comp, Member};
use zir_tree::expr::Expr;
use zir_tree::stmt::{Access, Body, Stmt};

/// How many bytes the bodies of all instances of a program take at most, about.
const ROOM: u64 = 256_000_000;
/// About how many bytes a component or a member takes in a list that has grown to twice its length.
const COMPONENT: u64 = 500;
/// About how many bytes a statement takes in such a list.
const STATEMENT: u64 = 500;
/// About how many bytes an expression takes.
const EXPRESSION: u64 = 160;

/// Whether there is room for so many bytes of instances.
pub fn has_room(bytes: u64) -> bool {
    bytes <= ROOM
}

/// About how many bytes an expression takes.
#[cycle(expressions)]
fn bytes_of_expr(e: &Expr) -> u64 {
    let parts = match e {
        Expr::Unit(_) => 0,
        Expr::Bit(_, _) => 0,
        Expr::Bool(_, _) => 0,
        Expr::Int(_, _, _) => 0,
        Expr::Variable(_) => 0,
        Expr::Unary(_, _, a, _) => bytes_of_expr(a.get()),
        Expr::Binary(_, _, a, b, _) => bytes_of_expr(a.get()).saturating_add(bytes_of_expr(
            b.get(),
        )),
        Expr::Index(a, i, _) => bytes_of_expr(a.get()).saturating_add(bytes_of_expr(i.get())),
        Expr::Slice(a, i, _, _) => bytes_of_expr(a.get()).saturating_add(bytes_of_expr(i.get())),
        Expr::Part(a, _, _, _) => bytes_of_expr(a.get()),
        Expr::Call(_, _, arguments) => bytes_of_exprs(arguments.as_slice()),
        Expr::Array(elements, _) => bytes_of_exprs(elements.as_slice()),
        Expr::Convert(_, a, _) => bytes_of_expr(a.get()),
        Expr::Complex(_, a, b, _) => bytes_of_expr(a.get()).saturating_add(bytes_of_expr(b.get())),
    };
    EXPRESSION.saturating_add(parts)
}

/// About how many bytes expressions take.
#[cycle(expressions)]
fn bytes_of_exprs(expressions: &[Expr]) -> u64 {
    let mut bytes: u64 = 0;
    for e in expressions {
        bytes = bytes.saturating_add(bytes_of_expr(e));
    }
    bytes
}

/// About how many bytes an expression takes, where there is one.
fn bytes_of_option(e: &Option<Expr>) -> u64 {
    match e {
        None => 0,
        Some(e) => bytes_of_expr(e),
    }
}

/// About how many bytes the path to what an assignment changes takes.
fn bytes_of_path(path: &[Access]) -> u64 {
    let mut bytes: u64 = 0;
    for access in path {
        let index = match access {
            Access::Index(e, _) => bytes_of_expr(e),
            Access::Slice(e, _, _) => bytes_of_expr(e),
            Access::Part(_, _, _) => 0,
        };
        bytes = bytes.saturating_add(EXPRESSION).saturating_add(index);
    }
    bytes
}

/// About how many bytes a statement takes.
#[cycle(statements)]
fn bytes_of_stmt(s: &Stmt) -> u64 {
    let parts = match s {
        Stmt::Var(v) => bytes_of_option(&v.initial),
        Stmt::Assign(_, path, e) => bytes_of_path(path.as_slice()).saturating_add(bytes_of_expr(e)),
        Stmt::Call(_, _, arguments) => bytes_of_exprs(arguments.as_slice()),
        Stmt::Error(_, _) => 0,
        Stmt::If(e, thens, _) => bytes_of_expr(e).saturating_add(bytes_of_stmts(thens.as_slice())),
        Stmt::IfElse(e, thens, elses, _) => bytes_of_expr(e)
            .saturating_add(bytes_of_stmts(thens.as_slice()))
            .saturating_add(bytes_of_stmts(elses.as_slice())),
        Stmt::While(e, body, _) => bytes_of_expr(e).saturating_add(bytes_of_stmts(body.as_slice())),
        Stmt::For(_, first, count, body, _) => bytes_of_expr(first)
            .saturating_add(bytes_of_expr(count))
            .saturating_add(bytes_of_stmts(body.as_slice())),
    };
    STATEMENT.saturating_add(parts)
}

/// About how many bytes statements take.
#[cycle(statements)]
fn bytes_of_stmts(statements: &[Stmt]) -> u64 {
    let mut bytes: u64 = 0;
    for s in statements {
        bytes = bytes.saturating_add(bytes_of_stmt(s));
    }
    bytes
}

/// About how many bytes the body of a `do` takes.
fn bytes_of_body(body: &Body) -> u64 {
    let result = match &body.result {
        None => 0,
        Some(result) => bytes_of_expr(&result.value),
    };
    bytes_of_stmts(body.statements.as_slice()).saturating_add(result)
}

/// About how many bytes a component takes.
#[cycle(components)]
pub fn bytes_of_comp(c: &Comp) -> u64 {
    let parts = match c {
        Comp::Take(_) => 0,
        Comp::Takes(_, _) => 0,
        Comp::Emit(e, _) => bytes_of_expr(e),
        Comp::Emits(e, _) => bytes_of_expr(e),
        Comp::Return(e, _) => bytes_of_expr(e),
        Comp::Do(body, _) => bytes_of_body(body),
        Comp::Repeat(inner, _) => bytes_of_comp(inner.get()),
        Comp::While(_, e, inner, _) => bytes_of_expr(e).saturating_add(bytes_of_comp(inner.get())),
        Comp::Times(e, inner, _) => bytes_of_expr(e).saturating_add(bytes_of_comp(inner.get())),
        Comp::For(_, first, count, inner, _) => bytes_of_expr(first)
            .saturating_add(bytes_of_expr(count))
            .saturating_add(bytes_of_comp(inner.get())),
        Comp::If(e, inner, other, _) => bytes_of_expr(e)
            .saturating_add(bytes_of_comp(inner.get()))
            .saturating_add(bytes_of_comp(other.get())),
        Comp::Map(_, _, _) => 0,
        Comp::Filter(_, _, _) => 0,
        Comp::Call(_, _, arguments) => bytes_of_exprs(arguments.as_slice()),
        Comp::Block(members, _) => bytes_of_members(members.as_slice()),
        Comp::Pipe(_, left, right, _) => {
            bytes_of_comp(left.get()).saturating_add(bytes_of_comp(right.get()))
        }
    };
    COMPONENT.saturating_add(parts)
}

/// About how many bytes the members of a block take.
#[cycle(components)]
fn bytes_of_members(members: &[Member]) -> u64 {
    let mut bytes: u64 = 0;
    for member in members {
        bytes = bytes.saturating_add(bytes_of_member(member));
    }
    bytes
}

/// About how many bytes a member of a block takes.
#[cycle(components)]
fn bytes_of_member(member: &Member) -> u64 {
    match member {
        Member::Bind(_, c) => bytes_of_comp(c),
        Member::Var(v) => COMPONENT.saturating_add(bytes_of_option(&v.initial)),
        Member::Run(c) => bytes_of_comp(c),
    }
}
