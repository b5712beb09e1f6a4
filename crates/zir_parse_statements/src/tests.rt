// Expressions and bodies that are read whole, by their heights, and ones that are too high or wrong.

use crate::expressions::expression;
use crate::statements::body;
use std::alloc::Global;
use std::test::*;
use zir_grammar::stop::Stop;
use zir_lex::lexer::lex;

fn expression_height(alloc: Global, room: usize, text: &[u8]) -> Result<usize, Stop> {
    let Ok(found) = lex(alloc, text) else {
        return Err(Stop::Memory);
    };
    let (_, height, rest) = expression(alloc, room, found.tokens.as_slice())?;
    if rest.len() > 0 {
        return Err(Stop::Syntax(rest.len()));
    }
    Ok(height)
}

fn body_height(alloc: Global, text: &[u8]) -> Result<usize, Stop> {
    let Ok(found) = lex(alloc, text) else {
        return Err(Stop::Memory);
    };
    let (_, height, rest) = body(alloc, 64, found.tokens.as_slice())?;
    if rest.len() > 0 {
        return Err(Stop::Syntax(rest.len()));
    }
    Ok(height)
}

#[test]
fn rows(rt: HostRuntime) -> Result<(), Fail> {
    let alloc = rt.alloc();
    assert_eq!(rt; expression_height(alloc, 64, b"1 + 2 * 3"), Ok(3));
    assert_eq!(rt; expression_height(alloc, 64, b"(1 + 2) * 3"), Ok(4));
    assert_eq!(rt;
        expression_height(alloc, 3, b"(1 + 2) * 3"),
        Err(Stop::TooDeep(2))
    );
    assert_eq!(rt; expression_height(alloc, 64, b"f(a, {'0, '1})"), Ok(3));
    assert_eq!(rt; expression_height(alloc, 64, b"- x[1].re"), Ok(4));
    assert_eq!(rt;
        expression_height(alloc, 64, b"complex16(1, 2"),
        Err(Stop::Syntax(0))
    );
    assert_eq!(rt;
        body_height(alloc, b"{ var x : int := 1; x[0] := 2; return x }"),
        Ok(4)
    );
    Ok(())
}
