// Programs that are read whole, and ones that are too high or wrong.

use crate::program::parse;
use std::alloc::Global;
use std::test::*;
use zir_grammar::error::ParseError;
use zir_lex::lexer::lex;

fn answer(alloc: Global, text: &[u8]) -> Result<(), ParseError> {
    let Ok(found) = lex(alloc, text) else {
        return Err(ParseError::Memory);
    };
    match parse(alloc, found.tokens.as_slice()) {
        Ok(program) => {
            drop(program);
            Ok(())
        }
        Err(error) => Err(error),
    }
}

#[test]
fn whole(rt: HostRuntime) -> Result<(), Fail> {
    let alloc = rt.alloc();
    assert_eq!(rt;
        answer(
            alloc,
            b"struct pair = { a : int; b : int } var v : int := 1; fun f(x : int) : int { return x } fun comp g() { var w : bit; x <- take; do { w := x }; emit w } let comp main = read[bit] >>> repeat { x <- take; emit x } >>> map f |>>>| g() >>> write[bit]"
        ),
        Ok(())
    );
    assert_eq!(rt;
        answer(
            alloc,
            b"let comp main = read[bit] >>> (((((((((((((((((((((((((((((((((((((((((((((((((((((((((((((((take))))))))))))))))))))))))))))))))))))))))))))))))))))))))))))))) >>> write[bit]"
        ),
        Ok(())
    );
    Ok(())
}

#[test]
fn refused(rt: HostRuntime) -> Result<(), Fail> {
    let alloc = rt.alloc();
    assert_eq!(rt; answer(alloc, b""), Err(ParseError::Syntax(0)));
    assert_eq!(rt;
        answer(alloc, b"let comp main = read"),
        Err(ParseError::Syntax(5))
    );
    assert_eq!(rt;
        answer(
            alloc,
            b"let comp main = read[bit] >>> take >>> write[bit] ;"
        ),
        Err(ParseError::Syntax(15))
    );
    assert_eq!(rt;
        answer(
            alloc,
            b"let comp main = read[bit] >>> ((((((((((((((((((((((((((((((((((((((((((((((((((((((((((((((((take)))))))))))))))))))))))))))))))))))))))))))))))))))))))))))))))) >>> write[bit]"
        ),
        Err(ParseError::TooDeep(72))
    );
    Ok(())
}
