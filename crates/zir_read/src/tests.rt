use super::*;
use std::alloc::{AllocError, Global};
use std::test::Fail;
use zir_tree::place::Place;
use zir_tree::refusal::Refusal;

/// What is answered to a text, as a letter and a place: `p` for a program.
fn answer(alloc: Global, text: &[u8]) -> (u8, u32, u32) {
    let (letter, at) = match read_program(alloc, text) {
        Ok(_) => (b'p', Place { line: 0, col: 0 }),
        Err(Refusal::BadByte(at)) => (b'b', at),
        Err(Refusal::BadNumber(at)) => (b'n', at),
        Err(Refusal::Syntax(at)) => (b's', at),
        Err(Refusal::TooDeep(at)) => (b'd', at),
        Err(_) => (b'?', Place { line: 0, col: 0 }),
    };
    (letter, at.line, at.col)
}

#[test]
fn texts_are_read_or_refused_at_their_places(rt: HostRuntime) -> Result<(), Fail> {
    let rows: [(&[u8], (u8, u32, u32)); 6] = [
        (
            b"let comp main = read[bit] >>> take >>> write[bit]",
            (b'p', 0, 0),
        ),
        (b"", (b's', 1, 1)),
        (b"@", (b'b', 1, 1)),
        (b"09a", (b'n', 1, 1)),
        (b"let comp\n  main ", (b's', 2, 7)),
        (b"let comp main =", (b's', 1, 16)),
    ];
    for (text, want) in rows {
        assert_eq!(rt; answer(rt.alloc(), text), want);
    }
    Ok(())
}
