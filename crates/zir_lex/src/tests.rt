use crate::lexer::{LexError, lex};
use crate::places::{place_at, place_past};
use crate::token::Lexeme;
use std::alloc::Global;
use std::test::*;
use zir_tree::place::Place;

/// A letter for the kind of a lexeme.
fn letter(lexeme: &Lexeme) -> u8 {
    match lexeme {
        Lexeme::Name(_) => b'n',
        Lexeme::Keyword(_) => b'k',
        Lexeme::Int(_) => b'i',
        Lexeme::Bit(_) => b'b',
        Lexeme::Text(_) => b't',
        Lexeme::Symbol(_) => b's',
    }
}

/// The letters of the tokens of a text.
fn letters(alloc: Global, text: &[u8]) -> Result<Vec<u8>, LexError> {
    let mut letters = Vec::new(alloc);
    for token in &lex(alloc, text)?.tokens {
        match letters.push(letter(&token.lexeme)) {
            Ok(()) => {}
            Err(_) => return Err(LexError::Memory),
        }
    }
    Ok(letters)
}

#[test]
fn a_text_gives_its_tokens(rt: HostRuntime) -> Result<(), Fail> {
    let found = letters(rt.alloc(), b"for fork<-0xfF\t'1\"a~\" -- end\n >>>>")?;
    assert_eq!(rt; found.as_slice(), b"knsibtss".as_slice());
    Ok(())
}

#[test]
fn a_text_has_a_first_fault(rt: HostRuntime) -> Result<(), Fail> {
    let long = vec![in rt.alloc(); b'\n'; 65_537]?;
    let rows: [(&[u8], LexError); 4] = [
        (b"a ? #", LexError::BadByte(2)),
        (b"a \"b", LexError::BadByte(2)),
        (b"1 0xg", LexError::BadNumber(2)),
        (long.as_slice(), LexError::TooLong),
    ];
    for (text, want) in rows {
        assert_eq!(rt; lex(rt.alloc(), text).err(), Some(want));
    }
    Ok(())
}

#[test]
fn places_count_lines_and_bytes(rt: HostRuntime) -> Result<(), Fail> {
    let here = Place { line: 2, col: 2 };
    assert_eq!(rt; place_at(b"a\nb\n", 3), here);
    assert_eq!(rt; place_past(here, b"\nc"), Place { line: 3, col: 2 });
    Ok(())
}
