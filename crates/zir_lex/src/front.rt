// The piece at the front of a text: white space, a comment or a lexeme.

ghost use Rattle.std.specs.Prelude.{◌≡◌, ◌<◌, length};
ghost use Rattle.zir_lex.specs.Fronts.{Reads};
ghost use Rattle.zir_lex.specs.declared.front.FrontError.TheVariants.{Memory};

use crate::classes::{is_letter, is_white};
use crate::numbers::read_number;
use crate::signs::{read_bit, read_sign, read_string};
use crate::token::Lexeme;
use crate::words::read_word;
use std::alloc::{AllocError, Global};

/// A piece, with the number of its bytes. White space and comments have no lexeme.
#[derive(Drop)]
pub struct Front {
    pub lexeme: Option<Lexeme>,
    pub len: usize,
}

/// Why no piece could be read.
#[derive(Drop)]
pub enum FrontError {
    BadByte,
    BadNumber,
    Memory,
}

impl From<AllocError> for FrontError {
    ghost from_gives = { λ _ e. e ≡ Memory };

    fn from(_e: AllocError) -> FrontError {
        FrontError::Memory
    }
}

/// The piece at the front of a text.
pub fn read_front(alloc: Global, text: &[u8]) -> Result<Front, FrontError>
    requires { 0 < length text.now }
    ensures { Reads result text.now }
{
    let first = text[0];
    if is_white(first) {
        return Ok(Front {
            lexeme: None,
            len: 1,
        });
    }
    if is_letter(first) {
        return read_word(alloc, text);
    }
    if first.is_ascii_digit() {
        return read_number(text);
    }
    match first {
        b'\'' => read_bit(text),
        b'"' => read_string(alloc, text),
        _ => read_sign(text),
    }
}
