//! From a text to the program that it is, or to why it is none and where.
#![tactic(auto)]

ghost use Rattle.zir_read.specs.Reading.{HasOneVerdict};

use zir_grammar::laws::one_answer;
use zir_lex::lexer::one_reading;

mod read;

pub use read::read_program;

/// A text is one program at most, and is refused for one reason at one place.
pub fn one_verdict()
    ensures { HasOneVerdict }
{
    one_reading();
    one_answer();
}

#[cfg(test)]
mod tests;
