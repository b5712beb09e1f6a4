// The text so far, which grows by tokens with a space before each.

ghost use Rattle.std.specs.Prelude.{◌≡◌, ◌++◌, ◌∷◌, [], OnOk};
ghost use Rattle.zir_lex.specs.Tables.{keyword_bytes};
ghost use Rattle.zir_grammar.specs.Grammar.{bit as bit_token, int as int_token, main_bytes, name as name_token, text as text_token};
ghost use Rattle.zir_print.specs.Marks.{link_word, mark, nowhere};
ghost use Rattle.zir_show.specs.Growth.{Adds, sign_before};

use crate::spelling::{keyword_spelling, symbol_spelling};
use itoa::Buffer;
use std::alloc::{AllocError, Global};
use std::marker::Model;
use zir_lex::token::{Keyword, Symbol};
use zir_tree::name::Name;

/// A text that grows, which contracts see as its bytes.
#[derive(Drop)]
pub struct Text {
    bytes: Vec<u8>,
}

impl Model for Text {
    ghost use Rattle.std.specs.Prelude.{List, ℕ};

    ghost Value = { List ℕ };

    ghost view = { λ text. text.bytes.items };
}

impl Text {
    /// No text yet.
    pub fn new(alloc: Global) -> Text
        ensures { result ≡ [] }
    {
        Text {
            bytes: Vec::new(alloc),
        }
    }

    /// The bytes.
    pub fn into_bytes(self) -> Vec<u8>
        ensures { result.items ≡ self }
    {
        self.bytes
    }

    /// The keyword that a line begins with.
    pub fn begin_line(&mut self, keyword: Keyword) -> Result<(), AllocError>
        ensures { OnOk result (self.new ≡ self.old ++ keyword_bytes keyword) }
    {
        self.bytes
            .extend_from_slice(keyword_spelling(keyword).as_bytes())
    }

    /// The newline that ends a line.
    pub fn end_line(&mut self) -> Result<(), AllocError>
        ensures { OnOk result (self.new ≡ self.old ++ 10 ∷ []) }
    {
        self.bytes.push(b'\n')?;
        Ok(())
    }

    /// A keyword.
    pub fn keyword(&mut self, keyword: Keyword) -> Result<(), AllocError>
        ensures { OnOk result (Adds self.old self.new (link_word keyword ∷ [])) }
    {
        self.word(keyword_spelling(keyword).as_bytes())
    }

    /// A sign.
    pub fn symbol(&mut self, symbol: Symbol) -> Result<(), AllocError>
        ensures { OnOk result (Adds self.old self.new (mark symbol ∷ [])) }
    {
        self.word(symbol_spelling(symbol).as_bytes())
    }

    /// A name.
    pub fn name(&mut self, name: &Name) -> Result<(), AllocError>
        ensures { OnOk result (Adds self.old self.new (name_token name.now nowhere ∷ [])) }
    {
        self.word(name.as_slice())
    }

    /// The name `main`.
    pub fn main_name(&mut self) -> Result<(), AllocError>
        ensures { OnOk result (Adds self.old self.new (name_token main_bytes nowhere ∷ [])) }
    {
        self.word(b"main")
    }

    /// A whole number.
    pub fn number(&mut self, number: u128) -> Result<(), AllocError>
        ensures { OnOk result (Adds self.old self.new (int_token number nowhere ∷ [])) }
    {
        let mut digits = Buffer::new();
        self.word(digits.format(number).as_bytes())
    }

    /// `'0` or `'1`.
    pub fn bit(&mut self, bit: bool) -> Result<(), AllocError>
        ensures { OnOk result (Adds self.old self.new (bit_token bit nowhere ∷ [])) }
    {
        if bit {
            self.word(b"'1")
        } else {
            self.word(b"'0")
        }
    }

    /// A text between quotes.
    pub fn quoted(&mut self, quoted: &Name) -> Result<(), AllocError>
        ensures { OnOk result (Adds self.old self.new (text_token quoted.now nowhere ∷ [])) }
    {
        self.word(b"\"")?;
        self.bytes.extend_from_slice(quoted.as_slice())?;
        self.bytes.push(b'"')?;
        Ok(())
    }

    /// A sign before each part but the first, which has the index 0.
    pub fn before_part(&mut self, index: usize, between: Symbol) -> Result<(), AllocError>
        ensures { OnOk result (Adds self.old self.new (sign_before index (mark between))) }
    {
        if index == 0 {
            Ok(())
        } else {
            self.symbol(between)
        }
    }

    /// A space and these bytes.
    fn word(&mut self, bytes: &[u8]) -> Result<(), AllocError>
        ensures { OnOk result (self.new ≡ self.old ++ 32 ∷ bytes.now) }
    {
        self.bytes.push(b' ')?;
        self.bytes.extend_from_slice(bytes)
    }
}
