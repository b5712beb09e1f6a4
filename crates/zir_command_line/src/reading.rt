// The words behind a command, read one after the other.

ghost use Rattle.std.specs.Prelude.{ℕ, ◌≡◌, ◌+◌, ◌≤◌, ◌<◌, ◌^◌, IfOk, IfErr, IfSome, IfNone, None, Some, length, option_map};
ghost use Rattle.zir_command_line.specs.Walk.{State, after_kind, after_name, after_option, after_split, after_ticks, after_workers, finish, kind_of as kind_of_word, number_of, start as start_of, state_of, step};

use crate::{MAX_TICKS, MAX_WORKERS, WordsError};

/// What the next word has to be.
#[derive(Clone, Copy)]
pub enum Next {
    Any,
    Ticks,
    Workers,
    Split,
    Name,
}

/// What a word is where it may be any.
#[derive(Clone, Copy)]
pub enum Kind {
    Ticks,
    Workers,
    Split,
    Text,
    Separator,
    Name,
    Bad,
}

/// What the words behind a command have given so far.
#[derive(Clone, Copy)]
pub struct Line<'a> {
    pub ticks: Option<u64>,
    pub workers: Option<u32>,
    pub auto: bool,
    pub text: bool,
    pub program: Option<&'a str>,
    /// Whether the command takes options.
    pub takes_options: bool,
    pub next: Next,
}

impl<'a> Line<'a> {
    /// Where no word was read.
    pub fn start(takes_options: bool) -> Self
        ensures { state_of result ≡ start_of takes_options }
    {
        Line {
            ticks: None,
            workers: None,
            auto: false,
            text: false,
            program: None,
            takes_options,
            next: Next::Any,
        }
    }

    /// Reads one more word, and answers None where no line goes on with it.
    #[tactic(auto, unfolding(crate::specs::Walk::step))]
    pub fn read(self, word: &'a str) -> Option<Self>
        ensures { option_map state_of result ≡ step (state_of self.entry) word.now }
    {
        match self.next {
            Next::Any => self.read_kind(kind_of(word), word),
            Next::Ticks => self.read_ticks(word),
            Next::Workers => self.read_workers(word),
            Next::Split => self.read_split(word),
            Next::Name => self.read_name(word),
        }
    }

    /// The name of the program, where the line may end here.
    pub fn end(self) -> Option<&'a str>
        ensures { option_map (λ name. name.now) result ≡ finish (state_of self.entry) }
    {
        match self.next {
            Next::Any | Next::Name => self.program,
            _ => None,
        }
    }

    fn read_kind(self, kind: Kind, word: &'a str) -> Option<Self>
        ensures { option_map state_of result ≡ after_kind kind (state_of self.entry) word.now }
    {
        match kind {
            Kind::Name => self.read_name(word),
            Kind::Separator => Some(Line {
                next: Next::Name,
                ..self
            }),
            Kind::Bad => None,
            _ => self.read_option(kind),
        }
    }

    fn read_option(self, option: Kind) -> Option<Self>
        ensures { option_map state_of result ≡ after_option option (state_of self.entry) }
    {
        if !self.takes_options {
            return None;
        }
        match option {
            Kind::Ticks if self.ticks.is_none() => Some(Line {
                next: Next::Ticks,
                ..self
            }),
            Kind::Workers if self.workers.is_none() => Some(Line {
                next: Next::Workers,
                ..self
            }),
            Kind::Split if !self.auto => Some(Line {
                next: Next::Split,
                ..self
            }),
            Kind::Text if !self.text => Some(Line { text: true, ..self }),
            _ => None,
        }
    }

    fn read_ticks(self, word: &'a str) -> Option<Self>
        ensures { option_map state_of result ≡ after_ticks (state_of self.entry) (number_of (2 ^ 48) word.now) }
    {
        let ticks = read_number(word, MAX_TICKS)?;
        Some(Line {
            ticks: Some(ticks),
            next: Next::Any,
            ..self
        })
    }

    fn read_workers(self, word: &'a str) -> Option<Self>
        ensures { option_map state_of result ≡ after_workers (state_of self.entry) (number_of 16 word.now) }
    {
        let workers = read_number(word, u64::from(MAX_WORKERS))?;
        Some(Line {
            workers: Some(workers as u32),
            next: Next::Any,
            ..self
        })
    }

    fn read_split(self, word: &'a str) -> Option<Self>
        ensures { option_map state_of result ≡ after_split (state_of self.entry) word.now }
    {
        if word == "auto" {
            Some(Line {
                auto: true,
                next: Next::Any,
                ..self
            })
        } else {
            None
        }
    }

    fn read_name(self, word: &'a str) -> Option<Self>
        ensures { option_map state_of result ≡ after_name (state_of self.entry) word.now }
    {
        if word.is_empty() || self.program.is_some() {
            return None;
        }
        Some(Line {
            program: Some(word),
            ..self
        })
    }
}

/// What a word is where it may be any.
fn kind_of(word: &str) -> Kind
    ensures { result ≡ kind_of_word word.now }
{
    let [first, ..] = word.as_bytes() else {
        return Kind::Bad;
    };
    if *first != b'-' {
        return Kind::Name;
    }
    match word {
        "--ticks" => Kind::Ticks,
        "--workers" => Kind::Workers,
        "--split" => Kind::Split,
        "--text" => Kind::Text,
        "--" => Kind::Separator,
        _ => Kind::Bad,
    }
}

/// Reads a number from 1 to `most`, in decimal without leading zeros.
fn read_number(word: &str, most: u64) -> Option<u64>
    ensures value { result ≡ number_of most word.now }
    ensures high { IfSome result (λ n. n ≤ most) }
{
    let [first, ..] = word.as_bytes() else {
        return None;
    };
    // `parse` takes a plus sign and leading zeros.
    let is_sign_or_zero = *first < b'1';
    if is_sign_or_zero {
        return None;
    }
    let number = word.parse::<u64>().ok()?;
    if number <= most { Some(number) } else { None }
}
