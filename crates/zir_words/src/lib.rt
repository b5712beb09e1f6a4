//! The words of a command line, and what they ask for.
#![tactic(auto)]

ghost use Rattle.std.specs.Prelude.{◌≡◌, ℕ, [], ◌∷◌, ◌↔◌, IfNone, IfSome, IsTrue, decimal, map, string_bytes};
ghost use Rattle.zir_words.specs.Words.{AreBad, Ask, AskOnce, IsBudget, IsProgramName, IsRun, asked_of, name_of};

/// The most ticks that a run may be given, 2^48.
pub const MAX_TICKS: u64 = 281_474_976_710_656;

/// What `run --ticks N NAME` asks for.
#[derive(Clone, Copy, Debug, PartialEq, Eq)]
pub struct RunWords<'a> {
    /// The ticks that the run may use, from 1 to `MAX_TICKS`.
    pub ticks: u64,
    /// The name of the program's text.
    pub name: &'a str,
}

/// What the words of a command line ask for.
#[derive(Clone, Copy, Debug, PartialEq, Eq)]
pub enum Job<'a> {
    /// The run of a program.
    Run(RunWords<'a>),
    /// `check NAME`: what the program in the text of this name reads, writes and is.
    Check(&'a str),
    /// `show NAME`: the canonical text of the program in the text of this name.
    Show(&'a str),
}

impl<'a> Job<'a> {
    /// The name of the program's text.
    pub fn name(self) -> &'a str
        ensures { result.now ≡ name_of (asked_of self.entry) }
    {
        match self {
            Job::Run(run) => run.name,
            Job::Check(name) | Job::Show(name) => name,
        }
    }
}

/// Reads the words of a command line, and answers None where they are of no form: `run --ticks N NAME`, `check NAME` and
/// `show NAME`.
pub fn read_words(words: &[String]) -> Option<Job<'_>>
    ensures some { IfSome result (λ job. Ask (map string_bytes words.now) (asked_of job)) }
    ensures none { IfNone result (AreBad (map string_bytes words.now)) }
{
    match words {
        [command, name] => read_named(command.as_str(), name.as_str()),
        [command, option, number, name] => {
            let run = read_run(
                command.as_str(),
                option.as_str(),
                number.as_str(),
                name.as_str(),
            )?;
            Some(Job::Run(run))
        }
        _ => None,
    }
}

/// Reads the words `check NAME` and `show NAME`.
fn read_named<'a>(command: &'a str, name: &'a str) -> Option<Job<'a>>
    ensures some { IfSome result (λ job. Ask (command.now ∷ name.now ∷ []) (asked_of job)) }
    ensures none { IfNone result (AreBad (command.now ∷ name.now ∷ [])) }
{
    if !is_program_name(name) {
        return None;
    }
    if command == "check" {
        return Some(Job::Check(name));
    }
    if command == "show" {
        return Some(Job::Show(name));
    }
    None
}

/// Reads the words `run --ticks N NAME`.
fn read_run<'a>(
    command: &'a str,
    option: &'a str,
    number: &'a str,
    name: &'a str,
) -> Option<RunWords<'a>>
    ensures some { IfSome result (λ w. IsRun (command.now ∷ option.now ∷ number.now ∷ name.now ∷ []) w.ticks w.name.now) }
    ensures none { IfNone result (AreBad (command.now ∷ option.now ∷ number.now ∷ name.now ∷ [])) }
{
    if command != "run" || option != "--ticks" || !is_program_name(name) {
        return None;
    }
    let ticks = read_ticks(number)?;
    Some(RunWords { ticks, name })
}

fn is_program_name(name: &str) -> bool
    ensures { IsTrue result ↔ IsProgramName name.now }
{
    !name.is_empty() && !name.starts_with('-')
}

fn read_ticks(number: &str) -> Option<u64>
    ensures some { IfSome result (λ n. IsBudget n × (number.now ≡ decimal n)) }
    ensures none { IfNone result ((n : ℕ) → IsBudget n → number.now ≡ decimal n → ⊥) }
{
    let [first, ..] = number.as_bytes() else {
        return None;
    };
    // `parse` takes a plus sign and leading zeros.
    let is_sign_or_zero = *first < b'1';
    if is_sign_or_zero {
        return None;
    }
    let ticks = number.parse::<u64>().ok()?;
    if ticks <= MAX_TICKS {
        Some(ticks)
    } else {
        None
    }
}

/// The words of a command line ask for one thing at most.
pub fn ask_once()
    ensures { AskOnce }
{}

#[cfg(test)]
mod tests {
    use super::*;
    use std::alloc::{AllocError, Global};

    fn words_of(alloc: Global, line: &str) -> Result<Vec<String>, AllocError> {
        let mut words = Vec::new(alloc);
        for word in line.split(' ') {
            words.push(String::from_str(alloc, word)?)?;
        }
        Ok(words)
    }

    #[test]
    fn each_form_is_read(rt: HostRuntime) -> Result<(), AllocError> {
        let cases = [
            (
                "run --ticks 281474976710656 p",
                Some(Job::Run(RunWords {
                    ticks: 281_474_976_710_656,
                    name: "p",
                })),
            ),
            ("run --ticks 1", None),
            ("check p", Some(Job::Check("p"))),
            ("show p", Some(Job::Show("p"))),
        ];
        for (line, want) in cases {
            let words = words_of(rt.alloc(), line)?;
            assert_eq!(rt; read_words(words.as_slice()), want);
        }
        Ok(())
    }
}
