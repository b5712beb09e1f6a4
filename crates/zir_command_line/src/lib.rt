//! The words of a command line, and the job that they ask for.
#![tactic(auto)]

ghost use Rattle.std.specs.Prelude.{ℕ, ◌≡◌, ◌≢◌, ◌+◌, ◌<◌, ◌^◌, List, [], length, ◌∷◌, IfOk, IfErr, Some, codes, map, string_bytes};
ghost use Rattle.zir_command_line.specs.Words.{Ask, AskOnce, IsLine, asked_of, asked_run};
ghost use Rattle.zir_command_line.specs.Faults.{AreBad, FirstFault, HasOneAnswer};
ghost use Rattle.zir_command_line.specs.Walk.{Stops, TakesName, run_of, start, state_of, walk};

mod help;
mod reading;

pub use help::{HELP, VERSION};
use reading::Line;
use zir_tree::format::Format;

/// The most ticks that a run may be given, 2^48.
pub const MAX_TICKS: u64 = 281_474_976_710_656;

/// The ticks of a run without `--ticks`.
pub const DEFAULT_TICKS: u64 = 1_000_000_000_000;

/// The most workers that a run may be given.
pub const MAX_WORKERS: u32 = 16;

/// The workers of a run without `--workers`.
pub const DEFAULT_WORKERS: u32 = 1;

/// What `run` asks for.
#[derive(Clone, Copy, Debug, PartialEq, Eq)]
pub struct RunJob<'a> {
    /// The ticks that the run may use, from 1 to `MAX_TICKS`.
    pub ticks: u64,
    /// The threads that work at once, from 1 to `MAX_WORKERS`.
    pub workers: u32,
    /// Whether pipelines are split into stages where no `|>>>|` says so.
    pub auto: bool,
    /// The format of the input and of the output.
    pub format: Format,
    /// The name of the program's text.
    pub program: &'a str,
}

/// What a command line asks for. A name is that of a program's text.
#[derive(Clone, Copy, Debug, PartialEq, Eq)]
pub enum Job<'a> {
    /// The run of a program.
    Run(RunJob<'a>),
    /// The report on a program.
    Check(&'a str),
    /// The canonical text of a program.
    Show(&'a str),
    /// The text of `HELP`.
    Help,
    /// The line of `VERSION`.
    Version,
}

/// The first word with which no command line goes on.
#[derive(Clone, Copy, Debug, Drop, PartialEq, Eq)]
pub struct WordsError {
    /// Its index, from 0; the number of the words where one is missing behind the last.
    pub word: usize,
}

/// Reads the words of a command line, those behind the program's own name.
pub fn read_words(words: &[String]) -> Result<Job<'_>, WordsError>
    ensures ok { IfOk result (λ job. Ask (map string_bytes words.now) (asked_of job)) }
    ensures err { IfErr result (λ e. FirstFault (map string_bytes words.now) e.word) }
    ensures bad { IfErr result (λ e. AreBad (map string_bytes words.now)) }
{
    let [command, behind @ ..] = words else {
        return Err(WordsError { word: 0 });
    };
    match command.as_str() {
        "run" => read_run(behind),
        "check" => Ok(Job::Check(read_name(behind)?)),
        "show" => Ok(Job::Show(read_name(behind)?)),
        "--help" => read_alone(behind, Job::Help),
        "--version" => read_alone(behind, Job::Version),
        _ => Err(WordsError { word: 0 }),
    }
}

/// Reads the words behind `run`.
fn read_run(behind: &[String]) -> Result<Job<'_>, WordsError>
    ensures ok { IfOk result (λ job. Ask (codes "run" ∷ map string_bytes behind.now) (asked_of job)) }
    ensures err { IfErr result (λ e. FirstFault (codes "run" ∷ map string_bytes behind.now) e.word) }
{
    let line = read_line(Line::start(true), 1, behind)?;
    let program = line.end().ok_or(WordsError {
        word: behind.len() + 1,
    })?;
    Ok(Job::Run(run_job(line, program)))
}

/// The run that a line asks for.
fn run_job<'a>(line: Line<'a>, program: &'a str) -> RunJob<'a>
    ensures { asked_run result ≡ run_of (state_of line.entry) program.now }
{
    let format = if line.text {
        Format::Text
    } else {
        Format::Binary
    };
    RunJob {
        ticks: line.ticks.unwrap_or(DEFAULT_TICKS),
        workers: line.workers.unwrap_or(DEFAULT_WORKERS),
        auto: line.auto,
        format,
        program,
    }
}

/// Reads the words behind a command that takes the name of a program and no options.
fn read_name(behind: &[String]) -> Result<&str, WordsError>
    ensures ok { IfOk result (λ name. IsLine (map string_bytes behind.now) [] (name.now ∷ [])) }
    ensures err { IfErr result (λ e. (command : List ℕ) → TakesName command
        → FirstFault (command ∷ map string_bytes behind.now) e.word) }
{
    let line = read_line(Line::start(false), 1, behind)?;
    line.end().ok_or(WordsError {
        word: behind.len() + 1,
    })
}

/// Reads that no words are behind a command.
fn read_alone<'a>(behind: &'a [String], job: Job<'a>) -> Result<Job<'a>, WordsError>
    ensures ok { IfOk result (λ read. (read ≡ job.entry) × (behind.now ≡ [])) }
    ensures err { IfErr result (λ e. (e.word ≡ 1) × (behind.now ≢ [])) }
{
    if behind.is_empty() {
        Ok(job)
    } else {
        Err(WordsError { word: 1 })
    }
}

/// Reads the words behind a command, from the one of this index on. It calls itself for the next word, and so a few times at
/// most: no line goes on behind its options and its name.
fn read_line<'a>(line: Line<'a>, index: usize, words: &'a [String]) -> Result<Line<'a>, WordsError>
    requires { index + length words.now < 2 ^ 64 }
    ensures ok { IfOk result (λ read. walk (state_of line.entry) (map string_bytes words.now) ≡ Some (state_of read)) }
    ensures err { IfErr result (λ e. Stops (state_of line.entry) (map string_bytes words.now) index e.word) }
{
    let [word, rest @ ..] = words else {
        return Ok(line);
    };
    match line.read(word.as_str()) {
        Some(further) => read_line(further, index + 1, rest),
        None => Err(WordsError { word: index }),
    }
}

/// The words of a command line ask for one thing at most.
pub fn ask_once()
    ensures { AskOnce }
{}

/// There is one answer to words: the one thing that they ask for, or the place of their first fault.
pub fn one_answer()
    ensures { HasOneAnswer }
{}

#[cfg(test)]
mod tests;
