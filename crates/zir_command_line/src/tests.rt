use super::*;
use std::alloc::Global;
use std::test::Fail;

fn words_of(alloc: Global, line: &str) -> Result<Vec<String>, Fail> {
    let mut words = Vec::new(alloc);
    for word in line.split(' ') {
        words.push(String::from_str(alloc, word)?)?;
    }
    Ok(words)
}

#[test]
fn each_form_is_read(rt: HostRuntime) -> Result<(), Fail> {
    let plain = RunJob {
        ticks: 1_000_000_000_000,
        workers: 1,
        auto: false,
        format: Format::Binary,
        program: "p",
    };
    let full = RunJob {
        ticks: 7,
        workers: 16,
        auto: true,
        format: Format::Text,
        program: "-p",
    };
    let cases = [
        ("run p", Ok(Job::Run(plain))),
        (
            "run --split auto --text --workers 16 --ticks 7 -- -p",
            Ok(Job::Run(full)),
        ),
        ("check p", Ok(Job::Check("p"))),
        ("show -- p", Ok(Job::Show("p"))),
        ("--help", Ok(Job::Help)),
        ("--version", Ok(Job::Version)),
        ("run --ticks --text p", Err(WordsError { word: 2 })),
        (
            "run p --text",
            Ok(Job::Run(RunJob {
                format: Format::Text,
                ..plain
            })),
        ),
        ("run --ticks", Err(WordsError { word: 2 })),
    ];
    for (line, want) in cases {
        let words = words_of(rt.alloc(), line)?;
        assert_eq!(rt; read_words(words.as_slice()), want, "{line}");
    }
    Ok(())
}

#[test]
fn the_help_fits_a_screen(rt: HostRuntime) {
    for line in HELP.split('\n') {
        assert!(rt; line.len() <= 80, "{line}");
    }
}
