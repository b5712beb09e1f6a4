// The texts of `--help` and `--version`.

/// What `--help` writes: every command, option, default and status, on one screen of 80 columns.
pub const HELP: &str = "\
ziria compiles a Ziria program and runs it over a stream of samples.

Usage:
  ziria run [OPTION..] PROGRAM   run it, from standard input to standard output
  ziria check PROGRAM            report its types, its rate and its stages
  ziria show PROGRAM             write its canonical text
  ziria --help | --version       write this text, or the version

PROGRAM is a file. Options of run, in any order, each at most once:
  --ticks N      the budget, 1 to 281474976710656; by default 1000000000000
  --workers K    threads, 1 to 16; by default 1
  --split auto   split pipelines at >>> too; by default at |>>>| alone
  --text         samples are decimal text; by default packed, little-endian
  --             every word behind it is a name

Notes go to standard error. Exit status:
  0  the run ended with a value or with its input; or the text is written
  1  the command line is faulty       6  the input is malformed
  2  the program is refused           7  a read failed
  3  the program was not loaded       8  a write failed
  4  the run trapped                  9  there is not enough memory
  5  the budget is spent
";

/// What `--version` writes.
pub const VERSION: &str = "ziria 0.1.0\n";
