// Expressions and statements by their code.

ghost use Rattle.zir_eval.specs.Ends.{Evaluates, Executes};

use zir_compile::made::{Made, Written};
use zir_expr::frame::{Frame, Halt};
use zir_expr::steps::run;
use zir_tree::ends::Trap;

/// Why an evaluation stops before its end.
#[derive(Clone, Copy, Debug, PartialEq, Eq)]
pub enum Stop {
    /// By a trap, with its place.
    Trap(Trap),
    /// The budget of ticks is used up.
    Spent,
}

/// Evaluates an expression by its code, where the cells of the body that runs begin at a base, and answers the index of the
/// first cell of its value.
pub fn eval(made: &Made, frame: &mut Frame, base: usize) -> Result<usize, Stop>
    ensures { Evaluates made.now base frame.old result frame.new }
{
    match run(made.steps.as_slice(), frame, base) {
        Ok(()) => Ok(made.at.index(base)),
        Err(Halt::Trap) => Err(Stop::Trap(frame.trap())),
        Err(Halt::Spent) => Err(Stop::Spent),
    }
}

/// Executes statements by their code, where the cells of the body that runs begin at a base.
pub fn exec(written: &Written, frame: &mut Frame, base: usize) -> Result<(), Stop>
    ensures { Executes written.now base frame.old result frame.new }
{
    match run(written.steps.as_slice(), frame, base) {
        Ok(()) => Ok(()),
        Err(Halt::Trap) => Err(Stop::Trap(frame.trap())),
        Err(Halt::Spent) => Err(Stop::Spent),
    }
}
