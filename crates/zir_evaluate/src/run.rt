// The run of a program that is opened.

use crate::open::Opened;
use zir_eval::evaluation::{Stop, eval, exec};
use zir_expr::frame::Frame;

/// Sets the top variables, and then evaluates the body after a tick. The answer is the index of the first cell of its value.
pub fn run(opened: &Opened, frame: &mut Frame, base: usize) -> Result<usize, Stop> {
    exec(&opened.initial, frame, base)?;
    let Ok(()) = frame.tick() else {
        return Err(Stop::Spent);
    };
    exec(&opened.body, frame, base)?;
    match &opened.value {
        None => Ok(base),
        Some(made) => eval(made, frame, base),
    }
}
