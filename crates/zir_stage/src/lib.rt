//! Runs the flat code of components: a stage goes on until its next event, and takes no memory after it was opened.
#![tactic(auto)]

pub mod calls;
pub mod event;
pub mod layout;
pub mod source;
pub mod stage;
#[cfg(test)]
mod tests;
pub mod thread;
