//! Tokens: the words, numbers and signs that a program's text is made of.
#![tactic(auto)]

mod classes;
mod front;
pub mod lexer;
mod numbers;
pub mod places;
mod signs;
#[cfg(test)]
mod tests;
pub mod token;
mod words;
