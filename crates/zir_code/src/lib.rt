//! Expressions, statements and functions as steps over cells: the code of each as a definition, and the laws that it does what they mean.
#![tactic(auto)]

pub mod scope;

ghost use Rattle.zir_code.specs.Laws.{ExpressionsAgree, StatementsAgree, StatementsSpare, FunctionsAgree, TypesAreFound};

/// The code of an expression does what the expression means: the steps end with its value in the cells where it stands, by the same
/// trap, or with the budget spent, and leave all cells before the free ones as they were.
pub fn expressions_agree()
    ensures { ExpressionsAgree }
{}

/// The code of statements does what they mean: the steps end with the cells of every variable in scope holding its value, by the same
/// trap, or with the budget spent.
pub fn statements_agree()
    ensures { StatementsAgree }
{}

/// The code of statements that come to their end leaves the cells that belong to no variable in scope as they were.
pub fn statements_spare()
    ensures { StatementsSpare }
{}

/// The code of each function of a program does what the function means in it.
pub fn functions_agree()
    ensures { FunctionsAgree }
{}

/// The type that code finds for an expression is its own.
pub fn types_are_found()
    ensures { TypesAreFound }
{}
