//! How a program begins: running the code of the initial values of its top variables does what declaring one variable after the other does.
#![tactic(auto)]

ghost use Rattle.zir_beginning.specs.Code.{CodeBegins};
ghost use Rattle.zir_beginning.specs.Laws.{InitialsBegin, NumbersAreOwn, TypedBegin};

/// Assigning all initial values to blank variables ends as declaring one variable after the other, where each value uses only what stands before it.
pub fn initials_begin()
    ensures { InitialsBegin }
{}

/// In the core of a typed program each initial value uses only what stands before it.
pub fn typed_begin()
    ensures { TypedBegin }
{}

/// Where names are resolved the top variables of a typed program have numbers of their own, which no function declares.
pub fn numbers_own()
    ensures { NumbersAreOwn }
{}

/// Over a new frame a run of the code of initial values ends as the program begins.
pub fn code_begins()
    ensures { CodeBegins }
{}
