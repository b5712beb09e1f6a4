// What holds of the canonical tokens.

ghost use Rattle.zir_print.specs.Laws.{ReadsBack};

/// The canonical tokens of a program are the program again, and its height with them is no greater than with any other tokens.
pub fn reads_back()
    ensures { ReadsBack }
{}
