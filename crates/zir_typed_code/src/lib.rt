//! What typing accepts is what the laws of code ask for: typed expressions, statements, bodies and functions are well typed for code,
//! wherever code has in scope what they see.
#![tactic(auto)]

ghost use Rattle.zir_typed_code.specs.Laws.{BodiesFit, ComponentsAreKnown, ExpressionsFit, ListsFit, LocalsComeIn, ParametersAreKnown};
ghost use Rattle.zir_typed_code.specs.Laws.{ParametersComeIn, ScopesGoOn, StatementsFit, ValuesAreKnown};
ghost use Rattle.zir_typed_code.specs.Programs.{FoundAreSigned, FunctionsFit, InitialsFit, SignaturesAreFound, TopIsSame, TypedFunctionsMean, TypesAreKnown};
ghost use Rattle.zir_typed_code.specs.Walked.{TypedAreWellFormed};

/// A typed expression has its type in code too.
pub fn expressions_fit()
    ensures { ExpressionsFit }
{}

/// Typed expressions in a list have their types in code too.
pub fn lists_fit()
    ensures { ListsFit }
{}

/// A typed expression has as many cells as its type, which names structs that are there.
pub fn values_are_known()
    ensures { ValuesAreKnown }
{}

/// A variable comes into scope on both sides.
pub fn locals_come_in()
    ensures { LocalsComeIn }
{}

/// Parameters come into scope on both sides.
pub fn parameters_come_in()
    ensures { ParametersComeIn }
{}

/// The parameters of a well formed function or instance are of known types.
pub fn parameters_are_known()
    ensures { ParametersAreKnown }
{}

/// What a typed component emits, and its value, are of known types.
pub fn components_are_known()
    ensures { ComponentsAreKnown }
{}

/// Typed statements are what code asks for.
pub fn statements_fit()
    ensures { StatementsFit }
{}

/// Behind typed statements both sides have the same in scope.
pub fn scopes_go_on()
    ensures { ScopesGoOn }
{}

/// Typed bodies are what code asks for.
pub fn bodies_fit()
    ensures { BodiesFit }
{}

/// Where each function of a program is found, each has a signature.
pub fn found_are_signed()
    ensures { FoundAreSigned }
{}

/// At the top of a program both sides have the same in scope.
pub fn top_is_same()
    ensures { TopIsSame }
{}

/// The functions of a typed program are what code asks for.
pub fn functions_fit()
    ensures { FunctionsFit }
{}

/// The functions of a typed program do what they mean.
pub fn typed_functions_mean()
    ensures { TypedFunctionsMean }
{}

/// Each function of a program is found at its place.
pub fn signatures_are_found()
    ensures { SignaturesAreFound }
{}

/// The initial values of top variables are what code asks for.
pub fn initials_fit()
    ensures { InitialsFit }
{}

/// The types of a well formed program are known.
pub fn types_are_known()
    ensures { TypesAreKnown }
{}

/// The core that typing makes of a program whose names are resolved is well formed.
pub fn typed_are_well_formed()
    ensures { TypedAreWellFormed }
{}
