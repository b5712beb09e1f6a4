// The passes over a text in their order: tokens, grammar, names, types, sharing and limits.

ghost use Rattle.std.specs.Prelude.{◌≡◌, IfOk};
ghost use Rattle.zir_types.specs.Limits.{limits as first_limit};
ghost use Rattle.zir_accept.specs.Accepting.{IsAcceptedAs, Tells, broken_limit, broken_rule, judged, name_refusal, named, type_refusal, typed};
ghost use Rattle.zir_accept.specs.Soundness.{KeepsRules};
ghost use Rattle.zir_accept.specs.Finding.{IsReason, Keeps, conflict_refusal, passed_refusal};

use crate::accepted_keep_rules;
use crate::variables::name_of_variable;
use std::alloc::{AllocError, Global};
use zir_limits_walks::{LimitError, limits};
use zir_names::{NameError, Named, resolve};
use zir_read::read_program;
use zir_sharing::{ShareError, sharing};
use zir_tree::program::{Core, Prog};
use zir_tree::refusal::{LimitKind, Refusal};
use zir_type_prog::type_prog;
use zir_types::error::TypeError;

/// A program that is accepted: with its names resolved, and typed.
#[derive(Debug, Drop)]
pub struct Accepted {
    pub program: Named,
    pub core: Core,
}

/// The typed program that a text is, or the first refusal: of its tokens and grammar, and then as `judge` says.
/// `Refusal::Memory` says only that memory ran out.
pub fn accept(alloc: Global, text: &[u8]) -> Result<Accepted, Refusal>
    ensures tells { IsAcceptedAs text.now result }
    ensures rules { IfOk result KeepsRules }
{
    match read_program(alloc, text) {
        Ok(program) => judge(alloc, &program),
        Err(why) => Err(why),
    }
}

/// The typed program of one that was read, or the first refusal: of its names, then of its types, of what the sides of its
/// compositions share, and of its limits. `Refusal::Memory` says only that memory ran out.
pub fn judge(alloc: Global, program: &Prog) -> Result<Accepted, Refusal>
    ensures tells { Tells (judged program.now) result }
    ensures rules { IfOk result KeepsRules }
{
    accepted_keep_rules();
    judge_read(alloc, program)
}

/// The typed program of one that was read.
fn judge_read(alloc: Global, program: &Prog) -> Result<Accepted, Refusal>
    ensures { Tells (judged program.now) result }
{
    match resolve(alloc, program) {
        Ok(program) => judge_named(alloc, program),
        Err(error) => Err(name_fault(error)),
    }
}

/// The typed program of one whose names are resolved.
fn judge_named(alloc: Global, program: Named) -> Result<Accepted, Refusal>
    ensures { Tells (named program) result }
{
    match type_prog(alloc, &program.program) {
        Ok(core) => judge_typed(alloc, program, core),
        Err(error) => Err(type_fault(error)),
    }
}

/// A typed program, where it keeps the rules.
fn judge_typed(alloc: Global, program: Named, core: Core) -> Result<Accepted, Refusal>
    ensures { Tells (typed program core) result }
{
    match keep_rules(alloc, &program, &core) {
        Ok(()) => Ok(Accepted { program, core }),
        Err(why) => {
            drop(program);
            drop(core);
            Err(why)
        }
    }
}

/// Whether a typed program keeps the rules of sharing and then the limits.
fn keep_rules(alloc: Global, program: &Named, core: &Core) -> Result<(), Refusal>
    ensures { Keeps (broken_rule program.now core.now) result }
{
    match sharing(alloc, program) {
        Ok(()) => keep_limits(alloc, &program.program, core),
        Err(error) => Err(share_fault(alloc, &program.program, error)),
    }
}

/// Whether a typed program keeps the limits.
fn keep_limits(alloc: Global, program: &Prog, core: &Core) -> Result<(), Refusal>
    ensures { Keeps (broken_limit (first_limit program.now core.now)) result }
{
    match limits(alloc, program, core) {
        Ok(()) => Ok(()),
        Err(error) => Err(limit_fault(error)),
    }
}

/// The refusal of names.
fn name_fault(error: NameError) -> Refusal
    ensures { result ≡ name_refusal error }
{
    match error {
        NameError::Unknown(at) => Refusal::Unknown(at),
        NameError::Twice(at) => Refusal::Twice(at),
        NameError::Recursive(at) => Refusal::Recursive(at),
        NameError::Memory => Refusal::Memory,
    }
}

/// The refusal of types.
fn type_fault(error: TypeError) -> Refusal
    ensures { result ≡ type_refusal error }
{
    match error {
        TypeError::Mismatch(at) => Refusal::Mismatch(at),
        TypeError::TwoComputers(at) => Refusal::TwoComputers(at),
        TypeError::NotUnit(at) => Refusal::NotUnit(at),
        TypeError::NotComputer(at) => Refusal::NotComputer(at),
        TypeError::NotStreamType(at) => Refusal::NotStreamType(at),
        TypeError::Instances(at) => Refusal::Limit(LimitKind::Instances, at),
        TypeError::Memory => Refusal::Memory,
    }
}

/// The refusal of what the sides of a composition share.
fn share_fault(alloc: Global, program: &Prog, error: ShareError) -> Refusal
    ensures { IsReason (conflict_refusal program.now error) result }
{
    match error {
        ShareError::Shared(x, at) => match name_of_variable(alloc, program, x) {
            Ok(name) => Refusal::Shared(name, at),
            Err(AllocError) => Refusal::Memory,
        },
        ShareError::SplitPlace(at) => Refusal::SplitPlace(at),
        ShareError::OuterAssign(x, at) => match name_of_variable(alloc, program, x) {
            Ok(name) => Refusal::OuterAssign(name, at),
            Err(AllocError) => Refusal::Memory,
        },
        ShareError::Memory => Refusal::Memory,
    }
}

/// The refusal of a limit.
fn limit_fault(error: LimitError) -> Refusal
    ensures { result ≡ passed_refusal error }
{
    match error {
        LimitError::Passed(kind, at) => Refusal::Limit(kind, at),
        LimitError::Memory => Refusal::Memory,
    }
}
