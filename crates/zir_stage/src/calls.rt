// The calls of instances that a thread is in.

ghost use Rattle.std.specs.Prelude.{◌≡◌, ◌<◌, ◌≤◌, ◌∷◌, [], length, IfOk};
ghost use Rattle.zir_stage.specs.Popped.{IsPopped};

use std::alloc::{AllocError, Global};
use std::marker::Model;
use zir_flow::instruction::Caller;

/// The most calls that a thread can be in.
pub const CALLS: usize = 256;

/// Where the calls that a thread is in go on, the innermost first. It takes the memory for all of them when it is opened.
#[derive(Drop)]
pub struct Calls {
    callers: Vec<Caller>,
}

impl Model for Calls {
    ghost use Rattle.std.specs.Prelude.{List, ◌≤◌, reverse, vec_capacity};
    ghost use Rattle.zir_flow.specs.declared.instruction.Caller.{Caller};

    ghost Value = { List Caller };

    ghost view = { λ calls. reverse calls.callers.items };

    ghost invariant = { λ calls. 256 ≤ vec_capacity calls.callers };
}

impl Calls {
    /// No call, and the memory for 256.
    pub fn open(alloc: Global) -> Result<Calls, AllocError>
        ensures { IfOk result (λ calls. calls ≡ []) }
    {
        Ok(Calls {
            callers: Vec::with_capacity(alloc, CALLS)?,
        })
    }

    /// How many they are.
    pub fn depth(&self) -> usize
        ensures { result ≡ length self.now }
    {
        self.callers.len()
    }

    /// One more call.
    pub fn push(&mut self, caller: Caller)
        requires { length self.old < 256 }
        ensures { self.new ≡ caller ∷ self.old }
    {
        self.callers.push(caller).unwrap();
    }

    /// The innermost call, which is left.
    pub fn pop(&mut self) -> Option<Caller>
        ensures { IsPopped result self.old self.new }
    {
        self.callers.pop()
    }

    /// No call is left.
    pub fn clear(&mut self)
        ensures { self.new ≡ [] }
    {
        self.callers.clear();
    }
}
