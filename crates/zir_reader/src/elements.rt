// Elements that are taken, one after the other.

ghost use Rattle.std.specs.Prelude.{ℕ, ◌≡◌, ◌≤◌, Option, length};
ghost use Rattle.zir_outside.specs.Causes.{Rose};
ghost use Rattle.zir_reader.specs.Inputs.{Gets, Input};

/// What a source of elements answers.
#[derive(Clone, Copy, Debug, PartialEq, Eq)]
pub enum Next {
    /// An element.
    Element,
    /// The end of the input.
    End,
    /// Malformed input, behind the byte at this place.
    Malformed(u64),
    /// A read failed.
    Failed,
}

/// Elements that are taken from front to back, each by its cells.
pub trait ElementSource {
    // How many cells an element has.
    ghost size: { Self → ℕ };

    // The elements still to come and what follows them, where it tells them.
    ghost left: { Self → Option Input };

    // How often it failed. This never falls.
    ghost faults: { Self → ℕ };

    // It holds the same references as before, so that their lender learns what it ends as.
    ghost keeps: { Self → Self → Type 0 };

    ghost keeps_same: { (x : Self) → keeps x x };

    ghost keeps_on: { (x y z : Self) → keeps x y → keeps y z → keeps x z };

    /// Puts the cells of the next element into `into`, if there is one. After `Failed` no other call comes.
    fn next(&mut self, into: &mut [i64]) -> Next
        requires { length into.old ≡ size self.old }
        ensures gets { Gets (left self.old) (left self.new) into.new result }
        ensures size { size self.new ≡ size self.old }
        ensures keeps { keeps self.old self.new }
        ensures later { faults self.old ≤ faults self.new }
        ensures cause { result ≡ Next.Failed → Rose (faults self.old) (faults self.new) };
}
