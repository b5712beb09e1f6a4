// Elements in memory.

ghost use Rattle.std.specs.Prelude.{◌≡◌, ◌≤◌, ◌/◌, ⊤, Some, true, length, vec_len};
ghost use Rattle.zir_outside.specs.Causes.{Rose};
ghost use Rattle.zir_meaning.specs.Items.{pieces};
ghost use Rattle.zir_reader.specs.Inputs.{Gets};

use crate::elements::{ElementSource, Next};

/// Gives listed elements of one size, and fails in one call if it is told to.
#[derive(Debug, Drop)]
pub struct MemElements {
    cells: Vec<i64>,
    size: usize,
    given: usize,
    malformed: Option<u64>,
    fails_in: u64,
    faults: u64,
    ghost within: { given ≤ vec_len cells },
    ghost some: { 1 ≤ size },
}

impl MemElements {
    ghost use Rattle.zir_reader.specs.Memory.{faults_of, left_in, size_of, tail_of};

    /// Gives these cells, so many as an element, and then the end of the input, or malformed input behind a place. The call of number `fails_in`, from 1, fails.
    pub fn new(cells: Vec<i64>, size: usize, malformed: Option<u64>, fails_in: u64) -> MemElements
        requires { 1 ≤ size }
        ensures left { ⟦<MemElements as ElementSource>⟧.left result
            ≡ Some (record { elements = pieces (length cells.items / size) size cells.items; tail = tail_of malformed }) }
        ensures size { ⟦<MemElements as ElementSource>⟧.size result ≡ size }
        ensures faults { ⟦<MemElements as ElementSource>⟧.faults result ≡ 0 }
    {
        MemElements {
            cells,
            size,
            given: 0,
            malformed,
            fails_in,
            faults: 0,
        }
    }

    /// Whether the call that comes is to fail.
    fn next_fails(&mut self) -> bool
        ensures left { left_in self.new ≡ left_in self.old }
        ensures size { size_of self.new ≡ size_of self.old }
        ensures later { faults_of self.old ≤ faults_of self.new }
        ensures cause { result ≡ true → Rose (faults_of self.old) (faults_of self.new) }
    {
        let fails = self.fails_in == 1;
        self.fails_in = self.fails_in.saturating_sub(1);
        if fails {
            self.faults = self.faults.saturating_add(1);
        }
        fails
    }
}

impl ElementSource for MemElements {
    ghost use Rattle.zir_reader.specs.Memory.{faults_of, left_in, size_of};

    ghost size = { size_of };

    ghost left = { λ m. Some (left_in m) };

    ghost faults = { faults_of };

    ghost keeps = { λ _ _. ⊤ };

    ghost keeps_same = { λ _. tt };

    ghost keeps_on = { λ _ _ _ _ _. tt };

    fn next(&mut self, into: &mut [i64]) -> Next
        requires { length into.old ≡ size_of self.old }
        ensures gets { Gets (Some (left_in self.old)) (Some (left_in self.new)) into.new result }
        ensures size { size_of self.new ≡ size_of self.old }
        ensures keeps { ⊤ }
        ensures later { faults_of self.old ≤ faults_of self.new }
        ensures cause { result ≡ Next.Failed → Rose (faults_of self.old) (faults_of self.new) }
    {
        if self.next_fails() {
            return Next::Failed;
        }
        let rest = &self.cells[self.given..];
        if rest.len() < self.size {
            return match self.malformed {
                None => Next::End,
                Some(at) => Next::Malformed(at),
            };
        }
        into.copy_from_slice(&rest[..self.size]);
        self.given += self.size;
        Next::Element
    }
}
