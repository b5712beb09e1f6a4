// The memory of a run: cells, a meter, and the last trap.

ghost use Rattle.std.specs.Prelude.{◌≡◌, ◌-◌, ℕ, pos, length, [], IfOk};
ghost use Rattle.zir_expr.specs.Memory.{cell_at, put_cell, ticked, trapped, ended, from_base, place_of, address_of, moved};

use std::alloc::{AllocError, Global};
use std::marker::Model;
use zir_tree::ends::Trap;
use zir_tree::place::Place;

/// Why steps stop before their end.
#[derive(Clone, Copy, Debug, PartialEq, Eq)]
pub enum Halt {
    /// By a trap, which the frame keeps.
    Trap,
    /// The budget of ticks is used up.
    Spent,
}

/// Where a cell stands: among the top variables, or among the cells of the body that runs.
#[derive(Clone, Copy, Debug, PartialEq, Eq)]
pub enum Spot {
    Top(u32),
    Local(u32),
}

const NO_TRAP: Trap = Trap {
    code: 0,
    at: Place { line: 0, col: 0 },
};

/// All cells of a run, how many ticks are used, how many there are, and the last trap.
#[derive(Debug, Drop)]
pub struct Frame {
    cells: Vec<i64>,
    used: u64,
    limit: u64,
    trap: Trap,
}

impl Model for Frame {
    ghost use Rattle.zir_expr.specs.Memory.Frames.{Memory};

    ghost Value = { Memory };

    ghost view = { λ frame. record { cells = frame.cells.items; used = frame.used; limit = frame.limit; trap = frame.trap } };
}

impl Frame {
    /// So many cells, all 0, and so many ticks.
    pub fn open(alloc: Global, cells: usize, limit: u64) -> Result<Frame, AllocError>
        ensures size { IfOk result (λ frame. length frame.cells ≡ cells) }
        ensures zero { IfOk result (λ frame. (i : ℕ) → cell_at i frame ≡ pos 0) }
        ensures meter { IfOk result (λ frame. (frame.used ≡ 0) × (frame.limit ≡ limit)) }
    {
        let cells = vec![in alloc; 0; cells]?;
        Ok(Frame {
            cells,
            used: 0,
            limit,
            trap: NO_TRAP,
        })
    }

    /// No cells and no ticks.
    pub fn empty(alloc: Global) -> Frame
        ensures { length result.cells ≡ 0 }
    {
        Frame {
            cells: Vec::new(alloc),
            used: 0,
            limit: 0,
            trap: NO_TRAP,
        }
    }

    /// How many ticks are used.
    pub fn used(&self) -> u64
        ensures { result ≡ self.now.used }
    {
        self.used
    }

    /// How many ticks there are.
    pub fn limit(&self) -> u64
        ensures { result ≡ self.now.limit }
    {
        self.limit
    }

    /// The meter shows so many ticks used, and there are so many.
    pub fn restart(&mut self, used: u64, limit: u64)
        ensures { self.new ≡ record self.old { used = used; limit = limit } }
    {
        self.used = used;
        self.limit = limit;
    }

    /// The cells go over to another frame, with the meter and the trap as they are.
    pub fn lend(&mut self, to: &mut Frame)
        ensures kept { self.new ≡ record self.old { cells = [] } }
        ensures lent { to.new ≡ self.old }
    {
        to.cells.clear();
        std::mem::swap(&mut self.cells, &mut to.cells);
        to.used = self.used;
        to.limit = self.limit;
        to.trap = self.trap;
    }

    /// The last trap.
    pub fn trap(&self) -> Trap
        ensures { result ≡ self.now.trap }
    {
        self.trap
    }

    /// The cell at this index, and 0 past the last.
    pub fn cell(&self, i: usize) -> i64
        ensures { result ≡ cell_at i self.now }
    {
        match self.cells.get(i) {
            Some(n) => *n,
            None => 0,
        }
    }

    /// Changes the cell at this index, and nothing past the last.
    pub fn put(&mut self, i: usize, n: i64)
        ensures { self.new ≡ put_cell i n self.old }
    {
        if i < self.cells.len() {
            self.cells[i] = n;
        }
    }

    /// Copies so many cells, one after the other.
    #[inline(always)]
    pub fn copy(&mut self, to: usize, from: usize, n: u32)
        ensures { moved n to from self.old ≡ self.new }
    {
        if n == 1 {
            let cell = self.cell(from);
            self.put(to, cell);
        } else {
            self.copy_several(to, from, n);
        }
    }

    /// The same by a loop.
    #[inline(never)]
    fn copy_several(&mut self, to: usize, from: usize, n: u32)
        ensures { moved n to from self.old ≡ self.new }
    {
        let mut to = to;
        let mut from = from;
        for _past in 0..n {
            let cell = self.cell(from);
            self.put(to, cell);
            to = to.wrapping_add(1);
            from = from.wrapping_add(1);
        }
    }

    /// How many ticks are left.
    pub fn left(&self) -> u64
        ensures { result ≡ self.now.limit - self.now.used }
    {
        self.limit.saturating_sub(self.used)
    }

    /// Uses a tick.
    pub fn tick(&mut self) -> Result<(), Halt>
        ensures { ticked self.old ≡ ended result self.new }
    {
        if self.used < self.limit {
            self.used += 1;
            Ok(())
        } else {
            Err(Halt::Spent)
        }
    }

    /// Stops by a trap.
    pub fn fail(&mut self, code: u8, at: Place) -> Result<(), Halt>
        ensures { trapped code at self.old ≡ ended result self.new }
    {
        self.trap = Trap { code, at };
        Err(Halt::Trap)
    }
}

/// The index of the cell at an offset from a base.
#[tactic(auto, unfolding(crate::specs::Memory::from_base))]
pub fn index_of(base: usize, offset: u32) -> usize
    ensures { result ≡ from_base base offset }
{
    base.wrapping_add(offset as usize)
}

impl Spot {
    /// The index of the cell here, where the cells of the body that runs begin at a base.
    pub fn index(self, base: usize) -> usize
        ensures { result ≡ place_of base self }
    {
        match self {
            Spot::Top(o) => o as usize,
            Spot::Local(o) => index_of(base, o),
        }
    }

    /// The index of the cell so many cells after the one here.
    pub fn index_after(self, base: usize, offset: i64) -> usize
        ensures { result ≡ address_of base self offset }
    {
        self.index(base)
            .wrapping_add(offset.cast_unsigned() as usize)
    }
}
