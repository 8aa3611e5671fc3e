// What the memory says of the pages that a call names.
#![tactic(auto)]

mod in_range;
mod memory;

ghost use Rattle.std.specs.Prelude.{◌≡◌};
ghost use Rattle.lookups.specs.Lookups.{part_of};

pub use in_range::InRange;
pub use memory::Memory;
use pages::{Phase, Record};

// What the first page of a cell has.
#[derive(Clone, Copy)]
pub struct Cell {
    pub top: u64,
    pub phase: Phase,
}

// What a thread's page has, but for its registers.
#[derive(Clone, Copy)]
pub struct Thread {
    pub cell: u64,
    pub start: u64,
    pub under_way: bool,
}

// Who calls: the thread that runs, its cell, and that cell's top table. That its pages are there depends on the memory, and so it is said
// beside it, and not in the type.
#[derive(Clone, Copy)]
pub struct Caller {
    pub thread: u64,
    pub cell: u64,
    pub top: u64,
}

// The cell that a page is a part of.
pub fn part_of(page: Record) -> Option<u64>
    ensures { result ≡ part_of page }
{
    match page {
        Record::Free | Record::Cell { .. } => None,
        Record::Thread { cell, .. }
        | Record::Top { cell }
        | Record::Table { cell }
        | Record::Held { cell }
        | Record::Spare { cell } => Some(cell),
    }
}
