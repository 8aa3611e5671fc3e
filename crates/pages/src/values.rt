// What stands in the memory.
ghost use Rattle.std.specs.Prelude.{◌≡◌, ◌+◌, ◌*◌, ◌^◌, ◌<◌};
ghost use Rattle.model.specs.Pages.{phase_number};
ghost use Rattle.pages.specs.Meaning.{phase_from, phase_of, beginning};

// How many numbers the header has, and a page's record, and where in a record its list begins.
const HEADER: usize = 256;

pub const RECORD: usize = 2048;

pub const LIST: usize = 4;

// Where a page's record begins.
pub fn start_of(page: u64) -> usize
    requires { 256 + page * 2048 < 2 ^ 64 }
    ensures { result ≡ 256 + page * 2048 }
{
    HEADER + page as usize * RECORD
}

// How far a cell is: pages are put into it, or it may run, or it runs no more.
#[derive(Clone, Copy, Debug, PartialEq, Eq)]
pub enum Phase {
    Building,
    Sealed,
    Stopped,
}

impl From<u64> for Phase {
    ghost from_gives = { λ n f. f ≡ phase_from n };

    fn from(number: u64) -> Phase {
        match number {
            0 => Phase::Building,
            1 => Phase::Sealed,
            _ => Phase::Stopped,
        }
    }
}

impl From<Phase> for u64 {
    ghost from_gives = { λ f n. n ≡ phase_number (phase_of f) };

    #[tactic(auto, unfolding(model::specs::Pages::phase_number))]
    fn from(phase: Phase) -> u64 {
        match phase {
            Phase::Building => 0,
            Phase::Sealed => 1,
            Phase::Stopped => 2,
        }
    }
}

// What a closed page is, without the list in its record. A cell is named by its first page.
#[derive(Clone, Copy, Debug, PartialEq, Eq)]
pub enum Record {
    Free,
    Cell {
        top: u64,
        phase: Phase,
    },
    Thread {
        cell: u64,
        start: u64,
        under_way: bool,
    },
    Top {
        cell: u64,
    },
    Table {
        cell: u64,
    },
    Held {
        cell: u64,
    },
    Spare {
        cell: u64,
    },
}

impl Record {
    // The four numbers that its record begins with.
    pub fn beginning(self) -> [u64; 4]
        ensures { result ≡ beginning self }
    {
        match self {
            Record::Free => [0; 4],
            Record::Cell { top, phase } => [1, 0, top, u64::from(phase)],
            Record::Thread {
                cell,
                start,
                under_way,
            } => [2, cell, start, under_way as u64],
            Record::Top { cell } => [3, cell, 0, 0],
            Record::Table { cell } => [4, cell, 0, 0],
            Record::Held { cell } => [5, cell, 0, 0],
            Record::Spare { cell } => [6, cell, 0, 0],
        }
    }
}

// What a slot of a table has.
#[derive(Clone, Copy, Debug, PartialEq, Eq)]
pub enum Slot {
    Nothing,
    Closed { page: u64, write: bool, run: bool },
    Opened { page: u64, write: bool },
}
