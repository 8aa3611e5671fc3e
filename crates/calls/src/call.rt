// The calls.
use fields::{Numbers, Place};

// By the system, up to `Resume`, and then by the cell that runs. Pages and cells are named by numbers, a cell by its first page.
#[derive(Clone, Copy, Debug)]
pub enum Call<'a> {
    HowMany,
    NewCell {
        first: u64,
        top: u64,
    },
    NewThread {
        page: u64,
        cell: u64,
        start: u64,
    },
    NewTable {
        page: u64,
        cell: u64,
        index: u64,
    },
    Hold {
        page: u64,
        cell: u64,
        place: Place,
        source: Option<u64>,
    },
    Give {
        page: u64,
        cell: u64,
    },
    Show {
        open: u64,
        cell: u64,
        place: Place,
    },
    Remove {
        page: u64,
    },
    Seal {
        cell: u64,
    },
    Stop {
        cell: u64,
    },
    Enter {
        thread: u64,
        x: u64,
        y: u64,
        z: u64,
    },
    Resume {
        thread: u64,
    },
    Leave {
        number: u64,
    },
    Interrupt {
        registers: Numbers<'a>,
    },
    Fault {
        kind: u64,
    },
    Grow {
        page: u64,
        place: Place,
    },
    Shrink {
        page: u64,
        place: Place,
    },
    Extend {
        page: u64,
        index: u64,
    },
    Who,
    Draw {
        number: u64,
    },
}
