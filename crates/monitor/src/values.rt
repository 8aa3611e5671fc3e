// What the monitor is opened with, and what it replies.
use answers::Answer;

// How many closed pages and open pages there are.
#[derive(Clone, Copy, Debug, PartialEq, Eq)]
pub struct Limits {
    pub closed: u64,
    pub open: u64,
}

// The answer for the machine, and how many bytes the system is told: they stand at the front of a slice that was lent for them, since the
// monitor allocates nothing.
#[derive(Clone, Copy)]
pub struct Reply {
    pub answer: Answer<'static>,
    pub told: usize,
}
