// The monitor with all its calls, for a session.
ghost use Rattle.full_monitor.specs.Called.{Made, Refines};
ghost use Rattle.full_session.specs.Laws.{at_first, calls_hold, writes_hold, open_writes_hold};

use fields::Unwritten;
use monitor::Reply;
use session::Monitor;

pub struct Whole;

impl Monitor for Whole {
    ghost holds = { Made };

    ghost does = { Refines };

    ghost at_first = { at_first };

    ghost calls_hold = { calls_hold };

    ghost writes_hold = { writes_hold };

    ghost open_writes_hold = { open_writes_hold };

    // REFINEMENT: over what events made, it does what the definitions say, which is what they go on by.
    fn call(
        memory: &mut [u64],
        closed: &mut [u32],
        open: &[u32],
        bytes: &[u8],
        told: &mut [u8],
    ) -> Result<Reply, Unwritten> {
        full_monitor::call(memory, closed, open, bytes, told)
    }
}
