// The monitor's first stage, for a session.
ghost use Rattle.monitor.specs.Called.{Staged};
ghost use Rattle.session.specs.Staging.{HasHeader, at_first, calls_hold, writes_hold, open_writes_hold};

use crate::under::Monitor;
use fields::Unwritten;
use monitor::Reply;

pub struct Stage;

impl Monitor for Stage {
    ghost holds = { HasHeader };

    ghost does = { Staged };

    ghost at_first = { at_first };

    ghost calls_hold = { calls_hold };

    ghost writes_hold = { writes_hold };

    ghost open_writes_hold = { open_writes_hold };

    fn call(
        memory: &mut [u64],
        closed: &mut [u32],
        open: &[u32],
        bytes: &[u8],
        told: &mut [u8],
    ) -> Result<Reply, Unwritten> {
        monitor::call(memory, closed, open, bytes, told)
    }
}
