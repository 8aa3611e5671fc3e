// The monitor for callers in C: a static library with opening and the call.
#![tactic(auto)]

ghost use Rattle.std.specs.Prelude.{length, ◌≡◌};
ghost use Rattle.calls.specs.Table.{read_call};
ghost use Rattle.monitor_c.specs.Replied.{fits, OpenedAs, Replied};

use full_monitor::{LONGEST, Limits};

// How many numbers the memory's header has, and its record of a closed page.
const HEADER: usize = 256;

const RECORD: u64 = 2048;

// How many words a page has.
const WORDS: u64 = 1024;

// How many closed pages and open ones there are at most.
const MOST_CLOSED: u64 = 4096;

const MOST_OPEN: u64 = 1048576;

// Whether the memory has its header, and the slices are as long as that says, with room for what the system is told.
fn fits(memory: &[u64], closed: &[u32], open: &[u32], told: &[u8]) -> bool
    ensures { result ≡ fits memory.now closed.now «open».now told.now }
{
    if memory.len() < HEADER {
        return false;
    }
    let pages = pages::pages(memory);
    let opens = pages::opens(memory);
    pages <= MOST_CLOSED
        && opens <= MOST_OPEN
        && memory.len() as u64 == HEADER as u64 + pages * RECORD
        && closed.len() as u64 == pages * WORDS
        && open.len() as u64 == opens * WORDS
        && told.len() >= LONGEST
}

// Opens the monitor; false, with nothing written, where limits are out of range or slices don't fit them. The C interface has no Result,
// so it is a bool here, and 0 for a call that is not taken.
#[unsafe(no_mangle)]
pub extern "C" fn monitor_open(
    closed_pages: u64,
    open_pages: u64,
    memory: &mut [u64],
    closed: &[u32],
    open: &[u32],
) -> bool
    ensures { OpenedAs closed_pages open_pages (length closed.now) (length «open».now) memory.old memory.new result }
{
    let limits = Limits {
        closed: closed_pages,
        open: open_pages,
    };
    full_monitor::open(limits, memory, closed, open).is_ok()
}

// Takes a call, or refuses it; how many bytes the system is told, or 0 where slices don't fit.
#[unsafe(no_mangle)]
pub extern "C" fn monitor_call(
    memory: &mut [u64],
    closed: &mut [u32],
    open: &[u32],
    bytes: &[u8],
    told: &mut [u8],
) -> usize
    ensures { Replied (fits memory.old closed.old «open».now told.old) «open».now (read_call bytes.now)
        (record { memory = memory.old; closed = closed.old; told = told.old })
        (record { memory = memory.new; closed = closed.new; told = told.new }) result }
{
    if !fits(memory, closed, open, told) {
        return 0;
    }
    full_monitor::call(memory, closed, open, bytes, told).map_or(0, |reply| reply.told)
}
