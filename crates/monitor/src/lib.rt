// The monitor: a call's bytes in, an answer out, over memory and pages that are lent to it.
#![tactic(auto)]

ghost use Rattle.std.specs.Prelude.{◌≡◌, ◌*◌, ◌≤◌, true, length};
ghost use Rattle.answers.specs.Meaning.{answer_of, refusal_of};
ghost use Rattle.calls.specs.Meaning.{call_of};
ghost use Rattle.calls.specs.Table.{read_call};
ghost use Rattle.monitor.specs.Stage.{answer as stage_answer, good_limits, fitting};
ghost use Rattle.monitor.specs.Promises.{StageStands};
ghost use Rattle.monitor.specs.Called.{Opened, Staged};

mod values;

use answers::{Answer, Reason, Refusal};
use calls::Call;
use fields::Unwritten;
pub use values::{Limits, Reply};

// How many bytes hold whatever the system is told.
pub const LONGEST: usize = 17;

// Whether there are from 2 to 4,096 closed pages, and at most 1,048,576 open ones.
pub fn in_range(limits: Limits) -> bool
    ensures { result ≡ good_limits limits.closed limits.«open» }
{
    limits.closed >= 2 && limits.closed <= 4096 && limits.open <= 1048576
}

// Whether limits are in range, and the lengths of slices fit them.
fn fits(limits: Limits, memory: usize, closed: usize, open: usize) -> bool
    ensures { result ≡ fitting limits.closed limits.«open» memory closed «open» }
{
    in_range(limits)
        && memory as u64 == 256 + 2048 * limits.closed
        && closed as u64 == 1024 * limits.closed
        && open as u64 == 1024 * limits.open
}

// Opens the monitor over memory and pages that are lent to it: the memory is then that of a machine without cells. Limits that are out of
// range, and slices of another length, are refused by 2, and nothing is written.
pub fn open(limits: Limits, memory: &mut [u64], closed: &[u32], open: &[u32]) -> Result<(), Refusal>
    ensures { Opened limits.closed limits.«open» (length closed.now) (length «open».now) memory.old memory.new result }
{
    if !fits(limits, memory.len(), closed.len(), open.len()) {
        return Err(Reason::OutOfRange.into());
    }
    pages::lay_out(memory, limits.closed, limits.open);
    Ok(())
}

// A call that is one, taken if this stage has it.
fn taken(pages: u64, call: Call<'_>) -> Answer<'static>
    ensures { answer_of result ≡ stage_answer pages (call_of call.entry) }
{
    match call {
        Call::HowMany => Answer::Number { number: pages },
        _ => Reason::OutOfRange.into(),
    }
}

fn answer(pages: u64, bytes: &[u8]) -> Answer<'static>
    ensures { answer_of result ≡ stage_answer pages (read_call bytes.now) }
{
    match calls::read(bytes) {
        Ok(call) => taken(pages, call),
        Err(place) => Answer::Refused {
            refusal: Refusal::garbled(place as u64),
        },
    }
}

// Takes a call, or refuses it. What the system is told is written at the front of `told`.
pub fn call(
    memory: &mut [u64],
    closed: &mut [u32],
    open: &[u32],
    bytes: &[u8],
    told: &mut [u8],
) -> Result<Reply, Unwritten>
    requires { 256 ≤ length memory.old }
    ensures reply { Staged «open».now (read_call bytes.now)
        (record { memory = memory.old; closed = closed.old; told = told.old })
        (record { memory = memory.new; closed = closed.new; told = told.new }) result }
    ensures memory { memory.new ≡ memory.old }
    ensures closed { closed.new ≡ closed.old }
{
    if told.len() < LONGEST {
        return Err(Unwritten::TooShort { needed: LONGEST });
    }
    let answer = answer(pages::pages(memory), bytes);
    let told = answers::write(answers::told_to_system(answer), told)?;
    Ok(Reply { answer, told })
}

// This stage is that of the definitions which has call 0 and no other.
pub fn stage_stands()
    ensures { StageStands }
{}
