// The monitor: a call's bytes in, an answer out, over memory and pages that are lent to it.
#![tactic(auto)]

ghost use Rattle.std.specs.Prelude.{◌≡◌, ◌*◌, ◌≤◌, length};
ghost use Rattle.answers.specs.Meaning.{answer_of};
ghost use Rattle.calls.specs.Meaning.{call_of};
ghost use Rattle.calls.specs.Table.{read_call};
ghost use Rattle.full_monitor.specs.Limits.{Lent};
ghost use Rattle.full_monitor.specs.Program.{Does};
ghost use Rattle.full_monitor.specs.Called.{Runs, Refines};

mod answering;
mod cells;
mod promises;
mod range;
mod system;

use answers::{Answer, Reason, Refusal};
use calls::Call;
use cells::by_cell;
use fields::Unwritten;
use lookups::Memory;
pub use monitor::{LONGEST, Limits, Reply, in_range, open};
pub use promises::{cells_are_kept, program_is_right, tells_no_secrets};
use system::by_system;

// A call: out of range it is refused by 2; then it is the system's while no cell runs, or that of the cell that does.
// The three slices are lent through the C interface; a struct of them would be taken apart again, since most calls need one or two of them.
fn taken(memory: &mut [u64], closed: &mut [u32], open: &[u32], call: Call<'_>) -> Answer<'static>
    requires { Lent memory.old closed.old «open».now }
    ensures { Does memory.old closed.old «open».now (call_of call.entry) (answer_of result) memory.new closed.new }
{
    if !range::fits(call) {
        return Reason::OutOfRange.into();
    }
    let Some(_) = pages::running(memory) else {
        return by_system(memory, closed, open, call);
    };
    let Some(caller) = Memory::of(memory).who_calls() else {
        return Reason::NotNow.into();
    };
    by_cell(memory, closed, open, caller, call)
}

// Bytes that are a call, or are refused by 1, with the place where they cease to be one.
fn answer(memory: &mut [u64], closed: &mut [u32], open: &[u32], bytes: &[u8]) -> Answer<'static>
    requires { Lent memory.old closed.old «open».now }
    ensures { Does memory.old closed.old «open».now (read_call bytes.now) (answer_of
        result) memory.new closed.new }
{
    match calls::read(bytes) {
        Ok(call) => taken(memory, closed, open, call),
        Err(place) => Answer::Refused {
            refusal: Refusal::garbled(place as u64),
        },
    }
}

// The bytes of what the system is told stand at the front of `told`.
fn reply(
    memory: &mut [u64],
    closed: &mut [u32],
    open: &[u32],
    bytes: &[u8],
    told: &mut [u8],
) -> Result<Reply, Unwritten>
    requires { Lent memory.old closed.old «open».now }
    ensures { Runs «open».now (read_call bytes.now)
        (record { memory = memory.old; closed = closed.old; told = told.old })
        (record { memory = memory.new; closed = closed.new; told = told.new }) result }
{
    if told.len() < LONGEST {
        return Err(Unwritten::TooShort { needed: LONGEST });
    }
    let answer = answer(memory, closed, open, bytes);
    let told = answers::write(answers::told_to_system(answer), told)?;
    Ok(Reply { answer, told })
}

// Takes a call, or refuses it. What the system is told is written at the front of `told`. REFINEMENT: for any limits, and any events that
// made the memory and the pages, the answer, the system's bytes, the memory and the closed pages are those that the definitions say.
pub fn call(
    memory: &mut [u64],
    closed: &mut [u32],
    open: &[u32],
    bytes: &[u8],
    told: &mut [u8],
) -> Result<Reply, Unwritten>
    requires { Lent memory.old closed.old «open».now }
    ensures runs { Runs «open».now (read_call bytes.now)
        (record { memory = memory.old; closed = closed.old; told = told.old })
        (record { memory = memory.new; closed = closed.new; told = told.new }) result }
    ensures refines { Refines «open».now (read_call bytes.now)
        (record { memory = memory.old; closed = closed.old; told = told.old })
        (record { memory = memory.new; closed = closed.new; told = told.new }) result }
{
    reply(memory, closed, open, bytes, told)
}
