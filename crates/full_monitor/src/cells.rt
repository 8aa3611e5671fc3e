// The calls of the cell that runs.
ghost use Rattle.std.specs.Prelude.{◌≡◌, true, Some};
ghost use Rattle.answers.specs.Meaning.{answer_of};
ghost use Rattle.calls.specs.Meaning.{call_of};
ghost use Rattle.lookups.specs.Lookups.{IsThere, caller as caller_in};
ghost use Rattle.full_monitor.specs.Limits.{Lent};
ghost use Rattle.full_monitor.specs.Program.{fits, Does};

use crate::answering::told;
use answers::{Answer, Ending, Reason};
use calls::Call;
use fields::Numbers;
use lookups::{Caller, Memory};

// A call whose numbers are in range, while a cell runs: the system's is refused then.
pub fn by_cell(
    memory: &mut [u64],
    closed: &mut [u32],
    open: &[u32],
    caller: Caller,
    call: Call<'_>,
) -> Answer<'static>
    requires lent { Lent memory.old closed.old «open».now }
    requires fits { fits (call_of call) ≡ true }
    requires calls { caller_in memory.old ≡ Some caller }
    requires there { IsThere memory.old caller }
    ensures { Does memory.old closed.old «open».now (call_of call.entry) (answer_of result) memory.new closed.new }
{
    match call {
        Call::Leave { number } => {
            running::leave(memory, caller);
            Ending::Left { number }.into()
        }
        Call::Interrupt { registers } => {
            let Some(registers) = running::registers_from(registers) else {
                unreachable()
            };
            running::interrupt(memory, caller, registers);
            Ending::Interrupted.into()
        }
        Call::Fault { kind } => {
            running::leave(memory, caller);
            Ending::Faulted { kind }.into()
        }
        Call::Grow { page, place } => told(growing::grow(memory, closed, caller, page, place)),
        Call::Shrink { page, place } => told(growing::shrink(memory, caller, page, place)),
        Call::Extend { page, index } => told(growing::extend(memory, caller, page, index)),
        Call::Who => Answer::Told {
            error: 0,
            numbers: Numbers::Name(running::who(&Memory::of(memory), caller)),
        },
        Call::Draw { number } => Answer::Told {
            error: 0,
            numbers: Numbers::One(number),
        },
        _ => Reason::NotNow.into(),
    }
}
