// The system's calls.
ghost use Rattle.std.specs.Prelude.{◌≡◌, true, None};
ghost use Rattle.answers.specs.Meaning.{answer_of};
ghost use Rattle.calls.specs.Meaning.{call_of};
ghost use Rattle.pages.specs.Rows.{running_in};
ghost use Rattle.full_monitor.specs.Limits.{Lent};
ghost use Rattle.full_monitor.specs.Program.{fits, Does};

use crate::answering::{done, entered};
use answers::{Answer, Reason};
use calls::Call;
use lookups::InRange;

// A call whose numbers are in range, while no cell runs: a cell's is refused then.
pub fn by_system(
    memory: &mut [u64],
    closed: &mut [u32],
    open: &[u32],
    call: Call<'_>,
) -> Answer<'static>
    requires lent { Lent memory.old closed.old «open».now }
    requires fits { fits (call_of call) ≡ true }
    requires idle { running_in memory.old ≡ None }
    ensures { Does memory.old closed.old «open».now (call_of call.entry) (answer_of result) memory.new closed.new }
{
    match call {
        Call::HowMany => Answer::Number {
            number: pages::pages(memory),
        },
        Call::NewCell { first, top } => done(building::new_cell(memory, first, top)),
        Call::NewThread { page, cell, start } => {
            done(building::new_thread(memory, page, cell, start as u32))
        }
        Call::NewTable { page, cell, index } => {
            done(building::new_table(memory, page, cell, index))
        }
        Call::Hold {
            page,
            cell,
            place,
            source,
        } => {
            let at = InRange { place };
            done(building::hold(memory, closed, open, page, cell, at, source))
        }
        Call::Give { page, cell } => done(building::give(memory, page, cell)),
        Call::Show { open, cell, place } => {
            done(building::show(memory, open, cell, InRange { place }))
        }
        Call::Remove { page } => done(lifecycle::remove(memory, page)),
        Call::Seal { cell } => done(lifecycle::seal(memory, cell)),
        Call::Stop { cell } => done(lifecycle::stop(memory, cell)),
        Call::Enter { thread, x, y, z } => entered(running::enter(
            memory, thread, x as u32, y as u32, z as u32,
        )),
        Call::Resume { thread } => entered(running::resume(memory, thread)),
        _ => Reason::NotNow.into(),
    }
}
