// What rooms come to, as answers.
ghost use Rattle.std.specs.Prelude.{◌≡◌, []};
ghost use Rattle.answers.specs.Meaning.{answer_of};
ghost use Rattle.full_monitor.specs.Outcomes.{done_by, entered_by, told_by};

use answers::{Answer, Reason};
use fields::Numbers;
use running::Entry;

// Done, or refused.
pub fn done(res: Result<(), Reason>) -> Answer<'static>
    ensures { answer_of result ≡ done_by res }
{
    match res {
        Ok(()) => Answer::Done,
        Err(reason) => reason.into(),
    }
}

// A cell is entered, or that is refused.
pub fn entered(res: Result<Entry, Reason>) -> Answer<'static>
    ensures { answer_of result ≡ entered_by res }
{
    match res {
        Ok(Entry { top, registers }) => Answer::Enters {
            top,
            registers: Numbers::Registers(registers),
        },
        Err(reason) => reason.into(),
    }
}

// The cell goes on, told 0, or why nothing was done.
pub fn told(res: Result<(), Reason>) -> Answer<'static>
    ensures { answer_of result ≡ told_by res }
{
    let error = match res {
        Ok(()) => 0,
        Err(reason) => reason.number(),
    };
    Answer::Told {
        error,
        numbers: Numbers::None,
    }
}
