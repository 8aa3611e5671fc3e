// How cells come back to the system.
ghost use Rattle.std.specs.Prelude.{◌≡◌};
ghost use Rattle.answers.specs.declared.answer.Answer.TheVariants.{Left};
ghost use Rattle.answers.specs.Endings.{how_of, told_of};

use crate::answer::Answer;

// A cell left, with a number, or was interrupted, or had a fault, of a kind.
#[derive(Clone, Copy, Debug, PartialEq, Eq)]
pub enum Ending {
    Left { number: u64 },
    Interrupted,
    Faulted { kind: u64 },
}

// An answer says how by a number, and has 0 for an interrupted cell.
impl From<Ending> for Answer<'static> {
    ghost from_gives = { λ ending r. r ≡ Left (how_of ending) (told_of ending) };

    fn from(ending: Ending) -> Answer<'static> {
        let (how, number) = match ending {
            Ending::Left { number } => (0, number),
            Ending::Interrupted => (1, 0),
            Ending::Faulted { kind } => (2, kind),
        };
        Answer::Left { how, number }
    }
}
