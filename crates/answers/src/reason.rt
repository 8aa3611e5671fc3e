// Why calls are refused.
ghost use Rattle.std.specs.Prelude.{◌≡◌, Some};
ghost use Rattle.answers.specs.declared.answer.Answer.TheVariants.{Refused};
ghost use Rattle.answers.specs.Reasons.{number_of, words_of};

use crate::answer::{Answer, Refusal};
use std::error::Error;
use std::fmt;

// Why a call is refused, or which error a cell is told: a case for each number of the list. 1, bytes that are no call, is no case: it has
// a place, and is made where bytes are read.
#[derive(Clone, Copy, Debug, PartialEq, Eq)]
pub enum Reason {
    OutOfRange = 2,
    NotThere = 3,
    InUse = 4,
    NoCell = 5,
    NotBuilding = 6,
    NotSealed = 7,
    NotVacant = 8,
    PlaceInUse = 9,
    NotStopped = 10,
    UnderWay = 11,
    NotUnderWay = 12,
    Stopped = 13,
    NotNow = 14,
}

impl Reason {
    // Its number in the list.
    pub fn number(self) -> u64
        ensures { result ≡ number_of self }
    {
        self as u64
    }
}

impl fmt::Display for Reason {
    ghost output = { λ reason. Some (words_of reason) };

    fn fmt<W: fmt::Write>(&self, f: &mut fmt::Formatter<W>) -> fmt::Result {
        f.write_str(match self {
            Reason::OutOfRange => "out of range, or a call that the monitor can't do",
            Reason::NotThere => "a page that is not there",
            Reason::InUse => "a page in use, or a cell that has pages",
            Reason::NoCell => "not a cell",
            Reason::NotBuilding => "a cell sealed, or stopped, already",
            Reason::NotSealed => "a thread of a cell that is not sealed",
            Reason::NotVacant => {
                "a place without a table, with something there, or beyond the top table"
            }
            Reason::PlaceInUse => "a place at the top in use",
            Reason::NotStopped => "a page of a cell that is not stopped",
            Reason::UnderWay => "under way, to be entered",
            Reason::NotUnderWay => "not under way, to be resumed",
            Reason::Stopped => "a cell that is stopped",
            Reason::NotNow => "a call of the other side",
        })
    }
}

impl Error for Reason {}

// A refusal for a reason is at no place.
impl From<Reason> for Refusal {
    ghost from_gives = { λ reason r. r ≡ record { number = number_of reason; place = 0 } };

    fn from(reason: Reason) -> Refusal {
        Refusal::by(reason.number())
    }
}

impl From<Reason> for Answer<'static> {
    ghost from_gives = { λ reason r. r ≡ Refused (record { number = number_of reason; place = 0 }) };

    fn from(reason: Reason) -> Answer<'static> {
        Answer::Refused {
            refusal: Refusal::from(reason),
        }
    }
}

#[cfg(test)]
mod tests {
    use super::*;
    use std::test::Fail;

    #[test]
    fn a_reason_in_words(rt: HostRuntime) -> Result<(), Fail> {
        let alloc = rt.alloc();
        assert_eq!(rt; Reason::NoCell.to_string(alloc)?.as_str(), "not a cell");
        assert_eq!(rt;
            Reason::UnderWay.to_string(alloc)?.as_str(),
            "under way, to be entered"
        );
        Ok(())
    }

    #[test]
    fn a_reason_as_a_refusal(rt: HostRuntime) {
        let refusal = Refusal {
            number: 14,
            place: 0,
        };
        assert_eq!(rt; Refusal::from(Reason::NotNow), refusal);
    }
}
