// The answers.
ghost use Rattle.std.specs.Prelude.{◌≡◌};

use fields::Numbers;

// Why a call is refused: by its number in the list of refusals, and at a place in the call's bytes. What is read of bytes may have any
// number, so it is no `Reason`.
#[derive(Clone, Copy, Debug, PartialEq, Eq)]
pub struct Refusal {
    pub number: u64,
    pub place: u64,
}

impl Refusal {
    // By a number of the list, at no place.
    pub fn by(number: u64) -> Refusal
        ensures { result ≡ record { number = number; place = 0 } }
    {
        Refusal { number, place: 0 }
    }

    // Of bytes that are no call, at the place where they cease to be one.
    pub fn garbled(place: u64) -> Refusal
        ensures { result ≡ record { number = 1; place = place } }
    {
        Refusal { number: 1, place }
    }
}

// What the machine is told of a call. `Enters` has the page of the top table of the cell that is entered, and its registers; `Told` an
// error, or 0, for the cell that goes on, and numbers; `Left` how the cell came back: 0 it left, with a number, 1 it was interrupted,
// 2 it had a fault, of a kind. What is read of bytes may have any `error` and any `how`, so they are no `Reason` and no `Ending`.
#[derive(Clone, Copy, Debug)]
pub enum Answer<'a> {
    Refused { refusal: Refusal },
    Done,
    Number { number: u64 },
    Enters { top: u64, registers: Numbers<'a> },
    Told { error: u64, numbers: Numbers<'a> },
    Left { how: u64, number: u64 },
}
