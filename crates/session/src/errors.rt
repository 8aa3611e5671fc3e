// Why a session does not open, and why a page is not written.
ghost use Rattle.std.specs.Prelude.{◌≡◌};
ghost use Rattle.session.specs.declared.errors.Unopened.TheVariants.{Refused, NoMemory};

use answers::Refusal;
use std::alloc::AllocError;

// Limits out of range, or no memory for so many pages.
#[derive(Clone, Copy, Debug, PartialEq, Eq)]
pub enum Unopened {
    Refused { refusal: Refusal },
    NoMemory,
}

impl From<AllocError> for Unopened {
    ghost from_gives = { λ _ unopened. unopened ≡ NoMemory };

    fn from(_error: AllocError) -> Unopened {
        Unopened::NoMemory
    }
}

impl From<Refusal> for Unopened {
    ghost from_gives = { λ refusal unopened. unopened ≡ Refused refusal };

    fn from(refusal: Refusal) -> Unopened {
        Unopened::Refused { refusal }
    }
}

// There is no such page, or there are more words than a page has.
#[derive(Clone, Copy, Debug, PartialEq, Eq)]
pub enum NotWritten {
    NoSuchPage,
    TooManyWords,
}
