// Slots and places as numbers.
ghost use Rattle.std.specs.Prelude.{◌≡◌, ◌<◌};
ghost use Rattle.fields.specs.Shapes.{place_of};
ghost use Rattle.model.specs.Measured.{place_word};
ghost use Rattle.pages.specs.Packing.{slot_number, slot_from, place_from};
ghost use Rattle.pages.specs.Meaning.{slot_of, Packs};

use crate::values::Slot;
use fields::Place;

// A slot's number: the page's from bit 4, 8 if it may be run, 4 if written, and 1 for a closed page or 2 for an open one.
pub fn pack(slot: Slot) -> u64
    requires { Packs slot }
    ensures { result ≡ slot_number (slot_of slot) }
{
    match slot {
        Slot::Nothing => 0,
        Slot::Closed { page, write, run } => (page << 4)
            | ((run as u64) << 3)
            | ((write as u64) << 2)
            | 1,
        Slot::Opened { page, write } => (page << 4) | ((write as u64) << 2) | 2,
    }
}

// The slot that a number stands for. No `From`, since it stands beside `pack`, which can't be one: not every slot has a number.
#[tactic(auto, using(std::proofs::lemmas::Nat::and_mask))]
pub fn unpack(number: u64) -> Slot
    ensures { slot_of result ≡ slot_from number }
{
    let page = number >> 4;
    let write = (number >> 2) & 1 == 1;
    match number & 3 {
        0 => Slot::Nothing,
        1 => Slot::Closed {
            page,
            write,
            run: (number >> 3) & 1 == 1,
        },
        _ => Slot::Opened { page, write },
    }
}

// A place's word, as it is measured: the table's number from bit 22, the slot's from bit 12, 4 if it may be run, 2 if
// written, and 1.
pub fn place_word(place: Place) -> u32
    requires { (place.table < 1024) × (place.slot < 1024) }
    ensures { result ≡ place_word (place_of place) }
{
    let table = place.table as u32;
    let slot = place.slot as u32;
    (table << 22) | (slot << 12) | ((place.run as u32) << 2) | ((place.write as u32) << 1) | 1
}

// The place that a word stands for. No `From`, since a place is a type of `fields`.
#[tactic(auto, using(std::proofs::lemmas::Nat::and_mask))]
pub fn place_from(word: u32) -> Place
    ensures { place_of result ≡ place_from word }
{
    Place {
        table: (word >> 22) as u64,
        slot: ((word >> 12) & 1023) as u64,
        write: (word >> 1) & 1 == 1,
        run: (word >> 2) & 1 == 1,
    }
}
