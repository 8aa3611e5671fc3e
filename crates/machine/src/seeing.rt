// The lent words, by a cell's tables.
ghost use Rattle.std.specs.Prelude.{◌≡◌};
ghost use Rattle.model.specs.Pages.{writable};
ghost use Rattle.model.specs.Processor.{word_number};
ghost use Rattle.pages.specs.Meaning.{slot_of};
ghost use Rattle.machine.specs.Held.{slot_at, sees, Whole, Kept};
ghost use Rattle.machine.specs.Lent.{closed_put, open_put};
ghost use Rattle.machine.specs.Meaning.{seen_of};

use crate::values::Seen;
use lookups::Memory;
use pages::Slot;

// How many places a top table has, and slots a table.
const PLACES: u64 = 256;

const SLOTS: u64 = 1024;

// How many words a page has, each of four bytes.
const WORDS: usize = 1024;

const PAGE_BYTES: u64 = 4096;

// What is lent: the monitor's memory, a cell's top table in it, and the words of closed and of open pages. Each method asks that it is
// whole: with an invariant of a model in place of that, the caller of `run` would not learn which words are left in the slices.
#[derive(Drop)]
pub struct Lent<'a> {
    pub memory: &'a [u64],
    pub top: u64,
    pub closed: &'a mut [u32],
    pub open: &'a mut [u32],
}

// Which word of its page an address is that of.
fn word_number(address: u32) -> usize
    ensures { result ≡ word_number address }
{
    address as usize / 4 % WORDS
}

impl Lent<'_> {
    // The slot of an address; one whose page is not there counts as having nothing.
    fn slot_for(&self, address: u32) -> Slot
        requires { Whole self.now }
        ensures { slot_of result ≡ slot_at self.now address }
    {
        let memory = Memory::of(self.memory);
        let address = u64::from(address);
        let table = address / (SLOTS * PAGE_BYTES);
        if table >= PLACES {
            return Slot::Nothing;
        }
        let Some(table) = memory.table_of(self.top, table) else {
            return Slot::Nothing;
        };
        match pages::slot_at(self.memory, table, address / PAGE_BYTES % SLOTS) {
            Slot::Closed { page, .. } if page >= memory.pages() => Slot::Nothing,
            Slot::Opened { page, .. } if page >= memory.opens() => Slot::Nothing,
            slot => slot,
        }
    }

    // What is seen at an address, if anything is.
    pub fn look(&self, address: u32) -> Option<Seen>
        requires { Whole self.now }
        ensures { seen_of result ≡ sees self.now address }
    {
        let word = word_number(address);
        match self.slot_for(address) {
            Slot::Nothing => None,
            Slot::Closed { page, write, run } => Some(Seen {
                write,
                run,
                word: self.closed[page as usize * WORDS + word],
            }),
            Slot::Opened { page, write } => Some(Seen {
                write,
                run: false,
                word: self.open[page as usize * WORDS + word],
            }),
        }
    }

    // Stores a word where the tables let it; says whether they do, which is all that there is to say, so it is no Result.
    #[tactic(auto, unfolding(model::specs::Pages::writable))]
    pub fn store(&mut self, address: u32, value: u32) -> bool
        requires { Whole self.old }
        ensures may { result ≡ writable (slot_at self.old address) }
        ensures closed { self.new.closed.now ≡ closed_put self.old.closed.now (word_number address) value (slot_at self.old address) }
        ensures open { self.new.«open».now ≡ open_put self.old.«open».now (word_number address) value (slot_at self.old address) }
        ensures kept { Kept self.old self.new }
    {
        let word = word_number(address);
        match self.slot_for(address) {
            Slot::Nothing => false,
            Slot::Closed { page, write, .. } => {
                if write {
                    self.closed[page as usize * WORDS + word] = value;
                }
                write
            }
            Slot::Opened { page, write } => {
                if write {
                    self.open[page as usize * WORDS + word] = value;
                }
                write
            }
        }
    }
}
