// The monitor's memory, as it is read.
ghost use Rattle.std.specs.Prelude.{◌≡◌, ◌<◌, None, Some, IfSome, MatchOption, OnSome, slice_index};
ghost use Rattle.fields.specs.Shapes.{place_of};
ghost use Rattle.pages.specs.Rows.{slot_in};
ghost use Rattle.pages.specs.Meaning.{slot_of, measure_in};
ghost use Rattle.full_pages.specs.Meaning.{Sized};
ghost use Rattle.lookups.specs.Lookups.{record_of, cell_of, thread_of, table_of, vacant, showing, has_parts, IsThere};
ghost use Rattle.lookups.specs.Lookups.{caller as caller_in};

use crate::in_range::InRange;
use crate::{Caller, Cell, Thread, part_of};
use pages::{Record, Slot};
use sha256::Measure;
use std::marker::Model;

// The lent words, as long as they should be. Clauses see the list of them. The calls that write are lent the slice itself, through the C
// interface, and say of it that it is so long: with a struct around the slice, each would have to promise too that it hands the same one
// back.
#[derive(Drop)]
pub struct Memory<'a> {
    words: &'a [u64],
}

impl<'a> Model for Memory<'a> {
    ghost use Rattle.std.specs.Prelude.{ℕ, List};
    ghost use Rattle.full_pages.specs.Meaning.{Sized};

    ghost Value = { List ℕ };

    ghost view = { λ a. a.words.now };

    ghost invariant = { λ a. Sized a.words.now };
}

impl<'a> Memory<'a> {
    // The memory that is lent as these words.
    pub fn of(words: &'a [u64]) -> Memory<'a>
        requires { Sized words.now }
        ensures { result ≡ words.now }
    {
        Memory { words }
    }

    // How many closed pages there are, and how many open ones.
    pub fn pages(&self) -> u64
        ensures { result ≡ slice_index self.now 0 }
    {
        pages::pages(self.words)
    }

    pub fn opens(&self) -> u64
        ensures { result ≡ slice_index self.now 1 }
    {
        pages::opens(self.words)
    }

    // What a page is; one that is not there counts as free.
    pub fn record_of(&self, page: u64) -> Record
        ensures { result ≡ record_of self.now page }
    {
        if page >= self.pages() {
            return Record::Free;
        }
        pages::record_at(self.words, page)
    }

    // The cell that a page is the first of.
    pub fn cell_of(&self, page: u64) -> Option<Cell>
        ensures value { result ≡ cell_of self.now page }
        ensures there { IfSome result (λ x. (page < slice_index self.now 0) × (x.top < slice_index self.now 0)) }
    {
        let Record::Cell { top, phase } = self.record_of(page) else {
            return None;
        };
        if top >= self.pages() {
            return None;
        }
        Some(Cell { top, phase })
    }

    // What was measured of a cell.
    pub fn measure_at(&self, cell: u64) -> Measure
        requires { cell < slice_index self.now 0 }
        ensures { result ≡ measure_in self.now cell }
    {
        pages::measure_at(self.words, cell)
    }

    // The thread that a page has.
    pub fn thread_of(&self, page: u64) -> Option<Thread>
        ensures value { result ≡ thread_of self.now page }
        ensures there { OnSome result (page < slice_index self.now 0) }
    {
        let Record::Thread {
            cell,
            start,
            under_way,
        } = self.record_of(page)
        else {
            return None;
        };
        Some(Thread {
            cell,
            start,
            under_way,
        })
    }

    // The table at a place of a top table.
    pub fn table_of(&self, top: u64, index: u64) -> Option<u64>
        requires { (top < slice_index self.now 0) × (index < 256) }
        ensures value { result ≡ table_of self.now top index }
        ensures there { IfSome result (λ q. q < slice_index self.now 0) }
    {
        let table = pages::table_at(self.words, top, index)?;
        if table >= self.pages() {
            return None;
        }
        Some(table)
    }

    // The table that a place is in, and what its slot there has.
    fn seen_at(&self, top: u64, at: InRange) -> Option<(u64, Slot)>
        requires { top < slice_index self.now 0 }
        ensures { MatchOption result (table_of self.now top at.place.table ≡ None)
            (λ x. (table_of self.now top at.place.table ≡ Some x.0) × (slot_of x.1 ≡ slot_in self.now x.0 at.place.slot)
            × (x.0 < slice_index self.now 0)) }
    {
        let table = self.table_of(top, at.place.table)?;
        Some((table, pages::slot_at(self.words, table, at.place.slot)))
    }

    // The table in which a place has nothing in its slot.
    pub fn vacant(&self, top: u64, at: InRange) -> Option<u64>
        requires { top < slice_index self.now 0 }
        ensures value { result ≡ vacant self.now top (place_of at.place) }
        ensures there { IfSome result (λ q. q < slice_index self.now 0) }
    {
        let (table, slot) = self.seen_at(top, at)?;
        let Slot::Nothing = slot else {
            return None;
        };
        Some(table)
    }

    // The table in which a place shows a closed page.
    pub fn showing(&self, top: u64, at: InRange, page: u64) -> Option<u64>
        requires { top < slice_index self.now 0 }
        ensures value { result ≡ showing self.now top (place_of at.place) page }
        ensures there { IfSome result (λ q. q < slice_index self.now 0) }
    {
        let (table, slot) = self.seen_at(top, at)?;
        let Slot::Closed { page: shown, .. } = slot else {
            return None;
        };
        if shown != page {
            return None;
        }
        Some(table)
    }

    // The thread that runs, with its cell, if one does.
    pub fn who_calls(&self) -> Option<Caller>
        ensures value { result ≡ caller_in self.now }
        ensures there { IfSome result (IsThere self.now) }
    {
        let thread = pages::running(self.words)?;
        let cell = part_of(self.record_of(thread))?;
        let Cell { top, .. } = self.cell_of(cell)?;
        Some(Caller { thread, cell, top })
    }

    // Whether a cell has pages besides its first. Where something is looked for page by page, the project wants a loop that is left from
    // inside by a label.
    pub fn has_parts(&self, cell: u64) -> bool
        ensures { result ≡ has_parts (slice_index self.now 0) self.now cell }
    {
        let mut found = false;
        'pages: for page in 0..self.pages() {
            if part_of(self.record_of(page)) == Some(cell) {
                found = true;
                break 'pages;
            }
        }
        found
    }
}
