// Opening, calls, and the pages as the machine and the system write and read them.
ghost use Rattle.std.specs.Prelude.{◌≡◌, ℕ, ◌+◌, ◌*◌, ◌/◌, ◌<◌, ◌≤◌, true, List, [], ◌∷◌, length, replicate, if◌then◌else◌, MatchOption, MatchResult, IsErrOf, is_ok, ◌↔◌};
ghost use Rattle.calls.specs.Table.{read_call};
ghost use Rattle.model.specs.State.{Limits as ModelLimits};
ghost use Rattle.model.specs.Events.{Event, wrote, wrote_open};
ghost use Rattle.pages.specs.Flat.{page_in, page_put};
ghost use Rattle.pages.specs.Rows.{new_memory};
ghost use Rattle.monitor.specs.Stage.{good_limits};
ghost use Rattle.session.specs.Flat.{whole_page, page_fits};
ghost use Rattle.session.specs.Holding.{limits_of, with_call};
ghost use Rattle.session.specs.Opening.{Unopens};

use super::Session;
use crate::errors::{NotWritten, Unopened};
use crate::flat;
use crate::under::Monitor;
use answers::{Reason, Refusal};
use fields::Unwritten;
use monitor::{Limits, Reply};
use std::alloc::Global;
use std::marker::PhantomData;

// Opens a session: a monitor without cells, and pages that are all zeros.
pub fn open<M: Monitor>(heap: Global, limits: Limits) -> Result<Session<M>, Unopened>
    ensures { MatchResult result
        (λ s. (good_limits limits.closed limits.«open» ≡ true)
        × (s.memory.items ≡ new_memory limits.closed limits.«open»)
        × (s.closed.items ≡ replicate (1024 * limits.closed) 0)
        × (s.«open».items ≡ replicate (1024 * limits.«open») 0)
        × M.holds (limits_of limits.closed limits.«open») [] s.memory.items s.closed.items s.«open».items)
        (λ e. Unopens limits.closed limits.«open» e) }
{
    if !monitor::in_range(limits) {
        return Err(Unopened::from(Refusal::from(Reason::OutOfRange)));
    }
    let pages = limits.closed as usize;
    let mut memory = Vec::from_elem(heap, 0u64, 256 + 2048 * pages)?;
    let closed = Vec::from_elem(heap, 0u32, 1024 * pages)?;
    let open = Vec::from_elem(heap, 0u32, 1024 * limits.open as usize)?;
    monitor::open(
        limits,
        memory.as_mut_slice(),
        closed.as_slice(),
        open.as_slice(),
    )?;
    Ok(Session {
        memory,
        closed,
        open,
        of: PhantomData,
    })
}

impl<M: Monitor> Session<M> {
    // Takes a call, or refuses it. What the system is told is written at the front of `told`.
    pub fn call(&mut self, bytes: &[u8], told: &mut [u8]) -> Result<Reply, Unwritten>
        ensures does { M.does self.old.«open».items (read_call bytes.now)
            (record { memory = self.old.memory.items; closed = self.old.closed.items; told = told.old })
            (record { memory = self.new.memory.items; closed = self.new.closed.items; told = told.new }) result }
        ensures opens { self.new.«open».items ≡ self.old.«open».items }
        ensures events { (l : ModelLimits) (es : List Event) →
            M.holds l es self.old.memory.items self.old.closed.items self.old.«open».items →
            M.holds l (with_call (read_call bytes.now) es result) self.new.memory.items self.new.closed.items self.new.«open».items }
    {
        M::call(
            self.memory.as_mut_slice(),
            self.closed.as_mut_slice(),
            self.open.as_slice(),
            bytes,
            told,
        )
    }

    // The system writes an open page: the words given, and zeros behind them. Open and closed pages have a method each, since which of them
    // a call reads or changes is its contract.
    pub fn write_open(&mut self, page: u64, words: &[u32]) -> Result<(), NotWritten>
        ensures done { is_ok result ≡ page_fits self.old.«open».items page words.now }
        ensures why { IsErrOf result NotWritten.NoSuchPage ↔ (length self.old.«open».items / 1024 ≤ page) }
        ensures after { self.new.«open».items ≡ (if is_ok result then page_put self.old.«open».items page
            (whole_page words.now) else self.old.«open».items) }
        ensures others { (self.new.memory ≡ self.old.memory) × (self.new.closed ≡ self.old.closed) }
        ensures events { (l : ModelLimits) (es : List Event) →
            M.holds l es self.old.memory.items self.old.closed.items self.old.«open».items →
            M.holds l (if is_ok result then wrote_open page (whole_page words.now) ∷ es else es)
            self.new.memory.items self.new.closed.items self.new.«open».items }
    {
        flat::write(self.open.as_mut_slice(), page, words)
    }

    // Somebody whom the machine lets writes a closed page, likewise.
    pub fn write_closed(&mut self, page: u64, words: &[u32]) -> Result<(), NotWritten>
        ensures done { is_ok result ≡ page_fits self.old.closed.items page words.now }
        ensures why { IsErrOf result NotWritten.NoSuchPage ↔ (length self.old.closed.items / 1024 ≤ page) }
        ensures after { self.new.closed.items ≡ (if is_ok result then page_put self.old.closed.items page
            (whole_page words.now) else self.old.closed.items) }
        ensures others { (self.new.memory ≡ self.old.memory) × (self.new.«open» ≡ self.old.«open») }
        ensures events { (l : ModelLimits) (es : List Event) →
            M.holds l es self.old.memory.items self.old.closed.items self.old.«open».items →
            M.holds l (if is_ok result then wrote page (whole_page words.now) ∷ es else es)
            self.new.memory.items self.new.closed.items self.new.«open».items }
    {
        flat::write(self.closed.as_mut_slice(), page, words)
    }

    // The words of an open page, if there is such a page.
    pub fn open_page(&self, page: u64) -> Option<&[u32]>
        ensures { MatchOption result (length self.now.«open».items / 1024 ≤ page)
            (λ x. (page < length self.now.«open».items / 1024) × (x.now ≡ page_in self.now.«open».items page)) }
    {
        flat::page(self.open.as_slice(), page)
    }

    // The words of a closed page, if there is such a page.
    pub fn closed_page(&self, page: u64) -> Option<&[u32]>
        ensures { MatchOption result (length self.now.closed.items / 1024 ≤ page)
            (λ x. (page < length self.now.closed.items / 1024) × (x.now ≡ page_in self.now.closed.items page)) }
    {
        flat::page(self.closed.as_slice(), page)
    }
}
