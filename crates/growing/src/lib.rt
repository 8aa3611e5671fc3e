// The calls by which a cell that runs grows and shrinks. What is refused here is told to the cell as an error, and changes nothing.
#![tactic(auto)]

ghost use Rattle.std.specs.Prelude.{◌≡◌, ◌*◌, ◌<◌, length, slice_index};
ghost use Rattle.std.specs.Option.{unwrap_or};
ghost use Rattle.fields.specs.Shapes.{place_of};
ghost use Rattle.full_pages.specs.Meaning.{Sized};
ghost use Rattle.lookups.specs.Lookups.{IsThere, vacant, showing};
ghost use Rattle.lookups.specs.Outcomes.{Checked, Taken};
ghost use Rattle.growing.specs.Checks.{own_spare, own_held, in_range, grow_checks, shrink_checks, extend_checks};
ghost use Rattle.growing.specs.Made.{grown, grown_pages, shrunk, extended};

use answers::Reason;
use fields::Place;
use lookups::{Caller, InRange, Memory};
use pages::{Record, Slot};

// Whether a page is the caller's, and spare. This and the next are two functions, for a pattern cannot be handed on.
fn owns_spare(memory: &Memory<'_>, caller: Caller, page: u64) -> bool
    ensures { result ≡ own_spare memory.now caller page }
{
    matches!(memory.record_of(page), Record::Spare { cell } if cell == caller.cell)
}

// Whether a page is the caller's, and held.
fn holds(memory: &Memory<'_>, caller: Caller, page: u64) -> bool
    ensures { result ≡ own_held memory.now caller page }
{
    matches!(memory.record_of(page), Record::Held { cell } if cell == caller.cell)
}

// Whether a place is one of a cell's tables.
pub fn in_range(place: Place) -> bool
    ensures { result ≡ in_range (place_of place) }
{
    InRange::of(place).is_some()
}

// Whether a spare page of the caller may be held at a place; hands on the table that the place is in.
fn may_grow(memory: &Memory<'_>, caller: Caller, page: u64, place: Place) -> Result<u64, Reason>
    requires { IsThere memory.now caller }
    ensures { Checked (grow_checks memory.now caller page (place_of place))
        (λ table. (table ≡ unwrap_or (vacant memory.now caller.top (place_of place)) 0) × (table < slice_index memory.now 0)
        × (page < slice_index memory.now 0)
        × (place.slot < 1024)) result }
{
    if !owns_spare(memory, caller, page) {
        return Err(Reason::NotThere);
    }
    let Some(at) = InRange::of(place) else {
        return Err(Reason::NotVacant);
    };
    let Some(table) = memory.vacant(caller.top, at) else {
        return Err(Reason::NotVacant);
    };
    Ok(table)
}

// A spare page of the caller becomes a held one, with zeros, and is seen at a place.
pub fn grow(
    memory: &mut [u64],
    closed: &mut [u32],
    caller: Caller,
    page: u64,
    place: Place,
) -> Result<(), Reason>
    requires { (Sized memory.old) × ((IsThere memory.old caller) × (length closed.old ≡ slice_index memory.old 0 * 1024)) }
    ensures memory { Taken (grow_checks memory.old caller page (place_of place)) memory.old
        (grown memory.old caller page (place_of place)) memory.new result }
    ensures closed { Taken (grow_checks memory.old caller page (place_of place)) closed.old
        (grown_pages closed.old page) closed.new result }
{
    let table = may_grow(&Memory::of(memory), caller, page, place)?;
    pages::zero_page(closed, page);
    building::become_held(memory, page, caller.cell, table, place);
    Ok(())
}

// Whether a page of the caller is seen at a place; hands on the table that the place is in. The checks stand in line, as those of growing
// do: one function for both would have to take the first and the last of them as closures.
fn may_shrink(memory: &Memory<'_>, caller: Caller, page: u64, place: Place) -> Result<u64, Reason>
    requires { IsThere memory.now caller }
    ensures { Checked (shrink_checks memory.now caller page (place_of place))
        (λ table. (table ≡ unwrap_or (showing memory.now caller.top (place_of place) page) 0) × (table < slice_index memory.now 0)
        × (page < slice_index memory.now 0)
        × (place.slot < 1024)) result }
{
    if !holds(memory, caller, page) {
        return Err(Reason::NotThere);
    }
    let Some(at) = InRange::of(place) else {
        return Err(Reason::NotVacant);
    };
    let Some(table) = memory.showing(caller.top, at, page) else {
        return Err(Reason::NotVacant);
    };
    Ok(table)
}

// A page that the caller holds, and sees at a place, is spare, and seen no more.
pub fn shrink(memory: &mut [u64], caller: Caller, page: u64, place: Place) -> Result<(), Reason>
    requires { (Sized memory.old) × (IsThere memory.old caller) }
    ensures { Taken (shrink_checks memory.old caller page (place_of place)) memory.old
        (shrunk memory.old caller page (place_of place)) memory.new result }
{
    let table = may_shrink(&Memory::of(memory), caller, page, place)?;
    pages::put_slot(memory, table, place.slot, Slot::Nothing);
    full_pages::put_record(memory, page, Record::Spare { cell: caller.cell });
    Ok(())
}

// Whether a spare page of the caller may be a table, at a place of its top table.
fn may_extend(memory: &Memory<'_>, caller: Caller, page: u64, index: u64) -> Result<(), Reason>
    requires { IsThere memory.now caller }
    ensures { Checked (extend_checks memory.now caller page index) (λ _. (page < slice_index memory.now 0) × (index
        < 256)) result }
{
    if index >= 256 {
        return Err(Reason::NotVacant);
    }
    if !owns_spare(memory, caller, page) {
        return Err(Reason::NotThere);
    }
    let None = memory.table_of(caller.top, index) else {
        return Err(Reason::PlaceInUse);
    };
    Ok(())
}

// A spare page of the caller becomes an empty table.
pub fn extend(memory: &mut [u64], caller: Caller, page: u64, index: u64) -> Result<(), Reason>
    requires { (Sized memory.old) × (IsThere memory.old caller) }
    ensures { Taken (extend_checks memory.old caller page index) memory.old (extended memory.old caller page index) memory.new result }
{
    may_extend(&Memory::of(memory), caller, page, index)?;
    building::become_table(memory, page, caller.cell, caller.top, index);
    Ok(())
}
