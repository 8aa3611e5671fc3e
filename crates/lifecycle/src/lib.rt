// The calls by which the system seals and stops cells, and takes pages back.
#![tactic(auto)]

ghost use Rattle.std.specs.Prelude.{◌≡◌, ◌<◌, ◌&&◌, ◌||◌, is_some, slice_index};
ghost use Rattle.model.specs.Pages.{sealed, stopped};
ghost use Rattle.full_pages.specs.Meaning.{Sized, cleared};
ghost use Rattle.lookups.specs.Lookups.{spare_in, cell_of, is_sealed, is_stopped};
ghost use Rattle.lookups.specs.Outcomes.{Checked, Taken};
ghost use Rattle.lifecycle.specs.Checks.{remove_checks, seal_checks, stop_checks};
ghost use Rattle.lifecycle.specs.Made.{in_phase};

use answers::Reason;
use lookups::Memory;
use pages::{Phase, Record};

// Whether a page may be taken from the cell that it is a part of: that is stopped, or sealed, and the page is spare.
fn may_go(memory: &Memory<'_>, page: Record, owner: u64) -> bool
    ensures { result ≡ (is_stopped (cell_of memory.now owner) || (is_sealed (cell_of memory.now owner) && is_some
        (spare_in page))) }
{
    let Some(cell) = memory.cell_of(owner) else {
        return false;
    };
    match cell.phase {
        Phase::Building => false,
        Phase::Sealed => matches!(page, Record::Spare { .. }),
        Phase::Stopped => true,
    }
}

// Whether a page may be removed.
fn may_remove(memory: &Memory<'_>, page: u64) -> Result<(), Reason>
    ensures { Checked (remove_checks memory.now page) (λ _. page < slice_index memory.now 0) result }
{
    if page >= memory.pages() {
        return Err(Reason::NotThere);
    }
    let is = memory.record_of(page);
    if matches!(is, Record::Cell { .. }) && memory.has_parts(page) {
        return Err(Reason::InUse);
    }
    let Some(owner) = lookups::part_of(is) else {
        return Ok(());
    };
    if !may_go(memory, is, owner) {
        return Err(Reason::NotStopped);
    }
    Ok(())
}

// Removes a page: it is free. What words it has is left as it is.
pub fn remove(memory: &mut [u64], page: u64) -> Result<(), Reason>
    requires { Sized memory.old }
    ensures { Taken (remove_checks memory.old page) memory.old (cleared memory.old page) memory.new result }
{
    may_remove(&Memory::of(memory), page)?;
    full_pages::let_go(memory, page);
    Ok(())
}

// Seals a cell: it is built, and its threads may run.
pub fn seal(memory: &mut [u64], cell: u64) -> Result<(), Reason>
    requires { Sized memory.old }
    ensures { Taken (seal_checks memory.old cell) memory.old (in_phase memory.old cell sealed) memory.new result }
{
    let Some(has) = Memory::of(memory).cell_of(cell) else {
        return Err(Reason::NoCell);
    };
    let Phase::Building = has.phase else {
        return Err(Reason::NotBuilding);
    };
    pages::put_phase(memory, cell, Phase::Sealed);
    Ok(())
}

// Stops a cell: it runs no more, and may be taken apart.
pub fn stop(memory: &mut [u64], cell: u64) -> Result<(), Reason>
    requires { Sized memory.old }
    ensures { Taken (stop_checks memory.old cell) memory.old (in_phase memory.old cell stopped) memory.new result }
{
    let Some(_) = Memory::of(memory).cell_of(cell) else {
        return Err(Reason::NoCell);
    };
    pages::put_phase(memory, cell, Phase::Stopped);
    Ok(())
}
