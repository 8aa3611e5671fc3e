// Tables, and open pages that a cell is shown.
ghost use Rattle.std.specs.Prelude.{◌≡◌, ◌<◌, slice_index};
ghost use Rattle.fields.specs.Shapes.{place_of};
ghost use Rattle.pages.specs.Rows.{HasPage};
ghost use Rattle.full_pages.specs.Meaning.{Sized};
ghost use Rattle.lookups.specs.Lookups.{cell_of, top_of};
ghost use Rattle.lookups.specs.Outcomes.{Checked, Taken};
ghost use Rattle.building.specs.Checks.{add_checks, show_checks};
ghost use Rattle.building.specs.Made.{made_table, table_for, shown};

use crate::free::free_page;
use answers::Reason;
use lookups::{InRange, Memory};
use pages::{Phase, Record, Slot};

// Whether a page may be a table of a cell, at a place of its top table; hands on the top table's page.
fn may_add(memory: &Memory<'_>, page: u64, cell: u64, index: u64) -> Result<u64, Reason>
    ensures { Checked (add_checks memory.now page cell index)
        (λ top. (top ≡ top_of (cell_of memory.now cell)) × (top < slice_index memory.now 0) × (page < slice_index memory.now 0)
        × (index < 256)) result }
{
    if index >= 256 {
        return Err(Reason::NotVacant);
    }
    let Some(cell) = memory.cell_of(cell) else {
        return Err(Reason::NoCell);
    };
    if let Phase::Stopped = cell.phase {
        return Err(Reason::Stopped);
    }
    let None = memory.table_of(cell.top, index) else {
        return Err(Reason::PlaceInUse);
    };
    free_page(memory, page)?;
    let Phase::Building = cell.phase else {
        return Err(Reason::NotBuilding);
    };
    Ok(cell.top)
}

// A page becomes an empty table of a cell, at a place of its top table.
pub fn become_table(memory: &mut [u64], page: u64, cell: u64, top: u64, index: u64)
    requires { (HasPage memory.old page) × ((HasPage memory.old top) × (index < 256)) }
    ensures { memory.new ≡ made_table memory.old page cell top index }
{
    full_pages::put_record(memory, page, Record::Table { cell });
    pages::put_table(memory, top, index, page);
}

// Makes a page a table of a cell.
pub fn new_table(memory: &mut [u64], page: u64, cell: u64, index: u64) -> Result<(), Reason>
    requires { Sized memory.old }
    ensures { Taken (add_checks memory.old page cell index) memory.old
        (made_table memory.old page cell (top_of (cell_of memory.old cell)) index) memory.new result }
{
    let top = may_add(&Memory::of(memory), page, cell, index)?;
    become_table(memory, page, cell, top, index);
    Ok(())
}

// Whether a cell may be shown an open page at a place; hands on the table that the place is in.
fn may_show(memory: &Memory<'_>, open: u64, cell: u64, at: InRange) -> Result<u64, Reason>
    ensures { Checked (show_checks memory.now «open» cell (place_of at.place))
        (λ table. (table ≡ table_for memory.now cell (place_of at.place)) × (table < slice_index memory.now 0)
        × («open» < slice_index memory.now 1)) result }
{
    let Some(cell) = memory.cell_of(cell) else {
        return Err(Reason::NoCell);
    };
    let Phase::Building = cell.phase else {
        return Err(Reason::NotBuilding);
    };
    let Some(table) = memory.vacant(cell.top, at) else {
        return Err(Reason::NotVacant);
    };
    if open >= memory.opens() {
        return Err(Reason::NotThere);
    }
    Ok(table)
}

// Shows a cell an open page, which is never run.
pub fn show(memory: &mut [u64], open: u64, cell: u64, at: InRange) -> Result<(), Reason>
    requires { Sized memory.old }
    ensures { Taken (show_checks memory.old «open» cell (place_of at.place)) memory.old
        (shown memory.old «open» cell (place_of at.place)) memory.new result }
{
    let table = may_show(&Memory::of(memory), open, cell, at)?;
    pages::put_slot(
        memory,
        table,
        at.place.slot,
        Slot::Opened {
            page: open,
            write: at.place.write,
        },
    );
    Ok(())
}
