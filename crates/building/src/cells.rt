// Cells, their threads, and spare pages for them.
ghost use Rattle.std.specs.Prelude.{◌<◌, slice_index, slice_index_or};
ghost use Rattle.full_pages.specs.Meaning.{Sized};
ghost use Rattle.lookups.specs.Outcomes.{Checked, Taken};
ghost use Rattle.building.specs.Checks.{make_checks, start_checks, give_checks};
ghost use Rattle.building.specs.Made.{made_cell, made_thread, given};

use crate::free::free_page;
use answers::Reason;
use lookups::Memory;
use pages::{Phase, Record};
use sha256::Measure;

// Whether a cell may be made of two pages.
fn may_make(memory: &Memory<'_>, first: u64, top: u64) -> Result<(), Reason>
    ensures { Checked (make_checks memory.now first top) (λ _. (first < slice_index memory.now 0) × (top < slice_index_or
        memory.now 0 0)) result }
{
    let pages = memory.pages();
    if first >= pages || top >= pages || first == top {
        return Err(Reason::NotThere);
    }
    let Record::Free = memory.record_of(first) else {
        return Err(Reason::InUse);
    };
    let Record::Free = memory.record_of(top) else {
        return Err(Reason::InUse);
    };
    Ok(())
}

// Makes a cell of its first page and its top table's.
pub fn new_cell(memory: &mut [u64], first: u64, top: u64) -> Result<(), Reason>
    requires { Sized memory.old }
    ensures { Taken (make_checks memory.old first top) memory.old (made_cell memory.old first top)
        memory.new result }
{
    may_make(&Memory::of(memory), first, top)?;
    full_pages::put_record(
        memory,
        first,
        Record::Cell {
            top,
            phase: Phase::Building,
        },
    );
    pages::put_measure(memory, first, Measure::new());
    full_pages::put_record(memory, top, Record::Top { cell: first });
    Ok(())
}

// Whether a page may be a thread of a cell.
fn may_start(memory: &Memory<'_>, page: u64, cell: u64) -> Result<(), Reason>
    ensures { Checked (start_checks memory.now page cell) (λ _. (page < slice_index memory.now 0) × (cell < slice_index_or
        memory.now 0 0)) result }
{
    let Some(has) = memory.cell_of(cell) else {
        return Err(Reason::NoCell);
    };
    free_page(memory, page)?;
    match has.phase {
        Phase::Building => Ok(()),
        Phase::Sealed => Err(Reason::NotBuilding),
        Phase::Stopped => Err(Reason::Stopped),
    }
}

// Makes a page a thread of a cell, which starts at an address; measured are 2 and where it starts.
pub fn new_thread(memory: &mut [u64], page: u64, cell: u64, start: u32) -> Result<(), Reason>
    requires { Sized memory.old }
    ensures { Taken (start_checks memory.old page cell) memory.old (made_thread memory.old page cell start) memory.new result }
{
    may_start(&Memory::of(memory), page, cell)?;
    let measure = pages::measure_at(memory, cell).two_words(2, start);
    full_pages::put_record(
        memory,
        page,
        Record::Thread {
            cell,
            start: u64::from(start),
            under_way: false,
        },
    );
    pages::put_measure(memory, cell, measure);
    Ok(())
}

// Whether a page may be given to a cell.
fn may_give(memory: &Memory<'_>, page: u64, cell: u64) -> Result<(), Reason>
    ensures { Checked (give_checks memory.now page cell) (λ _. page < slice_index memory.now 0) result }
{
    let Some(cell) = memory.cell_of(cell) else {
        return Err(Reason::NoCell);
    };
    free_page(memory, page)?;
    if let Phase::Stopped = cell.phase {
        return Err(Reason::Stopped);
    }
    Ok(())
}

// Gives a cell a spare page.
pub fn give(memory: &mut [u64], page: u64, cell: u64) -> Result<(), Reason>
    requires { Sized memory.old }
    ensures { Taken (give_checks memory.old page cell) memory.old (given memory.old page cell) memory.new result }
{
    may_give(&Memory::of(memory), page, cell)?;
    full_pages::put_record(memory, page, Record::Spare { cell });
    Ok(())
}
