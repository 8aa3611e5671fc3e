// Pages that a cell holds.
ghost use Rattle.std.specs.Prelude.{◌≡◌, ◌*◌, ◌<◌, true, length, IfSome, slice_index};
ghost use Rattle.fields.specs.Shapes.{place_of};
ghost use Rattle.pages.specs.Rows.{HasPage};
ghost use Rattle.full_pages.specs.Meaning.{Sized};
ghost use Rattle.pages.specs.Flat.{HasWords, page_put};
ghost use Rattle.lookups.specs.Outcomes.{Checked, Taken};
ghost use Rattle.building.specs.Checks.{hold_checks, source_there};
ghost use Rattle.building.specs.Made.{table_for, made_held, source_words, held_measure, held_memory, held_pages};

use crate::free::free_page;
use answers::Reason;
use fields::Place;
use lookups::{InRange, Memory};
use pages::{Phase, Record, Slot};
use sha256::Measure;

// Whether an open page is there, or none is asked for.
fn may_copy(memory: &Memory<'_>, source: Option<u64>) -> bool
    ensures { result ≡ source_there memory.now source }
{
    let opens = memory.opens();
    source.is_none_or(|open| open < opens)
}

// Whether a cell may hold a page at a place; hands on the table that the place is in.
fn may_hold(
    memory: &Memory<'_>,
    page: u64,
    cell: u64,
    at: InRange,
    source: Option<u64>,
) -> Result<u64, Reason>
    ensures { Checked (hold_checks memory.now page cell (place_of at.place) source)
        (λ table. (table ≡ table_for memory.now cell (place_of at.place)) × (table < slice_index memory.now 0)
        × (page < slice_index memory.now 0)
        × (cell < slice_index memory.now 0) × (source_there memory.now source ≡ true)) result }
{
    let Some(has) = memory.cell_of(cell) else {
        return Err(Reason::NoCell);
    };
    let Phase::Building = has.phase else {
        return Err(Reason::NotBuilding);
    };
    let Some(table) = memory.vacant(has.top, at) else {
        return Err(Reason::NotVacant);
    };
    if !may_copy(memory, source) {
        return Err(Reason::NotThere);
    }
    free_page(memory, page)?;
    Ok(table)
}

// A page becomes one that a cell holds, and sees at a place of a table.
pub fn become_held(memory: &mut [u64], page: u64, cell: u64, table: u64, place: Place)
    requires { (HasPage memory.old page) × ((HasPage memory.old table) × ((page < 4096) × (place.slot < 1024))) }
    ensures { memory.new ≡ made_held memory.old page cell table (place_of place) }
{
    full_pages::put_record(memory, page, Record::Held { cell });
    pages::put_slot(
        memory,
        table,
        place.slot,
        Slot::Closed {
            page,
            write: place.write,
            run: place.run,
        },
    );
}

// A closed page gets the words of an open one, or zeros.
fn fill(closed: &mut [u32], page: u64, open: &[u32], source: Option<u64>)
    requires { (HasWords closed.old page) × (IfSome source (HasWords «open».now)) }
    ensures { closed.new ≡ page_put closed.old page (source_words «open».now source) }
{
    match source {
        None => pages::zero_page(closed, page),
        Some(source) => pages::copy_page(closed, page, open, source),
    }
}

// What was measured of a cell, and then a held page: 4, its place, and its words.
fn measured(memory: &[u64], cell: u64, at: InRange, words: &[u32]) -> Measure
    requires { (HasPage memory.now cell) × (length words.now ≡ 1024) }
    ensures { result ≡ held_measure memory.now cell (place_of at.place) words.now }
{
    pages::measure_at(memory, cell)
        .two_words(4, pages::place_word(at.place))
        .extend(words)
}

// A cell holds a page, with the words of an open one, or zeros, and sees it at a place.
pub fn hold(
    memory: &mut [u64],
    closed: &mut [u32],
    open: &[u32],
    page: u64,
    cell: u64,
    at: InRange,
    source: Option<u64>,
) -> Result<(), Reason>
    requires sized { Sized memory.old }
    requires closed_len { (length closed.old ≡ slice_index memory.old 0 * 1024) × (length «open».now ≡ slice_index memory.old 1 * 1024) }
    ensures memory { Taken (hold_checks memory.old page cell (place_of at.place) source) memory.old
        (held_memory memory.old «open».now page cell (place_of at.place) source) memory.new result }
    ensures closed { Taken (hold_checks memory.old page cell (place_of at.place) source) closed.old
        (held_pages closed.old «open».now page source) closed.new result }
{
    let table = may_hold(&Memory::of(memory), page, cell, at, source)?;
    fill(closed, page, open, source);
    let measure = measured(memory, cell, at, pages::page_at(closed, page));
    become_held(memory, page, cell, table, at.place);
    pages::put_measure(memory, cell, measure);
    Ok(())
}
