// What stands in the memory, written.
ghost use Rattle.std.specs.Prelude.{◌≡◌, ◌+◌, ◌*◌, ◌^◌, ◌<◌, ◌≤◌, length, replicate};
ghost use Rattle.model.specs.Pages.{free as free_entry, phase_number};
ghost use Rattle.pages.specs.Layout.{row};
ghost use Rattle.pages.specs.Packing.{some_number};
ghost use Rattle.pages.specs.Rows.{HasHeader, HasPage, number_put, numbers_put, row_put, slot_put, table_put, thread_put};
ghost use Rattle.pages.specs.Rows.{running_put, new_memory};
ghost use Rattle.pages.specs.Meaning.{slot_of, Packs, phase_of, beginning, fresh, measure_words};

use crate::packing::pack;
use crate::values::{LIST, Phase, RECORD, Record, Slot, start_of};
use fields::Registers;
use sha256::Measure;

// Lays out the memory of a monitor whose pages are all free, and where no thread runs.
pub fn lay_out(memory: &mut [u64], pages: u64, opens: u64)
    requires { length memory.old ≡ 256 + pages * 2048 }
    ensures { memory.new ≡ new_memory pages opens }
{
    memory.fill(0);
    memory[0] = pages;
    memory[1] = opens;
}

// Puts a number at an index of a page's record.
fn put_number(memory: &mut [u64], page: u64, index: usize, number: u64)
    requires { (HasPage memory.old page) × (index < 2048) }
    ensures { memory.new ≡ number_put memory.old page index number }
{
    memory[start_of(page) + index] = number;
}

// Puts numbers from an index of a page's record on.
pub fn put_numbers(memory: &mut [u64], page: u64, index: usize, numbers: &[u64])
    requires { (HasPage memory.old page) × (index + length numbers.now ≤ 2048) }
    ensures { memory.new ≡ numbers_put memory.old page index numbers.now }
{
    let start = start_of(page) + index;
    memory[start..start + numbers.len()].copy_from_slice(numbers);
}

// Puts what a slot of a table has.
pub fn put_slot(memory: &mut [u64], table: u64, slot: u64, value: Slot)
    requires { (HasPage memory.old table) × ((slot < 1024) × (Packs value)) }
    ensures { memory.new ≡ slot_put memory.old table slot (slot_of value) }
{
    put_number(memory, table, LIST + slot as usize, pack(value));
}

// Puts a table at a place of a top table.
pub fn put_table(memory: &mut [u64], top: u64, place: u64, table: u64)
    requires { (HasPage memory.old top) × ((place < 256) × (HasPage memory.old table)) }
    ensures { memory.new ≡ table_put memory.old top place table }
{
    put_number(memory, top, LIST + place as usize, table + 1);
}

// Puts how far a cell is.
pub fn put_phase(memory: &mut [u64], cell: u64, phase: Phase)
    requires { HasPage memory.old cell }
    ensures { memory.new ≡ number_put memory.old cell 3 (phase_number (phase_of phase)) }
{
    put_number(memory, cell, 3, u64::from(phase));
}

// Registers as numbers. By a loop: with `registers.words.map(u64::from)` a call that puts them took 99 nanoseconds in place of 26.
fn wide(registers: Registers) -> [u64; 17]
    ensures { result ≡ registers.words }
{
    let mut numbers = [0; 17];
    for i in 0..17 {
        numbers[i] = registers.words[i] as u64;
    }
    numbers
}

// Puts whether a thread is under way, and its registers.
pub fn put_thread(memory: &mut [u64], thread: u64, under_way: bool, registers: Registers)
    requires { HasPage memory.old thread }
    ensures { memory.new ≡ thread_put memory.old thread under_way registers.words }
{
    put_number(memory, thread, 3, under_way as u64);
    put_numbers(memory, thread, LIST, &wide(registers));
}

// Puts what was measured of a cell.
pub fn put_measure(memory: &mut [u64], cell: u64, measure: Measure)
    requires { HasPage memory.old cell }
    ensures { memory.new ≡ numbers_put memory.old cell 4 (measure_words measure) }
{
    let hash = measure.hash;
    let numbers = [
        measure.blocks,
        hash.a as u64,
        hash.b as u64,
        hash.c as u64,
        hash.d as u64,
        hash.e as u64,
        hash.f as u64,
        hash.g as u64,
        hash.h as u64,
    ];
    put_numbers(memory, cell, LIST, &numbers);
}

// Puts the thread that runs from now on, if one does.
pub fn put_running(memory: &mut [u64], thread: Option<u64>)
    requires { (HasHeader memory.old) × (some_number thread < 2 ^ 64) }
    ensures { memory.new ≡ running_put memory.old thread }
{
    memory[8] = match thread {
        None => 0,
        Some(thread) => thread + 1,
    };
}

// Makes the first so many numbers of a page's record 0.
pub fn clear(memory: &mut [u64], page: u64, count: usize)
    requires { (HasPage memory.old page) × (count ≤ 2048) }
    ensures { memory.new ≡ numbers_put memory.old page 0 (replicate count 0) }
{
    let start = start_of(page);
    memory[start..start + count].fill(0);
}

// Lets a page go: it is free, and its record is zeros.
pub fn let_go(memory: &mut [u64], page: u64)
    requires { HasPage memory.old page }
    ensures { memory.new ≡ row_put memory.old page (row free_entry) }
{
    clear(memory, page, RECORD);
}

// Makes a page something: a cell with nothing measured, a thread with no registers, a table with nothing in it.
pub fn put_record(memory: &mut [u64], page: u64, new: Record)
    requires { HasPage memory.old page }
    ensures { memory.new ≡ row_put memory.old page (row (fresh new)) }
{
    let_go(memory, page);
    put_numbers(memory, page, 0, &new.beginning());
    if let Record::Cell { .. } = new {
        put_measure(memory, page, Measure::new());
    }
}
