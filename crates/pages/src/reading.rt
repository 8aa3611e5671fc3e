// What stands in the memory, read.
ghost use Rattle.std.specs.Prelude.{◌≡◌, ◌+◌, ◌*◌, ◌%◌, ◌<◌, ◌≤◌, slice_index};
ghost use Rattle.pages.specs.Rows.{HasHeader, HasPage, number_at, numbers_at, slot_in, table_in, running_in, low_words};
ghost use Rattle.pages.specs.Meaning.{slot_of, record_in, measure_in};

use crate::packing::unpack;
use crate::values::{LIST, Phase, Record, Slot, start_of};
use fields::Registers;
use sha256::{Hash, Measure};

// The number at an index of a page's record.
fn number(memory: &[u64], page: u64, index: usize) -> u64
    requires { (HasPage memory.now page) × (index < 2048) }
    ensures { result ≡ number_at memory.now page index }
{
    memory[start_of(page) + index]
}

// Numbers from an index of a page's record on.
fn numbers<const N: usize>(memory: &[u64], page: u64, index: usize) -> [u64; N]
    requires { (HasPage memory.now page) × (index + N ≤ 2048) }
    ensures { result ≡ numbers_at memory.now page index N }
{
    let start = start_of(page) + index;
    let mut numbers = [0; N];
    numbers.copy_from_slice(&memory[start..start + N]);
    numbers
}

// The low 32 bits of a number.
#[tactic(auto, using(std::proofs::lemmas::Nat::and_mask))]
fn low(number: u64) -> u32
    ensures { result ≡ number % 4294967296 }
{
    (number & 0xffff_ffff) as u32
}

// What a page is.
pub fn record_at(memory: &[u64], page: u64) -> Record
    requires { HasPage memory.now page }
    ensures { result ≡ record_in memory.now page }
{
    let [kind, cell, first, second] = numbers::<4>(memory, page, 0);
    match kind {
        0 => Record::Free,
        1 => Record::Cell {
            top: first,
            phase: Phase::from(second),
        },
        2 => Record::Thread {
            cell,
            start: first,
            under_way: second == 1,
        },
        3 => Record::Top { cell },
        4 => Record::Table { cell },
        5 => Record::Held { cell },
        _ => Record::Spare { cell },
    }
}

// What a slot of a table has.
pub fn slot_at(memory: &[u64], table: u64, slot: u64) -> Slot
    requires { (HasPage memory.now table) × (slot < 1024) }
    ensures { slot_of result ≡ slot_in memory.now table slot }
{
    unpack(number(memory, table, LIST + slot as usize))
}

// The table at a place of a top table, if there is one. A page that may be missing is kept as one more than its number, or 0.
pub fn table_at(memory: &[u64], top: u64, place: u64) -> Option<u64>
    requires { (HasPage memory.now top) × (place < 256) }
    ensures { result ≡ table_in memory.now top place }
{
    number(memory, top, LIST + place as usize).checked_sub(1)
}

// How many closed pages there are.
pub fn pages(memory: &[u64]) -> u64
    requires { HasHeader memory.now }
    ensures { result ≡ slice_index memory.now 0 }
{
    memory[0]
}

// How many open pages there are.
pub fn opens(memory: &[u64]) -> u64
    requires { HasHeader memory.now }
    ensures { result ≡ slice_index memory.now 1 }
{
    memory[1]
}

// The thread that runs, if one does.
pub fn running(memory: &[u64]) -> Option<u64>
    requires { HasHeader memory.now }
    ensures { result ≡ running_in memory.now }
{
    memory[8].checked_sub(1)
}

// A thread's registers. By a loop: with an array's `map` it took 25 nanoseconds in place of 14.
pub fn registers_at(memory: &[u64], thread: u64) -> Registers
    requires { HasPage memory.now thread }
    ensures { result.words ≡ low_words (numbers_at memory.now thread 4 17) }
{
    let mut words = [0; 17];
    for i in 0..17 {
        words[i] = low(number(memory, thread, LIST + i));
    }
    Registers { words }
}

// What was measured of a cell.
pub fn measure_at(memory: &[u64], cell: u64) -> Measure
    requires { HasPage memory.now cell }
    ensures { result ≡ measure_in memory.now cell }
{
    let [blocks, a, b, c, d, e, f, g, h] = numbers::<9>(memory, cell, LIST);
    Measure {
        hash: Hash {
            a: low(a),
            b: low(b),
            c: low(c),
            d: low(d),
            e: low(e),
            f: low(f),
            g: low(g),
            h: low(h),
        },
        blocks,
    }
}
