// Threads that run: how they are entered and resumed, and how their runs end.
#![tactic(auto)]

ghost use Rattle.std.specs.Prelude.{◌≡◌, ◌%◌, ◌<◌, true, false, cond, [], ◌∷◌, ◌++◌, replicate, None};
ghost use Rattle.sha256.specs.Measures.{name_words};
ghost use Rattle.full_pages.specs.Meaning.{Sized};
ghost use Rattle.pages.specs.Meaning.{measure_in};
ghost use Rattle.lookups.specs.Lookups.{IsThere, cell_of, is_sealed};
ghost use Rattle.running.specs.Checks.{enter_checks, resume_checks};
ghost use Rattle.running.specs.Made.{first_registers, kept_registers, Entered, run_ended};

mod registers;

use answers::Reason;
use fields::Registers;
use lookups::{Caller, Cell, Memory, Thread};
use pages::Phase;
pub use registers::registers_from;

// What is entered: the page of the cell's top table, and the registers.
#[derive(Clone, Copy)]
pub struct Entry {
    pub top: u64,
    pub registers: Registers,
}

const NO_REGISTERS: Registers = Registers { words: [0; 17] };

// The cell of a thread, if it is sealed.
fn sealed_cell(memory: &Memory<'_>, thread: Thread) -> Option<Cell>
    ensures { result ≡ cond (is_sealed (cell_of memory.now thread.cell)) (cell_of memory.now thread.cell)
        None }
{
    let cell = memory.cell_of(thread.cell)?;
    let Phase::Sealed = cell.phase else {
        return None;
    };
    Some(cell)
}

// The registers of a thread that starts at an address, with three numbers.
fn first_registers(start: u64, x: u32, y: u32, z: u32) -> Registers
    ensures { result.words ≡ x ∷ (y ∷ (z ∷ (replicate 12 0 ++ (start % 4294967296 ∷ (0 ∷ []))))) }
{
    let mut words = [0; 17];
    words[0] = x;
    words[1] = y;
    words[2] = z;
    words[15] = (start & 0xffff_ffff) as u32;
    Registers { words }
}

// Enters a thread, with three numbers.
pub fn enter(memory: &mut [u64], thread: u64, x: u32, y: u32, z: u32) -> Result<Entry, Reason>
    requires { Sized memory.old }
    ensures { Entered (enter_checks memory.old thread) memory.old thread (first_registers memory.old thread x y z) memory.new result }
{
    let seen = Memory::of(memory);
    let Some(has) = seen.thread_of(thread) else {
        return Err(Reason::NotThere);
    };
    let Some(cell) = sealed_cell(&seen, has) else {
        return Err(Reason::NotSealed);
    };
    if has.under_way {
        return Err(Reason::UnderWay);
    }
    pages::put_running(memory, Some(thread));
    Ok(Entry {
        top: cell.top,
        registers: first_registers(has.start, x, y, z),
    })
}

// Resumes a thread that was interrupted, with the registers that it had. Its checks stand in line, in their order, as those of entering do.
pub fn resume(memory: &mut [u64], thread: u64) -> Result<Entry, Reason>
    requires { Sized memory.old }
    ensures { Entered (resume_checks memory.old thread) memory.old thread (kept_registers memory.old thread) memory.new result }
{
    let seen = Memory::of(memory);
    let Some(has) = seen.thread_of(thread) else {
        return Err(Reason::NotThere);
    };
    let Some(cell) = sealed_cell(&seen, has) else {
        return Err(Reason::NotSealed);
    };
    if !has.under_way {
        return Err(Reason::NotUnderWay);
    }
    let registers = pages::registers_at(memory, thread);
    pages::put_running(memory, Some(thread));
    Ok(Entry {
        top: cell.top,
        registers,
    })
}

// A thread leaves, or had a fault: nothing is kept of its registers, and none runs.
pub fn leave(memory: &mut [u64], caller: Caller)
    requires { (Sized memory.old) × (IsThere memory.old caller) }
    ensures { memory.new ≡ run_ended memory.old caller.thread false (replicate 17 0) }
{
    pages::put_thread(memory, caller.thread, false, NO_REGISTERS);
    pages::put_running(memory, None);
}

// A thread is interrupted: its registers are kept, it is under way, and none runs.
pub fn interrupt(memory: &mut [u64], caller: Caller, registers: Registers)
    requires { (Sized memory.old) × (IsThere memory.old caller) }
    ensures { memory.new ≡ run_ended memory.old caller.thread true registers.words }
{
    pages::put_thread(memory, caller.thread, true, registers);
    pages::put_running(memory, None);
}

// The name of the cell that asks, as eight words.
pub fn who(memory: &Memory<'_>, caller: Caller) -> [u32; 8]
    requires { IsThere memory.now caller }
    ensures { result ≡ name_words (measure_in memory.now caller.cell) }
{
    memory.measure_at(caller.cell).name()
}
