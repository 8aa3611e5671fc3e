// One step, and so many of them.
ghost use Rattle.std.specs.Prelude.{◌≡◌, ◌*◌, length, Some, None, MatchOption, slice_index};
ghost use Rattle.std.specs.Option.{option_map};
ghost use Rattle.std.specs.Ordering.{ordering_index};
ghost use Rattle.model.specs.Calls.{by_cell, fault};
ghost use Rattle.fields.specs.Tables.{find};
ghost use Rattle.calls.specs.Kinds.{kind_number};
ghost use Rattle.calls.specs.Meaning.{call_of};
ghost use Rattle.calls.specs.Table.{table};
ghost use Rattle.machine.specs.Held.{words_of, sees, Whole, Kept};
ghost use Rattle.machine.specs.Lent.{Fit};
ghost use Rattle.machine.specs.Came.{left, ended_with, Comes, Runs, Refines};
ghost use Rattle.machine.specs.Faults.{kind_number as fault_number};
ghost use Rattle.machine.specs.Instructions.{register, with_register, order, holds, asked, jumped, loaded, stored, executed, made_up};

use crate::seeing::Lent;
use crate::values::{FaultKind, Instruction, Ran, Stepped, When};
use calls::{Call, Kind};
use fields::{Numbers, Registers};
use std::cmp::Ordering;
use std::ops::ControlFlow::{Break, Continue};

// The register that has the address of the next instruction.
const NEXT: u32 = 15;

// The one that has what the last comparison came to.
const COMPARED: usize = 16;

// The register that a field names, by its low four bits; and another word put there.
fn get(registers: Registers, index: u32) -> u32
    ensures { result ≡ register registers.words index }
{
    registers.words[index as usize % 16]
}

pub fn put(registers: Registers, index: u32, word: u32) -> Registers
    ensures { result.words ≡ with_register registers.words index word }
{
    let mut words = registers.words;
    words[index as usize % 16] = word;
    Registers { words }
}

// The number that register 16 keeps of a comparison.
fn kept(ordering: Ordering) -> u32
    ensures { result ≡ ordering_index ordering }
{
    match ordering {
        Ordering::Less => 0,
        Ordering::Equal => 1,
        Ordering::Greater => 2,
    }
}

// What register 16 is after a comparison.
fn compare(left: u32, right: u32) -> u32
    ensures { result ≡ order left right }
{
    kept(left.cmp(&right))
}

// A thread goes on with any words, so register 16 may hold a number that no comparison comes to: it is no Ordering.
fn taken(when: When, number: u32) -> bool
    ensures { result ≡ holds when number }
{
    match when {
        When::Always => true,
        When::Less => number == kept(Ordering::Less),
        When::Equal => number == kept(Ordering::Equal),
        When::Greater => number == kept(Ordering::Greater),
        When::Unequal => number != kept(Ordering::Equal),
    }
}

// A jump is so many words forth or back, counted from 32,768, from the instruction behind it.
fn jumped(registers: Registers, words: u32) -> Registers
    ensures { result.words ≡ jumped registers.words words }
{
    let bytes = words.wrapping_sub(32768).wrapping_mul(4);
    put(registers, NEXT, get(registers, NEXT).wrapping_add(bytes))
}

// The kind of call that has a number, if one does.
fn kind_of(number: u32) -> Option<Kind>
    ensures { MatchOption result (find number table ≡ None) (λ kind. kind_number kind ≡ number) }
{
    let number = u8::try_from(number).ok()?;
    Kind::try_from(number).ok()
}

// The call that a program asks for, with what registers 0 and 1 have; none but these are known.
fn ask(call: u32, registers: Registers, chance: u32) -> Call<'static>
    ensures { call_of result ≡ by_cell (asked call registers.words chance) }
{
    let first = u64::from(registers.words[0]);
    let second = registers.words[1];
    match kind_of(call) {
        Some(Kind::Leave) => Call::Leave { number: first },
        Some(Kind::Fault) => Call::Fault { kind: first },
        Some(Kind::Grow) => Call::Grow {
            page: first,
            place: pages::place_from(second),
        },
        Some(Kind::Shrink) => Call::Shrink {
            page: first,
            place: pages::place_from(second),
        },
        Some(Kind::Extend) => Call::Extend {
            page: first,
            index: u64::from(second),
        },
        Some(Kind::Who) => Call::Who,
        Some(Kind::Draw) => Call::Draw {
            number: u64::from(chance),
        },
        _ => Call::Fault {
            kind: FaultKind::NoCall.number(),
        },
    }
}

// A step that ends with a fault.
fn faults(registers: Registers, kind: FaultKind) -> Stepped
    ensures { (left result ≡ registers) × (option_map call_of (ended_with result) ≡ Some (by_cell (fault (fault_number kind)))) }
{
    Break(Ran {
        registers,
        ends: Call::Fault {
            kind: kind.number(),
        },
    })
}

// A word is loaded into a register.
fn load(lent: &Lent<'_>, registers: Registers, to: u32, address: u32) -> Stepped
    requires { Whole lent.now }
    ensures { Comes lent.now lent.now (loaded registers.words to (sees lent.now address)) result }
{
    match lent.look(address) {
        Some(seen) => Continue(put(registers, to, seen.word)),
        None => faults(registers, FaultKind::NotSeen),
    }
}

// A register is stored as a word.
fn save(lent: &mut Lent<'_>, registers: Registers, address: u32, value: u32) -> Stepped
    requires { Whole lent.old }
    ensures { Comes lent.old lent.new (stored registers.words address value (sees lent.old address)) result }
{
    if lent.store(address, value) {
        Continue(registers)
    } else {
        faults(registers, FaultKind::NotWritten)
    }
}

// What an instruction does.
fn execute(
    lent: &mut Lent<'_>,
    instruction: Instruction,
    registers: Registers,
    chance: u32,
) -> Stepped
    requires { Whole lent.old }
    ensures { Comes lent.old lent.new (executed instruction registers.words (sees lent.old) chance) result }
{
    match instruction {
        Instruction::Unknown => faults(registers, FaultKind::NoInstruction),
        Instruction::Set { to, number } => Continue(put(registers, to, number)),
        Instruction::High { to, number } => {
            let word = number
                .wrapping_mul(1 << 16)
                .wrapping_add(get(registers, to) % (1 << 16));
            Continue(put(registers, to, word))
        }
        Instruction::Move { to, from } => Continue(put(registers, to, get(registers, from))),
        Instruction::Add { to, left, right } => {
            let sum = get(registers, left).wrapping_add(get(registers, right));
            Continue(put(registers, to, sum))
        }
        Instruction::Subtract { to, left, right } => {
            let rest = get(registers, left).wrapping_sub(get(registers, right));
            Continue(put(registers, to, rest))
        }
        Instruction::Load { to, base, words } => {
            let address = get(registers, base).wrapping_add(words.wrapping_mul(4));
            load(lent, registers, to, address)
        }
        Instruction::Store { from, base, words } => {
            let address = get(registers, base).wrapping_add(words.wrapping_mul(4));
            let value = get(registers, from);
            save(lent, registers, address, value)
        }
        Instruction::Compare { left, right } => {
            let mut words = registers.words;
            words[COMPARED] = compare(get(registers, left), get(registers, right));
            Continue(Registers { words })
        }
        Instruction::Jump { when, words } => {
            if !taken(when, registers.words[COMPARED]) {
                return Continue(registers);
            }
            Continue(jumped(registers, words))
        }
        Instruction::Go { to } => Continue(put(registers, NEXT, get(registers, to))),
        Instruction::Ask { call } => Break(Ran {
            registers,
            ends: ask(call, registers, chance),
        }),
    }
}

// One step: the word where it is, if that may be run, is an instruction. Registers and chance are passed by themselves, as the
// definitions' processor has them: a struct of the two would be made anew at each step.
fn step(lent: &mut Lent<'_>, registers: Registers, chance: u32) -> Stepped
    requires { Whole lent.old }
    ensures { Comes lent.old lent.new (made_up registers.words (sees lent.old) chance) result }
{
    let at = get(registers, NEXT);
    match lent.look(at) {
        Some(seen) if seen.run => {
            let instruction = Instruction::from(seen.word);
            let next = put(registers, NEXT, at.wrapping_add(4));
            execute(lent, instruction, next, chance)
        }
        _ => faults(registers, FaultKind::NotRun),
    }
}

// So many steps at most, after which it is interrupted.
fn go(lent: &mut Lent<'_>, registers: Registers, steps: u32, chance: u32) -> Ran
    requires { Whole lent.old }
    ensures runs { Runs lent.old.memory.now lent.old.top (words_of lent.old) (words_of lent.new) steps chance registers.words result }
    ensures kept { Kept lent.old lent.new }
{
    let mut registers = registers;
    for _done in 0..steps {
        match step(lent, registers, chance) {
            Continue(next) => registers = next,
            Break(ran) => return ran,
        }
    }
    Ran {
        registers,
        ends: Call::Interrupt {
            registers: Numbers::Registers(registers),
        },
    }
}

// Runs the thread that has these registers, by the tables of the cell whose top table is on a page, for so many steps at most, after
// which it is interrupted. It works in place, on the lent words. REFINEMENT: where events made what is lent, it is the definitions'
// run of this machine.
pub fn run(
    memory: &[u64],
    closed: &mut [u32],
    open: &mut [u32],
    top: u64,
    registers: Registers,
    steps: u32,
    chance: u32,
) -> Ran
    requires fit { Fit memory.now top }
    requires closed_len { (length closed.old ≡ slice_index memory.now 0 * 1024) × (length «open».old ≡ slice_index memory.now 1 * 1024) }
    ensures runs { Runs memory.now top (record { closed_pages = closed.old; open_pages = «open».old })
        (record { closed_pages = closed.new; open_pages = «open».new }) steps chance registers.words result }
    ensures refines { Refines memory.now top (record {
      closed_pages = closed.old;
      open_pages = «open».old;
    }) (record { closed_pages = closed.new; open_pages = «open».new }) steps chance registers.words
        result }
{
    let mut lent = Lent {
        memory,
        top,
        closed,
        open,
    };
    go(&mut lent, registers, steps, chance)
}
