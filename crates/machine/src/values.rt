// What the made-up processor works with.
ghost use Rattle.std.specs.Prelude.{◌≡◌};
ghost use Rattle.machine.specs.Faults.{kind_number};

use calls::Call;
use fields::Registers;
use std::ops::ControlFlow;

// When a jump is taken, by what the last comparison came to.
#[derive(Clone, Copy)]
pub enum When {
    Always,
    Less,
    Equal,
    Greater,
    Unequal,
}

// An instruction, with its registers and numbers.
#[derive(Clone, Copy)]
pub enum Instruction {
    Unknown,
    Set { to: u32, number: u32 },
    High { to: u32, number: u32 },
    Move { to: u32, from: u32 },
    Add { to: u32, left: u32, right: u32 },
    Subtract { to: u32, left: u32, right: u32 },
    Load { to: u32, base: u32, words: u32 },
    Store { from: u32, base: u32, words: u32 },
    Compare { left: u32, right: u32 },
    Jump { when: When, words: u32 },
    Go { to: u32 },
    Ask { call: u32 },
}

// A word that is seen at an address, and whether it may be written, and run.
#[derive(Clone, Copy)]
pub struct Seen {
    pub write: bool,
    pub run: bool,
    pub word: u32,
}

// Why a step ends with a fault.
#[derive(Clone, Copy)]
pub enum FaultKind {
    NotRun,
    NotSeen,
    NotWritten,
    NoInstruction,
    NoCall,
}

impl FaultKind {
    pub fn number(self) -> u64
        ensures { result ≡ kind_number self }
    {
        match self {
            FaultKind::NotRun => 1,
            FaultKind::NotSeen => 2,
            FaultKind::NotWritten => 3,
            FaultKind::NoInstruction => 4,
            FaultKind::NoCall => 5,
        }
    }
}

// What a run comes to: the registers, and the call that ended it.
#[derive(Clone, Copy)]
pub struct Ran {
    pub registers: Registers,
    pub ends: Call<'static>,
}

// A step goes on with registers, or ends the run.
pub type Stepped = ControlFlow<Ran, Registers>;
