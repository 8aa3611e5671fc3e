// How a thread goes on that was told something.
ghost use Rattle.std.specs.Prelude.{◌≡◌};
ghost use Rattle.fields.specs.Shapes.{numbers_of};
ghost use Rattle.machine.specs.Came.{goes_on};
ghost use Rattle.machine.specs.Instructions.{low};
ghost use Rattle.machine.specs.Promises.{GoodEverywhere};

use crate::stepping::put;
use fields::{Numbers, Registers};

// The low 32 bits of a number.
fn low(number: u64) -> u32
    ensures { result ≡ low number }
{
    (number & 0xffff_ffff) as u32
}

// The registers with which a thread goes on: the error, or 0, in register 0, and up to eight numbers from register 1 on.
pub fn go_on(registers: Registers, error: u64, numbers: Numbers<'_>) -> Registers
    ensures { result.words ≡ goes_on registers.words error (numbers_of numbers.entry) }
{
    let mut registers = put(registers, 0, low(error));
    for (index, number) in (1..9).zip(numbers) {
        registers = put(registers, index, low(number));
    }
    registers
}

// The machine is a good one, so the theorems hold of the worlds that it plays.
pub fn machine_is_good()
    ensures { GoodEverywhere }
{}
