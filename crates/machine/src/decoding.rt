// Words as instructions.
use crate::values::{Instruction, When};

// A number that says of no jump when it is taken.
#[derive(Clone, Copy)]
pub struct UnknownWhen(pub u32);

impl TryFrom<u32> for When {
    type Error = UnknownWhen;

    ghost use Rattle.machine.specs.Instructions.{Whens};

    ghost try_from_gives = { Whens };

    fn try_from(number: u32) -> Result<Self, UnknownWhen> {
        match number {
            0 => Ok(When::Always),
            1 => Ok(When::Less),
            2 => Ok(When::Equal),
            3 => Ok(When::Greater),
            4 => Ok(When::Unequal),
            _ => Err(UnknownWhen(number)),
        }
    }
}

impl From<u32> for Instruction {
    ghost use Rattle.std.specs.Prelude.{◌≡◌};
    ghost use Rattle.machine.specs.Instructions.{decoded};

    ghost from_gives = { λ word instruction. instruction ≡ decoded word };

    fn from(word: u32) -> Self {
        let [kind, a, b, c] = word.to_be_bytes().map(u32::from);
        let number = word % (1 << 16);
        match kind {
            1 => Instruction::Set { to: a, number },
            2 => Instruction::High { to: a, number },
            3 => Instruction::Move { to: a, from: b },
            4 => Instruction::Add {
                to: a,
                left: b,
                right: c,
            },
            5 => Instruction::Subtract {
                to: a,
                left: b,
                right: c,
            },
            6 => Instruction::Load {
                to: a,
                base: b,
                words: c,
            },
            7 => Instruction::Store {
                from: a,
                base: b,
                words: c,
            },
            8 => Instruction::Compare { left: a, right: b },
            9 => When::try_from(a).map_or(
                Instruction::Unknown,
                |when| Instruction::Jump {
                    when,
                    words: number,
                },
            ),
            10 => Instruction::Go { to: a },
            11 => Instruction::Ask { call: a },
            _ => Instruction::Unknown,
        }
    }
}
