// The kinds of calls.
ghost use Rattle.fields.specs.Tables.{Finds};
ghost use Rattle.calls.specs.Table.{table};
ghost use Rattle.calls.specs.Kinds.{kind_number};

use fields::{MessageKind, Shape, UnknownKind};

// By the system, up to `Resume`, and then by the cell that runs; each with the number that its bytes begin with.
#[derive(Clone, Copy, Debug, PartialEq, Eq)]
pub enum Kind {
    HowMany = 0,
    NewCell = 1,
    NewThread = 2,
    NewTable = 3,
    Hold = 4,
    Give = 5,
    Show = 6,
    Remove = 7,
    Seal = 8,
    Stop = 9,
    Enter = 10,
    Resume = 11,
    Leave = 20,
    Interrupt = 21,
    Fault = 22,
    Grow = 23,
    Shrink = 24,
    Extend = 25,
    Who = 26,
    Draw = 27,
}

impl TryFrom<u8> for Kind {
    type Error = UnknownKind;

    ghost try_from_gives = { Finds kind_number table };

    fn try_from(number: u8) -> Result<Kind, UnknownKind> {
        match number {
            0 => Ok(Kind::HowMany),
            1 => Ok(Kind::NewCell),
            2 => Ok(Kind::NewThread),
            3 => Ok(Kind::NewTable),
            4 => Ok(Kind::Hold),
            5 => Ok(Kind::Give),
            6 => Ok(Kind::Show),
            7 => Ok(Kind::Remove),
            8 => Ok(Kind::Seal),
            9 => Ok(Kind::Stop),
            10 => Ok(Kind::Enter),
            11 => Ok(Kind::Resume),
            20 => Ok(Kind::Leave),
            21 => Ok(Kind::Interrupt),
            22 => Ok(Kind::Fault),
            23 => Ok(Kind::Grow),
            24 => Ok(Kind::Shrink),
            25 => Ok(Kind::Extend),
            26 => Ok(Kind::Who),
            27 => Ok(Kind::Draw),
            _ => Err(UnknownKind(number)),
        }
    }
}

impl MessageKind for Kind {
    ghost use Rattle.model.specs.Calls.{Call};

    ghost Meaning = { Call };

    ghost table = { table };

    ghost number_of = { kind_number };

    fn number(self) -> u8 {
        self as u8
    }

    fn shape(self) -> Shape {
        match self {
            Kind::HowMany | Kind::Who => Shape::of_numbers(0),
            Kind::Remove
            | Kind::Seal
            | Kind::Stop
            | Kind::Resume
            | Kind::Leave
            | Kind::Fault
            | Kind::Draw => Shape::of_numbers(1),
            Kind::NewCell | Kind::Give | Kind::Extend => Shape::of_numbers(2),
            Kind::NewThread | Kind::NewTable => Shape::of_numbers(3),
            Kind::Enter => Shape::of_numbers(4),
            Kind::Grow | Kind::Shrink => Shape::of_numbers(1).with_place(),
            Kind::Show => Shape::of_numbers(2).with_place(),
            Kind::Hold => Shape::of_numbers(2).with_place().with_list(1),
            Kind::Interrupt => Shape::of_numbers(0).with_list(255),
        }
    }

    ghost finds = { λ n r found. found };
}
