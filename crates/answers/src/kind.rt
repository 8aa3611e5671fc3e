// The kinds of answers.
ghost use Rattle.fields.specs.Tables.{Finds};
ghost use Rattle.answers.specs.Table.{table};
ghost use Rattle.answers.specs.Kinds.{kind_number};

use fields::{MessageKind, Shape, UnknownKind};

// Each with the number that its bytes begin with.
#[derive(Clone, Copy, Debug, PartialEq, Eq)]
pub enum Kind {
    Refused = 0,
    Done = 1,
    Number = 2,
    Enters = 3,
    Told = 4,
    Left = 5,
}

impl TryFrom<u8> for Kind {
    type Error = UnknownKind;

    ghost try_from_gives = { Finds kind_number table };

    fn try_from(number: u8) -> Result<Kind, UnknownKind> {
        match number {
            0 => Ok(Kind::Refused),
            1 => Ok(Kind::Done),
            2 => Ok(Kind::Number),
            3 => Ok(Kind::Enters),
            4 => Ok(Kind::Told),
            5 => Ok(Kind::Left),
            _ => Err(UnknownKind(number)),
        }
    }
}

impl MessageKind for Kind {
    ghost use Rattle.model.specs.Answers.{Answer};

    ghost Meaning = { Answer };

    ghost table = { table };

    ghost number_of = { kind_number };

    fn number(self) -> u8 {
        self as u8
    }

    fn shape(self) -> Shape {
        match self {
            Kind::Done => Shape::of_numbers(0),
            Kind::Number => Shape::of_numbers(1),
            Kind::Refused | Kind::Left => Shape::of_numbers(2),
            Kind::Enters | Kind::Told => Shape::of_numbers(1).with_list(255),
        }
    }

    ghost finds = { λ n r found. found };
}
