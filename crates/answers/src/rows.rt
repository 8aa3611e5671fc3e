// The table of answers, as code: which answer the fields of a kind are, and the fields of an answer.
ghost use Rattle.std.specs.Prelude.{◌≡◌};
ghost use Rattle.model.specs.Answers.{done};
ghost use Rattle.fields.specs.Shapes.{body_of};
ghost use Rattle.fields.specs.Steps.{parts_of};
ghost use Rattle.fields.specs.Tables.{find, made};
ghost use Rattle.answers.specs.Kinds.{kind_number};
ghost use Rattle.answers.specs.Table.{table, parts};
ghost use Rattle.answers.specs.Meaning.{answer_of};

use crate::answer::{Answer, Refusal};
use crate::kind::Kind;
use fields::Parts;

impl<'a> From<Parts<'a, Kind>> for Answer<'a> {
    ghost from_gives = { λ read answer. answer_of answer ≡ made done (find (kind_number read.kind) table) (body_of read.fields) };

    fn from(parts: Parts<'a, Kind>) -> Self {
        let [a, b, _, _] = parts.fields.numbers;
        let list = parts.fields.list;
        match parts.kind {
            Kind::Refused => Answer::Refused {
                refusal: Refusal {
                    number: a,
                    place: b,
                },
            },
            Kind::Done => Answer::Done,
            Kind::Number => Answer::Number { number: a },
            Kind::Enters => Answer::Enters {
                top: a,
                registers: list,
            },
            Kind::Told => Answer::Told {
                error: a,
                numbers: list,
            },
            Kind::Left => Answer::Left { how: a, number: b },
        }
    }
}

impl<'a> From<Answer<'a>> for Parts<'a, Kind> {
    ghost from_gives = { λ answer written. parts (answer_of answer) ≡ parts_of kind_number written };

    fn from(answer: Answer<'a>) -> Self {
        match answer {
            Answer::Refused { refusal } => Parts::of_numbers(
                Kind::Refused,
                [refusal.number, refusal.place, 0, 0],
            ),
            Answer::Done => Parts::of_numbers(Kind::Done, [0, 0, 0, 0]),
            Answer::Number { number } => Parts::of_numbers(Kind::Number, [number, 0, 0, 0]),
            Answer::Enters { top, registers } => Parts::of_numbers(
                Kind::Enters,
                [top, 0, 0, 0],
            ).with_list(registers),
            Answer::Told { error, numbers } => Parts::of_numbers(
                Kind::Told,
                [error, 0, 0, 0],
            ).with_list(numbers),
            Answer::Left { how, number } => Parts::of_numbers(Kind::Left, [how, number, 0, 0]),
        }
    }
}
