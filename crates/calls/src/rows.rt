// The table of calls, as code: which call the fields of a kind are, and the fields of a call.
ghost use Rattle.std.specs.Prelude.{◌≡◌};
ghost use Rattle.model.specs.Calls.{garbled};
ghost use Rattle.fields.specs.Shapes.{body_of};
ghost use Rattle.fields.specs.Steps.{parts_of};
ghost use Rattle.fields.specs.Tables.{find, made};
ghost use Rattle.calls.specs.Kinds.{kind_number};
ghost use Rattle.calls.specs.Table.{table, parts};
ghost use Rattle.calls.specs.Meaning.{call_of};

use crate::call::Call;
use crate::kind::Kind;
use fields::{Numbers, Parts};

impl<'a> From<Parts<'a, Kind>> for Call<'a> {
    ghost from_gives = { λ read call. call_of call ≡ made (garbled 0) (find (kind_number read.kind) table) (body_of read.fields) };

    fn from(parts: Parts<'a, Kind>) -> Self {
        let [a, b, c, d] = parts.fields.numbers;
        let place = parts.fields.place;
        let list = parts.fields.list;
        match parts.kind {
            Kind::HowMany => Call::HowMany,
            Kind::NewCell => Call::NewCell { first: a, top: b },
            Kind::NewThread => Call::NewThread {
                page: a,
                cell: b,
                start: c,
            },
            Kind::NewTable => Call::NewTable {
                page: a,
                cell: b,
                index: c,
            },
            Kind::Hold => Call::Hold {
                page: a,
                cell: b,
                place,
                source: list.at(0),
            },
            Kind::Give => Call::Give { page: a, cell: b },
            Kind::Show => Call::Show {
                open: a,
                cell: b,
                place,
            },
            Kind::Remove => Call::Remove { page: a },
            Kind::Seal => Call::Seal { cell: a },
            Kind::Stop => Call::Stop { cell: a },
            Kind::Enter => Call::Enter {
                thread: a,
                x: b,
                y: c,
                z: d,
            },
            Kind::Resume => Call::Resume { thread: a },
            Kind::Leave => Call::Leave { number: a },
            Kind::Interrupt => Call::Interrupt { registers: list },
            Kind::Fault => Call::Fault { kind: a },
            Kind::Grow => Call::Grow { page: a, place },
            Kind::Shrink => Call::Shrink { page: a, place },
            Kind::Extend => Call::Extend { page: a, index: b },
            Kind::Who => Call::Who,
            Kind::Draw => Call::Draw { number: a },
        }
    }
}

impl<'a> From<Call<'a>> for Parts<'a, Kind> {
    ghost from_gives = { λ call written. parts (call_of call) ≡ parts_of kind_number written };

    fn from(call: Call<'a>) -> Self {
        match call {
            Call::HowMany => Parts::of_numbers(Kind::HowMany, [0, 0, 0, 0]),
            Call::NewCell { first, top } => Parts::of_numbers(Kind::NewCell, [first, top, 0, 0]),
            Call::NewThread { page, cell, start } => Parts::of_numbers(
                Kind::NewThread,
                [page, cell, start, 0],
            ),
            Call::NewTable { page, cell, index } => Parts::of_numbers(
                Kind::NewTable,
                [page, cell, index, 0],
            ),
            Call::Hold {
                page,
                cell,
                place,
                source,
            } => Parts::of_numbers(Kind::Hold, [page, cell, 0, 0])
                .with_place(place)
                .with_list(Numbers::from(source)),
            Call::Give { page, cell } => Parts::of_numbers(Kind::Give, [page, cell, 0, 0]),
            Call::Show { open, cell, place } => Parts::of_numbers(
                Kind::Show,
                [open, cell, 0, 0],
            ).with_place(place),
            Call::Remove { page } => Parts::of_numbers(Kind::Remove, [page, 0, 0, 0]),
            Call::Seal { cell } => Parts::of_numbers(Kind::Seal, [cell, 0, 0, 0]),
            Call::Stop { cell } => Parts::of_numbers(Kind::Stop, [cell, 0, 0, 0]),
            Call::Enter { thread, x, y, z } => Parts::of_numbers(Kind::Enter, [thread, x, y, z]),
            Call::Resume { thread } => Parts::of_numbers(Kind::Resume, [thread, 0, 0, 0]),
            Call::Leave { number } => Parts::of_numbers(Kind::Leave, [number, 0, 0, 0]),
            Call::Interrupt { registers } => Parts::of_numbers(
                Kind::Interrupt,
                [0, 0, 0, 0],
            ).with_list(registers),
            Call::Fault { kind } => Parts::of_numbers(Kind::Fault, [kind, 0, 0, 0]),
            Call::Grow { page, place } => Parts::of_numbers(Kind::Grow, [page, 0, 0, 0]).with_place(
                place,
            ),
            Call::Shrink { page, place } => Parts::of_numbers(
                Kind::Shrink,
                [page, 0, 0, 0],
            ).with_place(place),
            Call::Extend { page, index } => Parts::of_numbers(Kind::Extend, [page, index, 0, 0]),
            Call::Who => Parts::of_numbers(Kind::Who, [0, 0, 0, 0]),
            Call::Draw { number } => Parts::of_numbers(Kind::Draw, [number, 0, 0, 0]),
        }
    }
}
