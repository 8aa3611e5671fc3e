// Whole messages: the number of a kind, and the fields that the kind asks for.
ghost use Rattle.std.specs.Prelude.{◌≡◌, ℕ, List, length, Some, Result};
ghost use Rattle.fields.specs.Codec.{read_all};
ghost use Rattle.fields.specs.Shapes.{layout, body_of};
ghost use Rattle.fields.specs.Steps.{seen, parts_of, Written};
ghost use Rattle.fields.specs.Tables.{Row, Finds, find, layout_of, few_for, message};
ghost use Rattle.fields.specs.declared.values.UnknownKind.{UnknownKind};

use crate::values::{Parts, Shape, UnknownKind, Unwritten};
use crate::{reading, writing};

// The kinds of which messages are: each has a number, which is a row's in a table, and the shape of that row.
pub trait MessageKind: Copy + TryFrom<u8, Error = UnknownKind> {
    // What the messages mean.
    ghost Meaning: { Type 0 };

    ghost table: { List (Row Meaning) };

    ghost number_of: { Self → ℕ };

    fn number(self) -> u8
        ensures { result ≡ number_of self };

    fn shape(self) -> Shape
        ensures { layout_of (number_of self) table ≡ Some (layout result) };

    // From a number comes the kind that has it, or no row has it.
    ghost finds: { (n : ℕ) (r : Result Self UnknownKind) → Self.try_from_gives n r → Finds number_of table n r };
}

// The message that bytes are, as its kind and its fields, or the place where they cease to be one.
pub fn read_message<K: MessageKind>(bytes: &[u8]) -> Result<Parts<'_, K>, usize>
    ensures { read_all (message K.table) bytes.now ≡ seen (parts_of K.number_of) result }
{
    let Some((number, rest)) = bytes.split_first() else {
        return Err(0);
    };
    let Ok(kind) = K::try_from(*number) else {
        return Err(0);
    };
    match reading::read(kind.shape(), rest) {
        Ok(fields) => Ok(Parts { kind, fields }),
        Err(place) => Err(place + 1),
    }
}

// Writes a message's bytes, and says how many there are.
pub fn write_message<K: MessageKind>(
    parts: Parts<'_, K>,
    out: &mut [u8],
) -> Result<usize, Unwritten>
    ensures { Written (few_for (find (K.number_of parts.entry.kind) K.table) (length (body_of parts.entry.fields).list))
        ((message K.table).write (parts_of K.number_of parts.entry)) out.old out.new result }
{
    let Parts { kind, fields } = parts;
    writing::write(kind.number(), kind.shape(), fields, out)
}
