// Fields read from bytes.
ghost use Rattle.std.specs.Prelude.{◌≡◌, ◌+◌, ◌-◌, ◌*◌, ◌≤◌, ◌++◌, length, drop, replicate};
ghost use Rattle.fields.specs.Bytes.{number_in, numbers_in};
ghost use Rattle.fields.specs.Codec.{read_all};
ghost use Rattle.fields.specs.Shapes.{body, layout, body_of};
ghost use Rattle.fields.specs.Steps.{seen};

use crate::cursor::Cursor;
use crate::values::{Fields, Shape};

// The number in the eight bytes from `at` on.
pub fn number_at(bytes: &[u8], at: usize) -> u64
    requires { at + 8 ≤ length bytes.now }
    ensures { result ≡ number_in (drop at bytes.now) }
{
    u64::from_le_bytes([
        bytes[at],
        bytes[at + 1],
        bytes[at + 2],
        bytes[at + 3],
        bytes[at + 4],
        bytes[at + 5],
        bytes[at + 6],
        bytes[at + 7],
    ])
}

// Up to four numbers from `at` on, and zeros behind them. Written out: a loop of so few becomes two calls of the C library.
pub fn numbers_at(bytes: &[u8], at: usize, count: usize) -> [u64; 4]
    requires { (at + 8 * count ≤ length bytes.now) × (count ≤ 4) }
    ensures { result ≡ numbers_in count (drop at bytes.now) ++ replicate (4 - count) 0 }
{
    match count {
        0 => [0, 0, 0, 0],
        1 => [number_at(bytes, at), 0, 0, 0],
        2 => [number_at(bytes, at), number_at(bytes, at + 8), 0, 0],
        3 => [
            number_at(bytes, at),
            number_at(bytes, at + 8),
            number_at(bytes, at + 16),
            0,
        ],
        _ => [
            number_at(bytes, at),
            number_at(bytes, at + 8),
            number_at(bytes, at + 16),
            number_at(bytes, at + 24),
        ],
    }
}

// The fields of a shape, which are all of the bytes, or the place where the bytes cease to be that. The place is all that there is to say of
// such bytes, so it is the error itself, as in `binary_search`.
pub fn read(shape: Shape, bytes: &[u8]) -> Result<Fields<'_>, usize>
    ensures { read_all (body (layout shape)) bytes.now ≡ seen body_of result }
{
    let mut cursor = Cursor::new(bytes);
    let numbers = cursor.numbers(shape.numbers)?;
    let place = cursor.place_if(shape.place)?;
    let list = cursor.list_if(shape.list)?;
    if cursor.at < bytes.len() {
        return Err(cursor.at);
    }
    Ok(Fields {
        numbers,
        place,
        list,
    })
}
