// Calls, as lines have them, into bytes.
ghost use Rattle.fields.specs.Shapes.{body_of};
ghost use Rattle.calls.specs.Kinds.{kind_number};
ghost use Rattle.script.specs.Lines.{call_with};
ghost use Rattle.script.specs.Said.{Stands, Callable};

use calls::{Call, Kind};
use fields::{Fields, Parts};

// As many as the longest call has: an interrupt with 255 registers.
pub type CallBytes = [u8; 2042];

// Writes the call of a kind, with these fields.
pub fn put_call(kind: Kind, fields: Fields<'_>, bytes: &mut CallBytes) -> usize
    requires { Callable (kind_number kind) (body_of fields) }
    ensures { Stands (call_with (kind_number kind) (body_of fields.entry)) result bytes.new }
{
    match calls::write(Call::from(Parts { kind, fields }), bytes) {
        Ok(length) => length,
        Err(_) => unreachable(),
    }
}
