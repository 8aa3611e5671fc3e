// Calls, and their bytes.
#![tactic(auto)]

mod call;
mod kind;
mod rows;

ghost use Rattle.fields.specs.Steps.{Reading, Written};
ghost use Rattle.calls.specs.Table.{calls, carried, write_call};
ghost use Rattle.calls.specs.Meaning.{call_of};
ghost use Rattle.calls.specs.Promises.{CallsStand};

pub use call::Call;
use fields::{Parts, Unwritten};
pub use kind::Kind;

// The call that bytes are, or the place where they cease to be one.
pub fn read(bytes: &[u8]) -> Result<Call<'_>, usize>
    ensures { Reading calls call_of bytes.now result }
{
    fields::read_message::<Kind>(bytes).map(Call::from)
}

// Writes a call's bytes, and says how many there are.
pub fn write(call: Call<'_>, out: &mut [u8]) -> Result<usize, Unwritten>
    ensures { Written (carried (call_of call.entry)) (write_call (call_of call.entry)) out.old out.new result }
{
    fields::write_message(Parts::from(call), out)
}

// What is written of a call is read back, has one spelling, and ceases to be one where it should.
pub fn calls_stand()
    ensures { CallsStand }
{}
