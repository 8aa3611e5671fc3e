// The fields of calls and answers, read from bytes and written to them.
#![tactic(auto)]

mod cursor;
mod messages;
mod numbers;
mod reading;
mod values;
mod writing;

ghost use Rattle.fields.specs.Promises.{LawfulBodies};

pub use messages::{MessageKind, read_message, write_message};
pub use numbers::NumbersIter;
pub use reading::read;
pub use values::{Fields, Numbers, Parts, Place, Registers, Shape, UnknownKind, Unwritten};
pub use writing::write;

// Every shape's fields are read back as they were written, have one spelling, and cease where they should.
pub fn bodies_stand()
    ensures { LawfulBodies }
{}
