// A made-up machine: a small processor that runs programs in cells, in place, on the lent words.
#![tactic(auto)]

mod decoding;
mod seeing;
mod stepping;
mod telling;
mod values;

pub use decoding::UnknownWhen;
pub use stepping::run;
pub use telling::{go_on, machine_is_good};
pub use values::{Instruction, Ran, When};
