// A session: a monitor with memory and pages of its own.
#![tactic(auto)]

mod errors;
mod flat;
mod stage;
mod state;
mod under;

pub use errors::{NotWritten, Unopened};
pub use stage::Stage;
pub use state::{Session, open};
pub use under::Monitor;
