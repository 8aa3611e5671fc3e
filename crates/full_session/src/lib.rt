// A session with the monitor that has all its calls.
#![tactic(auto)]

mod whole;

pub use whole::Whole;

pub type Session = session::Session<Whole>;
