// The calls by which the system builds a cell.
#![tactic(auto)]

mod cells;
mod free;
mod holding;
mod tables;

pub use cells::{give, new_cell, new_thread};
pub use holding::{become_held, hold};
pub use tables::{become_table, new_table, show};
