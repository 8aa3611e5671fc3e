// The text of a file of calls: a line into a call's bytes, an answer into a line.
#![tactic(auto)]

mod calling;
mod fitting;
mod forms;
mod line;
mod lists;
mod numerals;
mod page;
mod reading;
mod showing;
mod taking;
mod words;

ghost use Rattle.script.specs.Promises.{LinesStand};

pub use line::Line;
pub use page::{Page, Side};
pub use reading::read;
pub use showing::{show_answer, show_page};

// A number has one spelling, which is the one that is printed, and a call that a line is can be read back from its bytes.
pub fn lines_stand()
    ensures { LinesStand }
{}
