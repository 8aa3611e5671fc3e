// The monitor's memory: a header, and a record for each closed page. The caller lends it at each call, so each function is
// passed it, and a page's number where it is about one.
#![tactic(auto)]

mod packing;
mod reading;
mod values;
mod words;
mod writing;

ghost use Rattle.pages.specs.Promises.{PackingInverse, EditsWritten, ReadsRight, PagesWritten};

pub use packing::{pack, place_from, place_word, unpack};
pub use reading::{measure_at, opens, pages, record_at, registers_at, running, slot_at, table_at};
pub use values::{Phase, Record, Slot};
pub use words::{copy_page, page_at, zero_page};
pub use writing::{
    clear, lay_out, let_go, put_measure, put_numbers, put_phase, put_record, put_running, put_slot,
    put_table, put_thread,
};

// Each edit of a state is one write of the memory.
pub fn edits_stand()
    ensures { EditsWritten }
{}

// What is read of a state's memory is what the state has.
pub fn reads_stand()
    ensures { ReadsRight }
{}

// What is packed is unpacked again.
pub fn packing_stands()
    ensures { PackingInverse }
{}

// A slice of words is a list of pages.
pub fn pages_stand()
    ensures { PagesWritten }
{}
