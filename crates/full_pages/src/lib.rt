// Pages that become something, or are let go, where only what a kind of page has a use for is written.
#![tactic(auto)]

ghost use Rattle.std.specs.Prelude.{◌≡◌};
ghost use Rattle.pages.specs.Rows.{HasPage};
ghost use Rattle.full_pages.specs.Meaning.{begun, used, cleared};
ghost use Rattle.full_pages.specs.Promises.{EditsWritten, ReadsRight};

use pages::Record;

// How many numbers of its record a kind of page has a use for: the first four, and those of its list.
fn used(page: Record) -> usize
    ensures { result ≡ used page }
{
    match page {
        Record::Cell { .. } => 13,
        Record::Thread { .. } => 21,
        Record::Top { .. } => 260,
        Record::Table { .. } => 1028,
        Record::Free | Record::Held { .. } | Record::Spare { .. } => 4,
    }
}

// Lets a page go: it is free, and all that its record had a use for is 0. The rest must have been 0 before.
pub fn let_go(memory: &mut [u64], page: u64)
    requires { HasPage memory.old page }
    ensures { memory.new ≡ cleared memory.old page }
{
    let count = used(pages::record_at(memory, page));
    pages::clear(memory, page, count);
}

// Makes a page something whose list is all zeros: a thread with no registers, a table with nothing in it. The list in its
// record must have been so before.
pub fn put_record(memory: &mut [u64], page: u64, new: Record)
    requires { HasPage memory.old page }
    ensures { memory.new ≡ begun memory.old page new }
{
    pages::put_numbers(memory, page, 0, &new.beginning());
}

// Each edit of a state is one write of the memory.
pub fn edits_stand()
    ensures { EditsWritten }
{}

// What is read of a state's memory is what the state has.
pub fn reads_stand()
    ensures { ReadsRight }
{}
