// What a line is.

use crate::page::Page;

// The bytes of a call, and the words of a page that is written, stand at the front of the slices that were lent for them, so many: to read a
// line allocates nothing.
#[derive(Clone, Copy)]
pub enum Line {
    Skip,
    Limits { closed: u64, open: u64 },
    Call { length: usize },
    Write { page: Page, count: usize },
    Print { page: Page },
    Unreadable,
}
