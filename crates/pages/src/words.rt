// The words of pages, 1,024 for each.
ghost use Rattle.std.specs.Prelude.{◌≡◌, ◌+◌, ◌*◌, ◌^◌, ◌<◌, replicate};
ghost use Rattle.pages.specs.Flat.{HasWords, page_in, page_put};

use std::ops::Range;

const WORDS: usize = 1024;

// Where a page's words stand.
fn words_of(page: u64) -> Range<usize>
    requires { page * 1024 + 1024 < 2 ^ 64 }
    ensures { result ≡ record { start = page * 1024; end = page * 1024 + 1024 } }
{
    let start = page as usize * WORDS;
    start..start + WORDS
}

// The words of a page.
pub fn page_at(all: &[u32], page: u64) -> &[u32]
    requires { HasWords all.now page }
    ensures { result.now ≡ page_in all.now page }
{
    &all[words_of(page)]
}

// Copies an open page into a closed one.
pub fn copy_page(closed: &mut [u32], page: u64, open: &[u32], source: u64)
    requires { (HasWords closed.old page) × (HasWords «open».now source) }
    ensures { closed.new ≡ page_put closed.old page (page_in «open».now source) }
{
    closed[words_of(page)].copy_from_slice(page_at(open, source));
}

// Makes each word of a closed page 0.
pub fn zero_page(closed: &mut [u32], page: u64)
    requires { HasWords closed.old page }
    ensures { closed.new ≡ page_put closed.old page (replicate 1024 0) }
{
    closed[words_of(page)].fill(0);
}
