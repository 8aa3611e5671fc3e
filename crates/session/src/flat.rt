// Pages in a slice, 1,024 words each.
ghost use Rattle.std.specs.Prelude.{◌≡◌, ◌+◌, ◌*◌, ◌/◌, ◌<◌, ◌≤◌, length, if◌then◌else◌, MatchOption, IsErrOf, is_ok, ◌↔◌, nat_lt};
ghost use Rattle.pages.specs.Flat.{page_in, page_put};
ghost use Rattle.session.specs.Flat.{whole_page, page_fits};

use crate::errors::NotWritten;

const WORDS: usize = 1024;

// Whether there is such a page.
fn has(all: &[u32], number: u64) -> bool
    ensures { result ≡ nat_lt number (length all.now / 1024) }
{
    number < all.len() as u64 / 1024
}

// The words of a page, if there is such a page.
pub fn page(all: &[u32], number: u64) -> Option<&[u32]>
    ensures { MatchOption result (length all.now / 1024 ≤ number)
        (λ x. (number < length all.now / 1024) × (x.now ≡ page_in all.now number)) }
{
    if !has(all, number) {
        return None;
    }
    Some(pages::page_at(all, number))
}

// Writes words into a page, and zeros behind them.
fn fill(page: &mut [u32], words: &[u32])
    requires { (length page.old ≡ 1024) × (length words.now ≤ 1024) }
    ensures { page.new ≡ whole_page words.now }
{
    page.fill(0);
    page[..words.len()].copy_from_slice(words);
}

// Writes words into a page, and zeros behind them; or says why not.
pub fn write(all: &mut [u32], number: u64, words: &[u32]) -> Result<(), NotWritten>
    ensures done { is_ok result ≡ page_fits all.old number words.now }
    ensures why { IsErrOf result NotWritten.NoSuchPage ↔ (length all.old / 1024 ≤ number) }
    ensures after { all.new ≡ (if is_ok result then page_put all.old number (whole_page words.now) else all.old) }
{
    if !has(all, number) {
        return Err(NotWritten::NoSuchPage);
    }
    if words.len() > WORDS {
        return Err(NotWritten::TooManyWords);
    }
    let start = number as usize * WORDS;
    fill(&mut all[start..start + WORDS], words);
    Ok(())
}
