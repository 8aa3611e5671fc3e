// Numbers up to a line's end.
ghost use Rattle.std.specs.Prelude.{◌≡◌, ◌+◌, ◌≤◌, length};
ghost use Rattle.fields.specs.Bytes.{number_bytes};
ghost use Rattle.fields.specs.Steps.{Wrote};
ghost use Rattle.script.specs.Words.{words_left};
ghost use Rattle.script.specs.Lines.{word_of, registers, page_words};
ghost use Rattle.script.specs.Said.{Listed, Interrupts, Filled};

use crate::calling::CallBytes;
use crate::numerals::number;
use crate::words::Words;
use calls::Kind;

// The words of a page.
pub type PageWords = [u32; 1024];

fn put_number(bytes: &mut [u8], at: usize, number: u64)
    requires { at + 8 ≤ length bytes.old }
    ensures { Wrote bytes.old bytes.new at (number_bytes number) (at + 8) }
{
    bytes[at..at + 8].copy_from_slice(&number.to_le_bytes());
}

// Writes the numbers from the third byte on, and says how many there are: what it returns is the count, which an `enumerate` would not leave.
fn put_numbers(words: Words<'_>, bytes: &mut CallBytes) -> Option<usize>
    ensures { Listed (registers (words_left words.entry)) result bytes.old bytes.new }
{
    let mut count = 0;
    for word in words {
        if count == 255 {
            return None;
        }
        put_number(bytes, 2 + 8 * count, number(word)?);
        count += 1;
    }
    Some(count)
}

// Writes the call of an interrupt with these registers.
pub fn put_interrupt(words: Words<'_>, bytes: &mut CallBytes) -> Option<usize>
    ensures { Interrupts (registers (words_left words.entry)) result bytes.new }
{
    let count = put_numbers(words, bytes)?;
    bytes[0] = Kind::Interrupt as u8;
    bytes[1] = count as u8;
    Some(2 + 8 * count)
}

#[tactic(auto, unfolding(crate::specs::Lines::word_of))]
fn word(text: &[u8]) -> Option<u32>
    ensures { result ≡ word_of text.now }
{
    u32::try_from(number(text)?).ok()
}

// The words of a page, and how many there are: the count is returned here too.
pub fn put_words(words: Words<'_>, page: &mut PageWords) -> Option<usize>
    ensures { Filled (page_words (words_left words.entry)) result page.new }
{
    let mut count = 0;
    for text in words {
        if count == 1024 {
            return None;
        }
        page[count] = word(text)?;
        count += 1;
    }
    Some(count)
}
