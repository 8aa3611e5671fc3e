// The words of a line.
ghost use Rattle.std.specs.Prelude.{◌≡◌, ℕ, ◌<◌, ◌≤◌, not, length, ◌==◌, slice_index};
ghost use Rattle.std.specs.Iterator.{YieldsFirstRef, item_count};
ghost use Rattle.script.specs.Words.{words_left};

// The words that a text still has.
#[derive(Clone, Copy)]
pub struct Words<'a>(pub &'a [u8]);

// How many bytes stand in front of the first that is a space, or that is none. A loop: with `position` lines are read a tenth slower.
fn until(space: bool, text: &[u8]) -> usize
    ensures within { result ≤ length text.now }
    ensures others { (k : ℕ) → k < result → (slice_index text.now k == 32) ≡ not space }
    ensures there { result < length text.now → (slice_index text.now result == 32) ≡ space }
{
    for (count, byte) in text.iter().enumerate() {
        if (*byte == b' ') == space {
            return count;
        }
    }
    text.len()
}

impl<'a> Iterator for Words<'a> {
    type Item = &'a [u8];

    ghost next_gives = { YieldsFirstRef words_left };

    ghost remaining = { item_count words_left };

    fn next(&mut self) -> Option<&'a [u8]> {
        let text = &self.0[until(false, self.0)..];
        if text.is_empty() {
            return None;
        }
        let (word, rest) = text.split_at(until(true, text));
        self.0 = rest;
        Some(word)
    }
}
