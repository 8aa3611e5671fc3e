// Callers of sha256: their contracts show that its contracts compose.
#![tactic(auto)]

ghost use Rattle.std.specs.Prelude.{◌≡◌, ℕ, ◌+◌, ◌*◌, ◌≤◌, List, ◌++◌, length};
ghost use Rattle.sha256.specs.Measures.{Measures};
ghost use Rattle.sha256.specs.Words.{bytes_of, words_of, two_words};
ghost use Rattle.sha256.specs.Sha.{sha256 as digest_of};
ghost use Rattle.sha256_callers.specs.Examples.{page_at};

use sha256::Measure;

pub mod standard;

// Measures page `p` of the pages that stand in memory one after the other.
pub fn page_of(measure: Measure, memory: &[u32], p: usize) -> Measure
    requires { 1024 * p + 1024 ≤ length memory.now }
    ensures { (ws : List ℕ) → Measures measure ws → Measures result (ws ++ page_at p memory.now) }
{
    measure.extend(&memory[1024 * p..1024 * p + 1024])
}

// Measures thirty-two words as two blocks.
pub fn two_blocks(measure: Measure, words: &[u32]) -> Measure
    requires { length words.now ≡ 32 }
    ensures { (ws : List ℕ) → Measures measure ws → Measures result (ws ++ words.now) }
{
    measure.extend(&words[0..16]).extend(&words[16..32])
}

// The name of a cell with one thread, from its start, and one held page, from its place as a word and its contents.
pub fn name_of_cell(start: u32, place: u32, contents: &[u32]) -> [u32; 8]
    requires { length contents.now ≡ 1024 }
    ensures { result ≡ words_of (digest_of (bytes_of (two_words 2 start ++ two_words 4 place ++ contents.now))) }
{
    Measure::new()
        .two_words(2, start)
        .two_words(4, place)
        .extend(contents)
        .name()
}
