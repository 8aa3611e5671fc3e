// Numbers and places, taken from the front of words.
ghost use Rattle.std.specs.Prelude.{◌≡◌};
ghost use Rattle.script.specs.Words.{words_left};
ghost use Rattle.script.specs.Taking.{seen, right_of, take_number, take_rights, take_place};

use crate::numerals::number;
use crate::words::Words;
use fields::Place;

pub fn take_number(words: &mut Words<'_>) -> Option<u64>
    ensures { seen result words.new ≡ take_number (words_left words.old) }
{
    number(words.next()?)
}

// What a word lets: to write, to run.
fn right(word: &[u8]) -> Option<(bool, bool)>
    ensures { result ≡ right_of word.now }
{
    match word {
        b"w" => Some((true, false)),
        b"x" => Some((false, true)),
        b"wx" => Some((true, true)),
        _ => None,
    }
}

// Another word than one of rights is left where it is.
fn take_rights(words: &mut Words<'_>) -> (bool, bool)
    ensures { (result, words_left words.new) ≡ take_rights (words_left words.old) }
{
    let mut behind = *words;
    let Some(rights) = behind.next().and_then(right) else {
        return (false, false);
    };
    *words = behind;
    rights
}

pub fn take_place(words: &mut Words<'_>) -> Option<Place>
    ensures { seen result words.new ≡ take_place (words_left words.old) }
{
    let table = take_number(words)?;
    let slot = take_number(words)?;
    let (write, run) = take_rights(words);
    Some(Place {
        table,
        slot,
        write,
        run,
    })
}
