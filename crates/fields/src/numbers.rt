// The numbers of a list, one by one.
ghost use Rattle.std.specs.Prelude.{◌≡◌, ◌/◌, length};
ghost use Rattle.std.specs.List.{slice_get};
ghost use Rattle.fields.specs.Bytes.{numbers_in};
ghost use Rattle.fields.specs.Shapes.{numbers_of};

use crate::values::Numbers;
use std::marker::Model;
use std::ops::Range;

fn word_at(words: &[u32], index: usize) -> Option<u64>
    ensures { result ≡ slice_get words.now index }
{
    words.get(index).map(|word| u64::from(*word))
}

fn lent_at(bytes: &[u8], index: usize) -> Option<u64>
    ensures { result ≡ slice_get (numbers_in (length bytes.now / 8) bytes.now) index }
{
    let (numbers, _) = bytes.as_chunks::<8>();
    numbers.get(index).map(|number| u64::from_le_bytes(*number))
}

impl<'a> Numbers<'a> {
    // How many there are.
    pub fn len(self) -> usize
        ensures { result ≡ length (numbers_of self.entry) }
    {
        match self {
            Numbers::None => 0,
            Numbers::One(_) => 1,
            Numbers::Name(words) => words.len(),
            Numbers::Registers(registers) => registers.words.len(),
            Numbers::Lent(bytes) => bytes.len() / 8,
        }
    }

    // The one at an index, if there are so many.
    pub fn at(self, index: usize) -> Option<u64>
        ensures { result ≡ slice_get (numbers_of self.entry) index }
    {
        match self {
            Numbers::None => None,
            Numbers::One(number) => if index == 0 { Some(number) } else { None },
            Numbers::Name(words) => word_at(&words, index),
            Numbers::Registers(registers) => word_at(&registers.words, index),
            Numbers::Lent(bytes) => lent_at(bytes, index),
        }
    }

    // One by one, from the first.
    pub fn iter(self) -> NumbersIter<'a>
        ensures { result ≡ numbers_of self.entry }
    {
        NumbersIter {
            numbers: self,
            indices: 0..self.len(),
        }
    }
}

// A list of at most one number.
impl From<Option<u64>> for Numbers<'_> {
    ghost use Rattle.std.specs.Option.{option_to_list};

    ghost from_gives = { λ number list. numbers_of list ≡ option_to_list number };

    fn from(number: Option<u64>) -> Self {
        match number {
            Some(number) => Numbers::One(number),
            None => Numbers::None,
        }
    }
}

// The numbers of a list that are still to come, by their indices.
#[derive(Drop)]
pub struct NumbersIter<'a> {
    numbers: Numbers<'a>,
    indices: Range<usize>,
}

impl<'a> Model for NumbersIter<'a> {
    ghost use Rattle.std.specs.Prelude.{◌≡◌, ℕ, List, length, drop};
    ghost use Rattle.fields.specs.Shapes.{numbers_of};

    ghost Value = { List ℕ };

    ghost view = { λ it. drop it.indices.start (numbers_of it.numbers) };

    ghost invariant = { λ it. it.indices.end ≡ length (numbers_of it.numbers) };
}

impl Iterator for NumbersIter<'_> {
    ghost use Rattle.std.specs.Iterator.{YieldsFirst, item_count};

    type Item = u64;

    ghost next_gives = { YieldsFirst (λ rest. rest) };

    ghost remaining = { item_count (λ rest. rest) };

    fn next(&mut self) -> Option<u64> {
        let index = self.indices.next()?;
        self.numbers.at(index)
    }

    fn size_hint(&self) -> (usize, Option<usize>) {
        self.indices.size_hint()
    }
}

impl<'a> IntoIterator for Numbers<'a> {
    type Item = u64;

    type IntoIter = NumbersIter<'a>;

    ghost into_iter_gives = { λ numbers it. it ≡ numbers_of numbers };

    fn into_iter(self) -> NumbersIter<'a> {
        self.iter()
    }
}
