// A line's words against a form's.
ghost use Rattle.std.specs.Prelude.{◌≡◌};
ghost use Rattle.script.specs.Words.{words, words_left};
ghost use Rattle.script.specs.Taking.{seen};
ghost use Rattle.script.specs.Fitting.{nothing_taken, with_number, with_place, take_word, fit as fitted};
ghost use Rattle.script.specs.Lines.{taken_body};
ghost use Rattle.fields.specs.Shapes.{body_of, numbers_of};

use crate::taking::{take_number, take_place};
use crate::words::Words;
use fields::{Fields, Numbers, Place};

// The numbers of a line, in their order and then zeros, and its place. A call has room for four numbers, with zeros behind those that it
// has: so they stand in an array, with how many are taken beside it.
#[derive(Clone, Copy)]
pub struct Taken {
    pub numbers: [u64; 4],
    pub count: usize,
    pub place: Place,
}

impl Taken {
    // What is taken before the first word.
    fn nothing() -> Taken
        ensures { result ≡ nothing_taken }
    {
        Taken {
            numbers: [0; 4],
            count: 0,
            place: Place::NOWHERE,
        }
    }

    fn with_number(mut self, number: u64) -> Option<Taken>
        ensures { result ≡ with_number self number }
    {
        if self.count >= 4 {
            return None;
        }
        self.numbers[self.count] = number;
        self.count += 1;
        Some(self)
    }

    fn with_place(self, place: Place) -> Taken
        ensures { result ≡ with_place self place }
    {
        Taken { place, ..self }
    }

    // The fields of a call, with this list.
    pub fn fields(self, list: Numbers<'_>) -> Fields<'_>
        ensures { body_of result ≡ taken_body self (numbers_of list.entry) }
    {
        let numbers = self.numbers;
        Fields {
            numbers,
            place: self.place,
            list,
        }
    }
}

// What one word of a form takes.
#[tactic(auto, unfolding(crate::specs::Fitting::take_word))]
fn take(sign: &[u8], line: &mut Words<'_>, taken: Taken) -> Option<Taken>
    ensures { seen result line.new ≡ take_word sign.now (words_left line.old) taken }
{
    match sign {
        b"#" => taken.with_number(take_number(line)?),
        b"@" => Some(taken.with_place(take_place(line)?)),
        word => if line.next()? == word {
            Some(taken)
        } else {
            None
        },
    }
}

// What a form takes from the front of a line.
#[tactic(auto, unfolding(crate::specs::Fitting::fit))]
pub fn fit(form: &[u8], line: &mut Words<'_>) -> Option<Taken>
    ensures { seen result line.new ≡ fitted (words form.now) (words_left line.old) nothing_taken }
{
    let mut taken = Taken::nothing();
    for sign in Words(form) {
        taken = take(sign, line, taken)?;
    }
    Some(taken)
}
