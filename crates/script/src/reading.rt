// Lines, by their forms.
ghost use Rattle.std.specs.Prelude.{◌≡◌, ℕ, ◌≤◌, List, [], length, map};
ghost use Rattle.std.specs.Option.{option_map};
ghost use Rattle.script.specs.Words.{words as words_of, words_left};
ghost use Rattle.script.specs.Forms.{form_of};
ghost use Rattle.script.specs.Lines as line;
ghost use Rattle.script.specs.Lines.{taken_body, alone, meant, as_form, first_form, skipped, line_of};
ghost use Rattle.script.specs.Fitting.{nothing_taken};
ghost use Rattle.script.specs.Said.{Said, Back, Tried};

use crate::calling::{CallBytes, put_call};
use crate::fitting::{Taken, fit};
use crate::forms::{FORMS, Form, Kind};
use crate::line::Line;
use crate::lists::{PageWords, put_interrupt, put_words};
use crate::page::{Page, Side};
use crate::words::Words;
use calls::Kind as CallKind;
use fields::Numbers;

// Something, if no words are left.
fn ended(mut rest: Words<'_>) -> Option<()>
    ensures { (l : line.Line) → alone l (words_left rest.entry) ≡ option_map (λ u. l) result }
{
    match rest.next() {
        Some(_) => None,
        None => Some(()),
    }
}

fn call(kind: CallKind, taken: Taken, rest: Words<'_>, bytes: &mut CallBytes) -> Option<Line>
    ensures { (ws : List ℕ) → Tried (meant (Kind.Call kind) taken (words_left rest.entry)) result bytes.new ws }
{
    ended(rest)?;
    let length = put_call(kind, taken.fields(Numbers::None), bytes);
    Some(Line::Call { length })
}

// The third number is that of an open page to copy.
fn hold_from(taken: Taken, rest: Words<'_>, bytes: &mut CallBytes) -> Option<Line>
    ensures { (ws : List ℕ) → Tried (meant Kind.HoldFrom taken (words_left rest.entry)) result bytes.new ws }
{
    ended(rest)?;
    let length = put_call(
        CallKind::Hold,
        taken.fields(Numbers::One(taken.numbers[2])),
        bytes,
    );
    Some(Line::Call { length })
}

fn interrupt(rest: Words<'_>, bytes: &mut CallBytes) -> Option<Line>
    ensures { (ws : List ℕ) → Tried (meant Kind.Interrupt nothing_taken (words_left rest.entry)) result bytes.new ws }
{
    let length = put_interrupt(rest, bytes)?;
    Some(Line::Call { length })
}

fn limits(taken: Taken, rest: Words<'_>) -> Option<Line>
    ensures { (bs ws : List ℕ) → Tried (meant Kind.Limits taken (words_left rest.entry)) result bs ws }
{
    ended(rest)?;
    Some(Line::Limits {
        closed: taken.numbers[0],
        open: taken.numbers[1],
    })
}

fn write(side: Side, taken: Taken, rest: Words<'_>, page: &mut PageWords) -> Option<Line>
    ensures { (bs : List ℕ) → Tried (meant (Kind.Write side) taken (words_left rest.entry)) result bs page.new }
{
    let count = put_words(rest, page)?;
    Some(Line::Write {
        page: Page {
            side,
            number: taken.numbers[0],
        },
        count,
    })
}

fn print(side: Side, taken: Taken, rest: Words<'_>) -> Option<Line>
    ensures { (bs ws : List ℕ) → Tried (meant (Kind.Print side) taken (words_left rest.entry)) result bs ws }
{
    ended(rest)?;
    Some(Line::Print {
        page: Page {
            side,
            number: taken.numbers[0],
        },
    })
}

// A line of one form.
#[tactic(auto, unfolding(crate::specs::Lines::as_form))]
fn read_as(form: &Form, text: &[u8], bytes: &mut CallBytes, page: &mut PageWords) -> Option<Line>
    ensures { Tried (as_form (form_of form.now) (words_of text.now)) result bytes.new page.new }
{
    let mut rest = Words(text);
    let taken = fit(form.1, &mut rest)?;
    match form.0 {
        Kind::Call(kind) => call(kind, taken, rest, bytes),
        Kind::HoldFrom => hold_from(taken, rest, bytes),
        Kind::Interrupt => interrupt(rest, bytes),
        Kind::Limits => limits(taken, rest),
        Kind::Write(side) => write(side, taken, rest, page),
        Kind::Print(side) => print(side, taken, rest),
    }
}

// A line of the first of these forms that it is of.
fn read_by(forms: &[Form], text: &[u8], bytes: &mut CallBytes, page: &mut PageWords) -> Option<Line>
    ensures { Tried (first_form (map form_of forms.now) (words_of text.now)) result bytes.new page.new }
{
    for form in forms {
        if let Some(line) = read_as(form, text, bytes, page) {
            return Some(line);
        }
    }
    None
}

// Whether a line is empty, or a remark.
fn is_skipped(text: &[u8]) -> bool
    ensures { result ≡ skipped (words_of text.now) }
{
    match Words(text).next() {
        Some(word) => word.first() == Some(&b'#'),
        None => true,
    }
}

// What a line is. The bytes of a call, and the words to write, are put at the front of `bytes` and `words`.
pub fn read(text: &[u8], bytes: &mut [u8], words: &mut [u32]) -> Line
    requires { (2042 ≤ length bytes.old) × (1024 ≤ length words.old) }
    ensures said { Said (line_of text.now) result bytes.new words.new }
    ensures back { Back (line_of text.now) result bytes.new }
{
    if is_skipped(text) {
        return Line::Skip;
    }
    let Some(bytes) = bytes.first_chunk_mut() else {
        unreachable()
    };
    let Some(page) = words.first_chunk_mut() else {
        unreachable()
    };
    read_by(&FORMS, text, bytes, page).unwrap_or(Line::Unreadable)
}
