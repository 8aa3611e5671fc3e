// Answers and pages, printed.
ghost use Rattle.std.specs.Prelude.{◌≡◌, ◌≤◌, length, take, Some, string_bytes as bytes_of};
ghost use Rattle.fields.specs.Shapes.{numbers_of};
ghost use Rattle.answers.specs.Meaning.{answer_of};
ghost use Rattle.script.specs.Pages.{is_open};
ghost use Rattle.script.specs.Shown.{Adds, spaced, with_numbers, answer_text, trimmed, page_text};

use crate::page::Page;
use answers::Answer;
use fields::Numbers;
use std::fmt;

// The numbers of a list, each behind a space.
#[derive(Clone, Copy)]
struct Spaced<'a>(Numbers<'a>);

impl fmt::Display for Spaced<'_> {
    ghost output = { λ s. Some (spaced (numbers_of s.0)) };

    fn fmt<W: fmt::Write>(&self, f: &mut fmt::Formatter<W>) -> fmt::Result {
        for number in self.0 {
            write!(f, " {number}")?;
        }
        Ok(())
    }
}

// What follows `enters T` and `told E`.
#[derive(Clone, Copy)]
struct With<'a>(Numbers<'a>);

impl fmt::Display for With<'_> {
    ghost output = { λ w. Some (with_numbers (numbers_of w.0)) };

    fn fmt<W: fmt::Write>(&self, f: &mut fmt::Formatter<W>) -> fmt::Result {
        if self.0.len() == 0 {
            return Ok(());
        }
        let numbers = Spaced(self.0);
        write!(f, " with{numbers}")
    }
}

// An answer's line, without its end.
#[derive(Clone, Copy)]
struct AnswerLine<'a>(Answer<'a>);

impl fmt::Display for AnswerLine<'_> {
    ghost output = { λ line. Some (answer_text (answer_of line.0)) };

    fn fmt<W: fmt::Write>(&self, f: &mut fmt::Formatter<W>) -> fmt::Result {
        match self.0 {
            Answer::Refused { refusal } => {
                let number = refusal.number;
                let place = refusal.place;
                write!(f, "refused {number} at {place}")
            }
            Answer::Done => write!(f, "done"),
            Answer::Number { number } => write!(f, "number {number}"),
            Answer::Enters { top, registers } => {
                let registers = With(registers);
                write!(f, "enters {top}{registers}")
            }
            Answer::Told { error, numbers } => {
                let numbers = With(numbers);
                write!(f, "told {error}{numbers}")
            }
            Answer::Left { how, number } => write!(f, "left {how} {number}"),
        }
    }
}

// Adds an answer's line, without its end, to a text.
pub fn show_answer(answer: Answer<'_>, out: &mut String) -> fmt::Result
    ensures { Adds result (bytes_of out.old) (bytes_of out.new) (answer_text (answer_of answer.entry)) }
{
    let line = AnswerLine(answer);
    write!(out, "{line}")?;
    Ok(())
}

// How many words there are but for the zeros at the end.
fn used(words: &[u32]) -> usize
    ensures { (take result words.now ≡ trimmed words.now) × (result ≤ length words.now) }
{
    words
        .iter()
        .rposition(|word| *word != 0)
        .map_or(0, |last| last + 1)
}

// A page's line, without its end.
#[derive(Clone, Copy)]
struct PageLine<'a> {
    page: Page,
    words: &'a [u32],
}

impl fmt::Display for PageLine<'_> {
    ghost output = { λ line. Some (page_text (is_open line.page.side) line.page.number line.words.now) };

    fn fmt<W: fmt::Write>(&self, f: &mut fmt::Formatter<W>) -> fmt::Result {
        let page = self.page;
        write!(f, "{page}:")?;
        for word in &self.words[..used(self.words)] {
            write!(f, " {word}")?;
        }
        Ok(())
    }
}

// Adds a page's line, without its end, to a text.
pub fn show_page(page: Page, words: &[u32], out: &mut String) -> fmt::Result
    ensures { Adds result (bytes_of out.old) (bytes_of out.new) (page_text (is_open page.side) page.number words.now) }
{
    let line = PageLine { page, words };
    write!(out, "{line}")?;
    Ok(())
}
