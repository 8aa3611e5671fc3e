// Answers, and their bytes.
#![tactic(auto)]

mod answer;
mod ending;
mod kind;
mod reason;
mod rows;

ghost use Rattle.std.specs.Prelude.{◌≡◌};
ghost use Rattle.fields.specs.Steps.{Reading, Written};
ghost use Rattle.model.specs.Answers.{to_system};
ghost use Rattle.answers.specs.Table.{answers, carried, write_answer};
ghost use Rattle.answers.specs.Meaning.{answer_of};
ghost use Rattle.answers.specs.Promises.{AnswersStand};

pub use answer::{Answer, Refusal};
pub use ending::Ending;
use fields::{Numbers, Parts, Unwritten};
pub use kind::Kind;
pub use reason::Reason;

// The answer that bytes are, or the place where they cease to be one.
pub fn read(bytes: &[u8]) -> Result<Answer<'_>, usize>
    ensures { Reading answers answer_of bytes.now result }
{
    fields::read_message::<Kind>(bytes).map(Answer::from)
}

// Writes an answer's bytes, and says how many there are.
pub fn write(answer: Answer<'_>, out: &mut [u8]) -> Result<usize, Unwritten>
    ensures { Written (carried (answer_of answer.entry)) (write_answer (answer_of answer.entry)) out.old out.new result }
{
    fields::write_message(Parts::from(answer), out)
}

// What the system is told of an answer: of a cell that is entered no registers, of one that goes on only that the call is done.
pub fn told_to_system(answer: Answer<'_>) -> Answer<'_>
    ensures { answer_of result ≡ to_system (answer_of answer.entry) }
{
    match answer {
        Answer::Enters { top, .. } => Answer::Enters {
            top,
            registers: Numbers::None,
        },
        Answer::Told { .. } => Answer::Done,
        other => other,
    }
}

// What is written of an answer is read back, has one spelling, and ceases to be one where it should.
pub fn answers_stand()
    ensures { AnswersStand }
{}
