// The forms of lines.

use crate::page::Side;
use calls::Kind as CallKind;

// What a line of a form is: most are calls, of a kind, with nothing behind the form's words.
#[derive(Clone, Copy)]
pub enum Kind {
    Call(CallKind),
    HoldFrom,
    Interrupt,
    Limits,
    Write(Side),
    Print(Side),
}

// A form: what a line of it is, and its text, in which `#` stands for a number, `@` for a place, and any other word for itself.
#[derive(Clone, Copy)]
pub struct Form(pub Kind, pub &'static [u8]);

// The forms, in the order in which they are tried.
pub static FORMS: [Form; 26] = [
    Form(Kind::Call(CallKind::HowMany), b"how many"),
    Form(Kind::Call(CallKind::NewCell), b"new cell # top #"),
    Form(Kind::Call(CallKind::NewThread), b"new thread # in # from #"),
    Form(Kind::Call(CallKind::NewTable), b"new table # in # at #"),
    Form(Kind::Call(CallKind::Hold), b"hold # in # at @"),
    Form(Kind::HoldFrom, b"hold # in # at @ from #"),
    Form(Kind::Call(CallKind::Give), b"give # to #"),
    Form(Kind::Call(CallKind::Show), b"show # in # at @"),
    Form(Kind::Call(CallKind::Remove), b"remove #"),
    Form(Kind::Call(CallKind::Seal), b"seal #"),
    Form(Kind::Call(CallKind::Stop), b"stop #"),
    Form(Kind::Call(CallKind::Enter), b"enter # with # # #"),
    Form(Kind::Call(CallKind::Resume), b"resume #"),
    Form(Kind::Call(CallKind::Leave), b"leave #"),
    Form(Kind::Interrupt, b"interrupt"),
    Form(Kind::Call(CallKind::Fault), b"fault #"),
    Form(Kind::Call(CallKind::Grow), b"grow # at @"),
    Form(Kind::Call(CallKind::Shrink), b"shrink # at @"),
    Form(Kind::Call(CallKind::Extend), b"extend # at #"),
    Form(Kind::Call(CallKind::Who), b"who"),
    Form(Kind::Call(CallKind::Draw), b"draw #"),
    Form(Kind::Limits, b"limits # #"),
    Form(Kind::Write(Side::Open), b"write open #"),
    Form(Kind::Write(Side::Closed), b"write closed #"),
    Form(Kind::Print(Side::Open), b"print open #"),
    Form(Kind::Print(Side::Closed), b"print closed #"),
];
