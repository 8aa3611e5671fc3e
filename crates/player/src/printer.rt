// What is printed: answers and pages, a line each.
use answers::{Answer, Refusal};
use script::Page;
use std::alloc::Global;
use std::io::{BufWriter, Write};
use std::{fmt, io};

#[derive(Drop)]
pub struct Printer<W: Write + Drop> {
    out: BufWriter<W>,
    shown: String,
}

// A text that is built in memory fails only where there is none.
fn no_memory(_error: fmt::Error) -> io::Error {
    io::Error::from(io::ErrorKind::OutOfMemory)
}

impl<W: Write + Drop> Printer<W> {
    pub fn new(heap: Global, output: W) -> io::Result<Printer<W>> {
        Ok(Printer {
            out: BufWriter::new(heap, output)?,
            shown: String::new(heap),
        })
    }

    // A line of the file, before what it is answered.
    pub fn echo(&mut self, text: &[u8]) -> io::Result<()> {
        self.out.write_all(text)?;
        self.out.write_all(b": ")
    }

    pub fn answer(&mut self, answer: Answer<'_>) -> io::Result<()> {
        self.shown.clear();
        script::show_answer(answer, &mut self.shown).map_err(no_memory)?;
        self.line()
    }

    // The refusal of a line that can't be read.
    pub fn unreadable(&mut self, line: u64) -> io::Result<()> {
        self.answer(Answer::Refused {
            refusal: Refusal::garbled(line),
        })
    }

    pub fn page(&mut self, page: Page, words: &[u32]) -> io::Result<()> {
        self.shown.clear();
        script::show_page(page, words, &mut self.shown).map_err(no_memory)?;
        self.line()
    }

    fn line(&mut self) -> io::Result<()> {
        self.out.write_all(self.shown.as_bytes())?;
        self.out.write_all(b"\n")
    }

    // What was printed has left the program.
    pub fn flush(&mut self) -> io::Result<()> {
        self.out.flush()
    }
}
