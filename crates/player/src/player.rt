// A file's lines, one after the other.
use crate::errors::Error;
use crate::lines::Lines;
use crate::options::Prints;
use crate::printer::Printer;
use monitor::{LONGEST, Limits};
use script::{Line, Page, Side};
use session::{Monitor, Session, Unopened};
use std::alloc::Global;
use std::io;
use std::io::{Read, Write};

#[derive(Drop)]
struct Player<M: Monitor, W: Write + Drop> {
    session: Session<M>,
    printer: Printer<W>,
    prints: Prints,
}

// Whether a line is answered as a call is.
fn answers(what: Line) -> bool {
    match what {
        Line::Call { .. } | Line::Limits { .. } | Line::Unreadable => true,
        Line::Skip | Line::Write { .. } | Line::Print { .. } => false,
    }
}

impl<M: Monitor, W: Write + Drop> Player<M, W> {
    // One call, by its bytes. Seventeen bytes are enough for what the system is told of any, and they are an answer.
    fn call(&mut self, bytes: &[u8]) -> io::Result<()> {
        let mut told = [0u8; LONGEST];
        let Ok(reply) = self.session.call(bytes, &mut told) else {
            return Ok(());
        };
        if !self.prints.system {
            return self.printer.answer(reply.answer);
        }
        let count = reply.told.min(told.len());
        match answers::read(&told[..count]) {
            Ok(answer) => self.printer.answer(answer),
            Err(_) => Ok(()),
        }
    }

    fn write(&mut self, page: Page, words: &[u32], line: u64) -> io::Result<()> {
        let written = match page.side {
            Side::Open => self.session.write_open(page.number, words),
            Side::Closed => self.session.write_closed(page.number, words),
        };
        match written {
            Ok(()) => Ok(()),
            Err(_) => self.printer.unreadable(line),
        }
    }

    fn print(&mut self, page: Page, line: u64) -> io::Result<()> {
        let found = match page.side {
            Side::Open => self.session.open_page(page.number),
            Side::Closed => self.session.closed_page(page.number),
        };
        match found {
            Some(words) => self.printer.page(page, words),
            None => self.printer.unreadable(line),
        }
    }

    // One line, after the limits.
    fn take(&mut self, line: u64, text: &[u8]) -> io::Result<()> {
        let mut bytes = [0u8; 2048];
        let mut words = [0u32; 1024];
        let what = script::read(text, &mut bytes, &mut words);
        if self.prints.echo && answers(what) {
            self.printer.echo(text)?;
        }
        match what {
            Line::Skip => Ok(()),
            Line::Call { length } => self.call(&bytes[..length.min(2048)]),
            Line::Write { page, count } => self.write(page, &words[..count.min(1024)], line),
            Line::Print { page } => self.print(page, line),
            Line::Limits { .. } | Line::Unreadable => self.printer.unreadable(line),
        }
    }
}

// The session that a line begins, if it is not skipped.
fn first<M: Monitor>(heap: Global, line: u64, text: &[u8]) -> Result<Option<Session<M>>, Error> {
    let mut bytes = [0u8; 2048];
    let mut words = [0u32; 1024];
    match script::read(text, &mut bytes, &mut words) {
        Line::Skip => Ok(None),
        Line::Limits { closed, open } => match session::open(heap, Limits { closed, open }) {
            Ok(session) => Ok(Some(session)),
            Err(Unopened::NoMemory) => Err(Error::NoMemory { line }),
            Err(Unopened::Refused { .. }) => Err(Error::Limits { line, closed, open }),
        },
        _ => Err(Error::NoLimits { line }),
    }
}

// The session that the first line begins that is not skipped.
fn begin<M: Monitor, R: Read + Drop>(
    heap: Global,
    lines: &mut Lines<R>,
) -> Result<Session<M>, Error> {
    // By a count, since a file may have no end, and each loop has one.
    for _ in 0..u64::MAX {
        let Some((line, text)) = lines.read()? else {
            break;
        };
        if let Some(session) = first(heap, line, text)? {
            return Ok(session);
        }
    }
    Err(Error::NoLimits {
        line: lines.count(),
    })
}

// Plays the lines of a file.
pub fn play<M: Monitor, R: Read + Drop, W: Write + Drop>(
    heap: Global,
    input: R,
    output: W,
    prints: Prints,
) -> Result<(), Error> {
    let mut lines = Lines::new(heap, input)?;
    // The room for what is printed is had before a line is read, so that where there is none, nothing is read.
    let printer = Printer::new(heap, output)?;
    let mut player = Player {
        session: begin::<M, R>(heap, &mut lines)?,
        printer,
        prints,
    };
    for _ in 0..u64::MAX {
        let Some((line, text)) = lines.read()? else {
            break;
        };
        player.take(line, text)?;
    }
    player.printer.flush()?;
    Ok(())
}
