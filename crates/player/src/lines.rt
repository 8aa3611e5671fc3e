// A file's lines, one after the other in the same buffer: std's iterator allocates each, which is slower over millions of lines, and asks
// that they are UTF-8.
use std::alloc::Global;
use std::io;
use std::io::{BufRead, BufReader, Read};

#[derive(Drop)]
pub struct Lines<R> {
    reader: BufReader<R>,
    text: Vec<u8>,
    count: u64,
}

impl<R: Read + Drop> Lines<R> {
    pub fn new(heap: Global, input: R) -> io::Result<Lines<R>> {
        Ok(Lines {
            reader: BufReader::new(heap, input)?,
            text: Vec::new(heap),
            count: 0,
        })
    }

    // How many were read.
    pub fn count(&self) -> u64 {
        self.count
    }

    // The next line, without its end, and its number; none after the last.
    pub fn read(&mut self) -> io::Result<Option<(u64, &[u8])>> {
        self.text.clear();
        if self.reader.read_until(b'\n', &mut self.text)? == 0 {
            return Ok(None);
        }
        let line = self.count;
        self.count = line.saturating_add(1);
        let text = self.text.as_slice();
        Ok(Some((line, text.strip_suffix(b"\n").unwrap_or(text))))
    }
}
