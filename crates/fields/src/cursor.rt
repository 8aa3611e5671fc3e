// Bytes that are read on.
ghost use Rattle.std.specs.Prelude.{◌≡◌, ◌≤◌, length};

use crate::reading::{number_at, numbers_at};
use crate::values::{Numbers, Place};

// Bytes, and how far they are read.
#[derive(Drop)]
pub struct Cursor<'a> {
    pub bytes: &'a [u8],
    pub at: usize,
    ghost within: { at ≤ length bytes.now },
}

impl<'a> Cursor<'a> {
    ghost use Rattle.fields.specs.Shapes.{padded, place as place_codec, list as list_codec, place_if, list_if, place_of, numbers_of};
    ghost use Rattle.fields.specs.Steps.{Read};

    // At the first byte.
    pub fn new(bytes: &'a [u8]) -> Self
        ensures { (result.bytes ≡ bytes.entry) × (result.at ≡ 0) }
    {
        Cursor { bytes, at: 0 }
    }

    pub fn numbers(&mut self, count: usize) -> Result<[u64; 4], usize>
        requires { count ≤ 4 }
        ensures { Read (padded count) (λ v. v) self.old result self.new }
    {
        if self.bytes.len() - self.at < 8 * count {
            return Err(self.bytes.len());
        }
        let all = numbers_at(self.bytes, self.at, count);
        self.at += 8 * count;
        Ok(all)
    }

    pub fn place(&mut self) -> Result<Place, usize>
        ensures { Read place_codec place_of self.old result self.new }
    {
        if self.bytes.len() - self.at < 17 {
            return Err(self.bytes.len());
        }
        let rights = self.bytes[self.at + 16];
        if rights >= 4 {
            return Err(self.at + 16);
        }
        let table = number_at(self.bytes, self.at);
        let slot = number_at(self.bytes, self.at + 8);
        self.at += 17;
        Ok(Place {
            table,
            slot,
            write: rights % 2 == 1,
            run: rights >= 2,
        })
    }

    pub fn list(&mut self, most: u8) -> Result<Numbers<'a>, usize>
        ensures { Read (list_codec most) numbers_of self.old result self.new }
    {
        if self.at >= self.bytes.len() {
            return Err(self.at);
        }
        let count = self.bytes[self.at];
        if count > most {
            return Err(self.at);
        }
        let start = self.at + 1;
        let size = 8 * count as usize;
        if self.bytes.len() - start < size {
            return Err(self.bytes.len());
        }
        let part = &self.bytes[start..start + size];
        self.at = start + size;
        Ok(Numbers::Lent(part))
    }

    pub fn place_if(&mut self, there: bool) -> Result<Place, usize>
        ensures { Read (place_if there) place_of self.old result self.new }
    {
        if there {
            return self.place();
        }
        Ok(Place::NOWHERE)
    }

    pub fn list_if(&mut self, most: Option<u8>) -> Result<Numbers<'a>, usize>
        ensures { Read (list_if most) numbers_of self.old result self.new }
    {
        match most {
            Some(most) => self.list(most),
            None => Ok(Numbers::None),
        }
    }
}
