// The values that fields hold.
ghost use Rattle.std.specs.Prelude.{◌≡◌, ◌≤◌, true, false, Some, None};

use std::error::Error;
use std::fmt;

// Where a cell sees a page: in which table, in which slot of it, and whether it may write there, and run what is there.
#[derive(Clone, Copy, Debug, PartialEq, Eq)]
pub struct Place {
    pub table: u64,
    pub slot: u64,
    pub write: bool,
    pub run: bool,
}

impl Place {
    // The place of a message that has none.
    pub const NOWHERE: Place = Place {
        table: 0,
        slot: 0,
        write: false,
        run: false,
    };
}

// Thirteen registers, two more, the address of the next instruction, and one of state.
#[derive(Clone, Copy, Debug, PartialEq, Eq)]
pub struct Registers {
    pub words: [u32; 17],
}

// The numbers of a list: by value where the monitor makes them, or lent as they stand in bytes, eight for each. A derived `==` would tell
// two forms of one list apart, so there is none here, nor on what holds a list.
#[derive(Clone, Copy, Debug)]
pub enum Numbers<'a> {
    None,
    One(u64),
    Name([u32; 8]),
    Registers(Registers),
    Lent(&'a [u8]),
}

// What a call or an answer has behind its number. What its shape lacks is 0.
#[derive(Clone, Copy, Debug)]
pub struct Fields<'a> {
    pub numbers: [u64; 4],
    pub place: Place,
    pub list: Numbers<'a>,
}

// A message, as its kind and its fields.
#[derive(Clone, Copy, Debug)]
pub struct Parts<'a, K> {
    pub kind: K,
    pub fields: Fields<'a>,
}

impl<'a, K> Parts<'a, K> {
    ghost use Rattle.fields.specs.Shapes.{nowhere};

    // With numbers, and nothing else.
    pub fn of_numbers(kind: K, numbers: [u64; 4]) -> Self
        ensures { (result.kind ≡ kind) × (result.fields ≡ record { numbers = numbers; place = nowhere; list = Numbers.None }) }
    {
        let fields = Fields {
            numbers,
            place: Place::NOWHERE,
            list: Numbers::None,
        };
        Parts { kind, fields }
    }

    // The same with a place.
    pub fn with_place(self, place: Place) -> Self
        ensures { (result.kind ≡ self.entry.kind) × (result.fields.numbers ≡ self.entry.fields.numbers)
            × (result.fields.place ≡ place) × (result.fields.list ≡ self.entry.fields.list) }
    {
        let Parts { kind, fields } = self;
        let fields = Fields { place, ..fields };
        Parts { kind, fields }
    }

    // The same with a list.
    pub fn with_list(self, list: Numbers<'a>) -> Self
        ensures { (result.kind ≡ self.entry.kind) × (result.fields.numbers ≡ self.entry.fields.numbers)
            × (result.fields.place ≡ self.entry.fields.place) × (result.fields.list ≡ list.entry) }
    {
        let Parts { kind, fields } = self;
        let fields = Fields { list, ..fields };
        Parts { kind, fields }
    }
}

// A number that no kind of message has.
#[derive(Clone, Copy, Debug, PartialEq, Eq)]
pub struct UnknownKind(pub u8);

// Which fields there are: how many numbers, whether a place, and a list of at most how many.
#[derive(Clone, Copy, Debug, PartialEq, Eq)]
pub struct Shape {
    pub numbers: usize,
    pub place: bool,
    pub list: Option<u8>,
    ghost few: { numbers ≤ 4 },
}

impl Shape {
    // So many numbers, at most four, and nothing else.
    pub fn of_numbers(numbers: usize) -> Shape
        requires { numbers ≤ 4 }
        ensures { (result.numbers ≡ numbers) × (result.place ≡ false) × (result.list ≡ None) }
    {
        Shape {
            numbers,
            place: false,
            list: None,
        }
    }

    // The same with a place behind the numbers.
    pub fn with_place(mut self) -> Shape
        ensures { (result.numbers ≡ self.numbers) × (result.place ≡ true) × (result.list ≡ self.list) }
    {
        self.place = true;
        self
    }

    // The same with a list of at most so many numbers at the end.
    pub fn with_list(mut self, most: u8) -> Shape
        ensures { (result.numbers ≡ self.numbers) × (result.place ≡ self.place) × (result.list ≡ Some most) }
    {
        self.list = Some(most);
        self
    }
}

// Why nothing was written: the list has more numbers than its kind of message can carry, or the slice has too few bytes.
#[derive(Clone, Copy, Debug, PartialEq, Eq)]
pub enum Unwritten {
    TooMany,
    TooShort { needed: usize },
}

impl fmt::Display for UnknownKind {
    fn fmt<W: fmt::Write>(&self, f: &mut fmt::Formatter<W>) -> fmt::Result {
        write!(f, "no kind has the number {}", self.0)
    }
}

impl Error for UnknownKind {}

impl fmt::Display for Unwritten {
    fn fmt<W: fmt::Write>(&self, f: &mut fmt::Formatter<W>) -> fmt::Result {
        match self {
            Unwritten::TooMany => f.write_str("the list has too many numbers"),
            Unwritten::TooShort { needed } => write!(f, "{needed} bytes are needed"),
        }
    }
}

impl Error for Unwritten {}

#[cfg(test)]
mod tests {
    use super::*;
    use std::test::Fail;

    #[test]
    fn why_nothing_was_written_in_words(rt: HostRuntime) -> Result<(), Fail> {
        let alloc = rt.alloc();
        assert_eq!(rt;
            Unwritten::TooMany.to_string(alloc)?.as_str(),
            "the list has too many numbers"
        );
        assert_eq!(rt;
            Unwritten::TooShort { needed: 26 }
                .to_string(alloc)?
                .as_str(),
            "26 bytes are needed"
        );
        Ok(())
    }

    #[test]
    fn an_unknown_kind_in_words(rt: HostRuntime) -> Result<(), Fail> {
        let alloc = rt.alloc();
        assert_eq!(rt;
            UnknownKind(12).to_string(alloc)?.as_str(),
            "no kind has the number 12"
        );
        Ok(())
    }
}
