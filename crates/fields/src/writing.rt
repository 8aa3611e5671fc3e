// Fields written into a lent slice, one behind another.
ghost use Rattle.std.specs.Prelude.{◌≡◌, ◌+◌, ◌*◌, ◌/◌, ◌<◌, ◌≤◌, true, [], ◌∷◌, length};
ghost use Rattle.fields.specs.Bytes.{number_bytes, numbers_bytes, numbers_in};
ghost use Rattle.model.specs.Calls as model;
ghost use Rattle.fields.specs.Shapes.{few, rights, place as place_codec, list as list_codec, place_if, list_if, body, layout, place_of};
ghost use Rattle.fields.specs.Shapes.{numbers_of, body_of};
ghost use Rattle.fields.specs.Steps.{Sized, Written};

use crate::values::{Fields, Numbers, Place, Shape, Unwritten};

// A lent slice, and how far it is written.
#[derive(Drop)]
struct Writer<'a> {
    out: &'a mut [u8],
    at: usize,
}

impl Writer<'_> {
    ghost use Rattle.fields.specs.Steps.{Put, Room};

    fn byte(&mut self, byte: u8)
        requires { Room self.old 1 }
        ensures { Put self.old self.new (byte ∷ []) }
    {
        self.out[self.at] = byte;
        self.at += 1;
    }

    fn number(&mut self, number: u64)
        requires { Room self.old 8 }
        ensures { Put self.old self.new (number_bytes number) }
    {
        self.out[self.at..self.at + 8].copy_from_slice(&number.to_le_bytes());
        self.at += 8;
    }

    fn numbers(&mut self, numbers: &[u64])
        requires { Room self.old (8 * length numbers.now) }
        ensures { Put self.old self.new (numbers_bytes numbers.now) }
    {
        for number in numbers {
            self.number(*number);
        }
    }

    // Words as numbers. Made into numbers by `map` first, for `numbers`, they got no proof: how long an array in a variant is stands in no
    // goal.
    fn words(&mut self, words: &[u32])
        requires { Room self.old (8 * length words.now) }
        ensures { Put self.old self.new (numbers_bytes words.now) }
    {
        for word in words {
            self.number(u64::from(*word));
        }
    }

    // The whole numbers that stand in bytes, as they stand there.
    fn lent(&mut self, bytes: &[u8])
        requires { Room self.old (8 * (length bytes.now / 8)) }
        ensures { Put self.old self.new (numbers_bytes (numbers_in (length bytes.now / 8) bytes.now)) }
    {
        let size = 8 * (bytes.len() / 8);
        self.out[self.at..self.at + size].copy_from_slice(&bytes[0..size]);
        self.at += size;
    }

    fn place(&mut self, place: Place)
        requires { Room self.old 17 }
        ensures { Put self.old self.new (place_codec.write (place_of place)) }
    {
        self.numbers(&[place.table, place.slot]);
        self.byte(rights_of(place));
    }

    // A count, and so many numbers.
    fn list(&mut self, list: Numbers<'_>)
        requires { Room self.old (1 + 8 * length (numbers_of list)) × (length (numbers_of list) < 256) }
        ensures { Put self.old self.new (length (numbers_of list.entry) ∷ numbers_bytes (numbers_of list.entry)) }
    {
        self.byte(list.len() as u8);
        match list {
            Numbers::None => {}
            Numbers::One(number) => self.number(number),
            Numbers::Name(words) => self.words(&words),
            Numbers::Registers(registers) => self.words(&registers.words),
            Numbers::Lent(bytes) => self.lent(bytes),
        }
    }

    fn place_if(&mut self, there: bool, place: Place)
        requires { Room self.old (length ((place_if there).write (place_of place))) }
        ensures { Put self.old self.new ((place_if there).write (place_of place)) }
    {
        if there {
            self.place(place);
        }
    }

    fn list_if(&mut self, most: Option<u8>, list: Numbers<'_>)
        requires { Room self.old (length ((list_if most).write (numbers_of list))) × (few most (length (numbers_of list)) ≡ true) }
        ensures { Put self.old self.new ((list_if most).write (numbers_of list.entry)) }
    {
        match most {
            Some(_most) => self.list(list),
            None => {}
        }
    }
}

fn rights_of(place: Place) -> u8
    ensures { result ≡ rights place.write place.run }
{
    u8::from(place.write) + 2 * u8::from(place.run)
}

fn place_size(there: bool) -> usize
    ensures { (w : model.Place) → result ≡ length ((place_if there).write w) }
{
    if there { 17 } else { 0 }
}

// How many bytes a list takes, unless it has too many numbers.
fn list_size(most: Option<u8>, list: Numbers<'_>) -> Result<usize, Unwritten>
    ensures { Sized most (numbers_of list.entry) result }
{
    let Some(most) = most else {
        return Ok(0);
    };
    let count = list.len();
    if count > usize::from(most) {
        return Err(Unwritten::TooMany);
    }
    Ok(1 + 8 * count)
}

// Writes a message: its number, and the fields of a shape. What the shape lacks is left out.
pub fn write(
    number: u8,
    shape: Shape,
    fields: Fields<'_>,
    out: &mut [u8],
) -> Result<usize, Unwritten>
    ensures { Written (few shape.list (length (body_of fields.entry).list)) (number ∷ (body (layout shape)).write (body_of
        fields.entry)) out.old out.new result }
{
    let listed = list_size(shape.list, fields.list)?;
    let count = shape.numbers;
    let needed = 1 + 8 * count + place_size(shape.place) + listed;
    if out.len() < needed {
        return Err(Unwritten::TooShort { needed });
    }
    let mut writer = Writer { out, at: 0 };
    writer.byte(number);
    writer.numbers(&fields.numbers[0..count]);
    writer.place_if(shape.place, fields.place);
    writer.list_if(shape.list, fields.list);
    Ok(writer.at)
}
