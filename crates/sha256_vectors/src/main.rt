// Runs vectors through sha256 and prints a digest a line. The file stdout has what another implementation makes of the same
// messages: vectors.py writes it with Python's hashlib. The first three lines are the examples of FIPS 180-4.
#![tactic(auto)]

use sha256::{Measure, compress, start};
use std::io;

// FIPS 180-4's examples with their padding: abc, and the 56 bytes abcdbcde to nopq.
static ABC: [u32; 16] = [
    0x8063_6261,
    0,
    0,
    0,
    0,
    0,
    0,
    0,
    0,
    0,
    0,
    0,
    0,
    0,
    0,
    0x1800_0000,
];

static FIFTY_SIX_FIRST: [u32; 16] = [
    0x6463_6261,
    0x6564_6362,
    0x6665_6463,
    0x6766_6564,
    0x6867_6665,
    0x6968_6766,
    0x6a69_6867,
    0x6b6a_6968,
    0x6c6b_6a69,
    0x6d6c_6b6a,
    0x6e6d_6c6b,
    0x6f6e_6d6c,
    0x706f_6e6d,
    0x7170_6f6e,
    0x0000_0080,
    0,
];

static FIFTY_SIX_LAST: [u32; 16] = [0, 0, 0, 0, 0, 0, 0, 0, 0, 0, 0, 0, 0, 0, 0, 0xc001_0000];

// Messages of whole blocks: the first word, what each word is above the one before it, and how many blocks there are. The first
// message is FIPS 180-4's third example, a million times the letter a.
static RUNS: [(u32, u32, u32); 18] = [
    (0x6161_6161, 0x0000_0000, 15625),
    (0x0000_0000, 0x0000_0000, 0),
    (0x0000_0000, 0x0000_0000, 1),
    (0xffff_ffff, 0x0000_0000, 1),
    (0x0000_0000, 0x0000_0001, 1),
    (0x0000_0001, 0x0000_0000, 2),
    (0x0102_0304, 0x0404_0404, 2),
    (0x8000_0000, 0x0000_0000, 3),
    (0x0000_0000, 0x9e37_79b9, 7),
    (0xdead_beef, 0x0101_0101, 63),
    (0x0000_0000, 0x0000_0000, 64),
    (0xffff_ffff, 0x0000_0000, 64),
    (0x0000_0000, 0x9e37_79b9, 64),
    (0x0000_0007, 0x8000_0001, 65),
    (0x0000_0000, 0x0000_0001, 127),
    (0x1234_5678, 0x1111_1111, 128),
    (0xffff_0000, 0xffff_ffff, 1000),
    (0x0bad_cafe, 0x1000_0001, 8193),
];

// Words without end, each `step` above the one before it.
#[derive(Drop)]
struct Words {
    next: u32,
    step: u32,
}

impl Words {
    // The next N words.
    fn take<const N: usize>(&mut self) -> [u32; N] {
        let mut words = [0; N];
        for word in &mut words {
            *word = self.next;
            self.next = self.next.wrapping_add(self.step);
        }
        words
    }
}

// So many blocks of words, by whole pages and then by blocks.
fn measured(first: u32, step: u32, blocks: u32) -> Measure {
    let mut words = Words { next: first, step };
    let mut measure = Measure::new();
    for _ in 0..blocks / 64 {
        measure = measure.extend(&words.take::<1024>());
    }
    for _ in 0..blocks % 64 {
        measure = measure.extend(&words.take::<16>());
    }
    measure
}

// Eight words in hexadecimal, on a line.
fn show(rt: &HostRuntime, words: [u32; 8]) -> io::Result<()> {
    for word in words {
        print!(rt; "{word:08x}")?;
    }
    println!(rt; "")
}

// The digest that a name is: its words have the low byte first.
fn show_name(rt: &HostRuntime, name: [u32; 8]) -> io::Result<()> {
    show(rt, name.map(u32::swap_bytes))
}

fn main(rt: HostRuntime) -> io::Result<()> {
    show(&rt, compress(start(), &ABC).into())?;
    let fifty_six = compress(compress(start(), &FIFTY_SIX_FIRST), &FIFTY_SIX_LAST);
    show(&rt, fifty_six.into())?;
    for (first, step, blocks) in RUNS {
        show_name(&rt, measured(first, step, blocks).name())?;
    }
    let thread = Measure::new().two_words(2, 4096);
    show_name(&rt, thread.name())?;
    let page = [0x0403_0201; 1024];
    show_name(
        &rt,
        thread
            .two_words(4, 0x0040_1003)
            .extend(&page)
            .two_words(2, 8192)
            .name(),
    )
}
