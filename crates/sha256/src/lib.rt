// SHA-256 over words that come in blocks of sixteen, and the measure of a cell, which keeps a running hash of such words.
// Words are four bytes, the low one first, where they are hashed.
#![tactic(auto)]

ghost use Rattle.std.specs.Prelude.{◌≡◌, ℕ, ◌*◌, ◌/◌, ◌%◌, List, [], ◌∷◌, ◌++◌, map, length};
ghost use Rattle.sha256.specs.Sha.{initial, digest, sha256};
ghost use Rattle.sha256.specs.Words.{bytes_of, words_of, swapped, block_hashed, blocks_hashed, last_words, two_words};
ghost use Rattle.sha256.specs.Window.{state_of, hash_of};
ghost use Rattle.sha256.specs.Measures.{Measures, more_measured, name_words};

mod constants;
mod functions;
mod rounds;

use rounds::{Window, compress_words};
use std::simd::prelude::*;

// A hash value: the eight words of FIPS 180-4, section 6.2.
#[derive(Clone, Copy, Debug, PartialEq, Eq)]
#[repr(C)]
pub struct Hash {
    pub a: u32,
    pub b: u32,
    pub c: u32,
    pub d: u32,
    pub e: u32,
    pub f: u32,
    pub g: u32,
    pub h: u32,
}

// The eight words of a hash value, in the standard's order.
impl From<Hash> for [u32; 8] {
    ghost from_gives = { λ hash words. words ≡ hash.a ∷ hash.b ∷ hash.c ∷ hash.d ∷ hash.e ∷ hash.f ∷ hash.g ∷ hash.h ∷ [] };

    fn from(hash: Hash) -> [u32; 8] {
        [
            hash.a, hash.b, hash.c, hash.d, hash.e, hash.f, hash.g, hash.h,
        ]
    }
}

// The initial hash value, of section 5.3.3.
pub fn start() -> Hash
    ensures { state_of result ≡ initial }
{
    Hash {
        a: 0x6a09_e667,
        b: 0xbb67_ae85,
        c: 0x3c6e_f372,
        d: 0xa54f_f53a,
        e: 0x510e_527f,
        f: 0x9b05_688c,
        g: 0x1f83_d9ab,
        h: 0x5be0_cd19,
    }
}

// The words of a quarter of a block as the standard reads them, the high byte first.
fn quarter_words(quarter: [u32; 4]) -> u32x4
    ensures { result ≡ map swapped quarter }
{
    u32x4::from_array(quarter.map(u32::swap_bytes))
}

// The hash value after one more block.
pub fn compress(hash: Hash, block: &[u32]) -> Hash
    requires { length block.now ≡ 16 }
    ensures { state_of result ≡ block_hashed (state_of hash) block.now }
{
    let (quarters, _) = block.as_chunks::<4>();
    let words = Window {
        w0: quarter_words(quarters[0]),
        w4: quarter_words(quarters[1]),
        w8: quarter_words(quarters[2]),
        w12: quarter_words(quarters[3]),
    };
    compress_words(hash, words)
}

// The hash value after all the whole blocks in some words, part by part. The loop counts the parts, since where a part begins is then a
// number that an edit can plant wrongly (must-fail/part.edit); chunks begin where the library lets them.
pub fn compress_blocks(hash: Hash, words: &[u32]) -> Hash
    ensures { state_of result ≡ blocks_hashed (length words.now / 16) (state_of hash) words.now }
{
    let mut after = hash;
    for i in 0..words.len() / 16 {
        after = compress(after, &words[16 * i..16 * i + 16]);
    }
    after
}

// The last block of a message of whole blocks: a 1, zeros, and the message's length in bits, the high byte first.
fn padding(blocks: u64) -> [u32; 16]
    ensures { map swapped result ≡ last_words (512 * blocks) }
{
    let bits = blocks.wrapping_mul(512);
    let high = (bits >> 32) as u32;
    let low = (bits & 0xffff_ffff) as u32;
    let mut block = [0; 16];
    block[0] = 0x80;
    block[14] = high.swap_bytes();
    block[15] = low.swap_bytes();
    block
}

// A hash value as words, the low byte of each first.
fn digest_words(hash: Hash) -> [u32; 8]
    ensures { result ≡ words_of (digest (state_of hash)) }
{
    <[u32; 8]>::from(hash).map(u32::swap_bytes)
}

// What was measured so far: the hash value after it, and the number of its blocks, of which the low 64 bits are kept.
#[derive(Clone, Copy, Debug, PartialEq, Eq)]
#[repr(C)]
pub struct Measure {
    pub hash: Hash,
    pub blocks: u64,
}

impl Measure {
    // Nothing measured yet.
    pub fn new() -> Measure
        ensures history { Measures result [] }
        ensures value { result ≡ record { hash = hash_of initial; blocks = 0 } }
    {
        Measure {
            hash: start(),
            blocks: 0,
        }
    }

    // Whole blocks of words more.
    pub fn extend(self, words: &[u32]) -> Measure
        requires { length words.now % 16 ≡ 0 }
        ensures history { (ws : List ℕ) → Measures self ws → Measures result (ws ++ words.now) }
        ensures value { result ≡ more_measured self words.now }
    {
        Measure {
            hash: compress_blocks(self.hash, words),
            blocks: self.blocks.wrapping_add(words.len() as u64 / 16),
        }
    }

    // Two words more, filled with zeros to sixteen.
    pub fn two_words(self, first: u32, second: u32) -> Measure
        ensures history { (ws : List ℕ) → Measures self ws → Measures result (ws ++ two_words first second) }
        ensures value { result ≡ more_measured self (two_words first second) }
    {
        let mut block = [0; 16];
        block[0] = first;
        block[1] = second;
        self.extend(&block)
    }

    // The name of what was measured: its digest, as eight words, the low byte of each first. A message with up to thirteen words
    // behind its blocks needs another last block, and nothing else.
    pub fn name(self) -> [u32; 8]
        ensures history { (ws : List ℕ) → Measures self ws → result ≡ words_of (sha256 (bytes_of ws)) }
        ensures value { result ≡ name_words self }
    {
        digest_words(compress_blocks(self.hash, &padding(self.blocks)))
    }
}
