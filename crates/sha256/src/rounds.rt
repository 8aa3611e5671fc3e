// The sixty-four rounds over a block: FIPS 180-4, section 6.2.2.
ghost use Rattle.std.specs.Prelude.{◌≡◌, ℕ, List, ◌++◌};
ghost use Rattle.sha256.specs.Sha.{round, added, compressed};
ghost use Rattle.sha256.specs.Window.{state_of, words_in, next_four, outcome};

use crate::Hash;
use crate::constants::K;
use crate::functions::{big_sigma, choose, majority, small_sigma};
use std::simd::prelude::*;

// Sixteen words of the message schedule, the oldest first, in vectors of four that are named by their first.
#[derive(Clone, Copy)]
pub struct Window {
    pub w0: u32x4,
    pub w4: u32x4,
    pub w8: u32x4,
    pub w12: u32x4,
}

// Rounds under way: the working variables, and the words of the schedule that come next.
#[derive(Clone, Copy)]
pub struct Work {
    pub hash: Hash,
    pub window: Window,
}

// One round, with the sum of its constant and its word of the schedule.
fn one_round(s: Hash, kw: u32) -> Hash
    ensures { state_of result ≡ round (state_of s) kw }
{
    let t1 = s
        .h
        .wrapping_add(big_sigma::<6, 11, 25>(s.e))
        .wrapping_add(choose(s.e, s.f, s.g))
        .wrapping_add(kw);
    let t2 = big_sigma::<2, 13, 22>(s.a).wrapping_add(majority(s.a, s.b, s.c));
    Hash {
        a: t1.wrapping_add(t2),
        b: s.a,
        c: s.b,
        d: s.c,
        e: s.d.wrapping_add(t1),
        f: s.e,
        g: s.f,
        h: s.g,
    }
}

// The four words of the schedule that come after a window. The last two of them build on the first two.
fn next_words(w: Window) -> u32x4
    ensures { result ≡ next_four (words_in w) }
{
    let from_1 = w.w0.shuffle(w.w4, [1, 2, 3, 4]);
    let from_9 = w.w8.shuffle(w.w12, [1, 2, 3, 4]);
    let sums = w.w0 + small_sigma::<7, 18, 3>(from_1) + from_9;
    let first = sums + small_sigma::<17, 19, 10>(w.w12.swizzle([2, 3, 2, 3]));
    let last = sums + small_sigma::<17, 19, 10>(first.swizzle([0, 1, 0, 1]));
    first.shuffle(last, [0, 1, 6, 7])
}

// Four rounds, after which the window has moved on by four words.
fn four_rounds(work: Work, k: u32x4) -> Work
    ensures { (ks : List ℕ) → outcome work (k ++ ks) ≡ outcome result ks }
{
    let window = work.window;
    let [kw0, kw1, kw2, kw3] = (k + window.w0).to_array();
    let hash = one_round(work.hash, kw0);
    let hash = one_round(hash, kw1);
    let hash = one_round(hash, kw2);
    let hash = one_round(hash, kw3);
    Work {
        hash,
        window: Window {
            w0: window.w4,
            w4: window.w8,
            w8: window.w12,
            w12: next_words(window),
        },
    }
}

// The sum of two hash values, field by field: by way of arrays it would name the eight fields as often, and need a loop.
fn sum(s: Hash, t: Hash) -> Hash
    ensures { state_of result ≡ added (state_of s) (state_of t) }
{
    Hash {
        a: s.a.wrapping_add(t.a),
        b: s.b.wrapping_add(t.b),
        c: s.c.wrapping_add(t.c),
        d: s.d.wrapping_add(t.d),
        e: s.e.wrapping_add(t.e),
        f: s.f.wrapping_add(t.f),
        g: s.g.wrapping_add(t.g),
        h: s.h.wrapping_add(t.h),
    }
}

// The hash value after a block, whose words are as the standard reads them.
pub fn compress_words(hash: Hash, block: Window) -> Hash
    ensures { state_of result ≡ compressed (state_of hash) (words_in block) }
{
    let mut work = Work {
        hash,
        window: block,
    };
    for k in K.chunks_exact(4) {
        work = four_rounds(work, u32x4::from_slice(k));
    }
    sum(hash, work.hash)
}
