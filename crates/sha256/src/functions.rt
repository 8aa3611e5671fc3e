// The six functions of FIPS 180-4, section 4.1.2, on words of 32 bits.
ghost use Rattle.std.specs.Prelude.{◌≡◌, ◌<◌, map, bit_xor};
ghost use Rattle.sha256.specs.Sha.{rotr, shr, ch, maj};

use std::simd::prelude::*;

// Ch: where x has a 1 the bit of y, else that of z. This form has one operation fewer than the standard's.
pub fn choose(x: u32, y: u32, z: u32) -> u32
    ensures { result ≡ ch x y z }
{
    z ^ (x & (y ^ z))
}

// Maj: the bit that at least two of three have. `y ^ z` here is the last round's `x ^ y`, so a compiler computes it once.
pub fn majority(x: u32, y: u32, z: u32) -> u32
    ensures { result ≡ maj x y z }
{
    y ^ ((x ^ y) & (y ^ z))
}

// Σ₀, at 2, 13 and 22, and Σ₁, at 6, 11 and 25: a word, rotated to the right by each of three numbers.
pub fn big_sigma<const A: u32, const B: u32, const C: u32>(x: u32) -> u32
    requires a { (0 < A) × (A < 32) }
    requires b { (0 < B) × (B < 32) }
    requires c { (0 < C) × (C < 32) }
    ensures { result ≡ bit_xor (bit_xor (rotr A x) (rotr B x)) (rotr C x) }
{
    x.rotate_right(A) ^ x.rotate_right(B) ^ x.rotate_right(C)
}

// σ₀, at 7, 18 and 3, and σ₁, at 17, 19 and 10, on four words of the message schedule: each is rotated by A and by B, and
// shifted by C.
pub fn small_sigma<const A: u32, const B: u32, const C: u32>(x: u32x4) -> u32x4
    requires a { (0 < A) × (A < 32) }
    requires b { (0 < B) × (B < 32) }
    requires c { C < 32 }
    ensures { result ≡ map (λ w. bit_xor (bit_xor (rotr A w) (rotr B w)) (shr C w)) x }
{
    rotate_right(x, A) ^ rotate_right(x, B) ^ (x >> u32x4::splat(C))
}

// Each of four words, rotated to the right.
fn rotate_right(x: u32x4, by: u32) -> u32x4
    requires { (0 < by) × (by < 32) }
    ensures { result ≡ map (rotr by) x }
{
    (x >> u32x4::splat(by)) | (x << u32x4::splat(32 - by))
}
