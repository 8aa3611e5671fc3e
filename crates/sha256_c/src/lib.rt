// Measures for callers in C: a static library with the calls that a measurement of pages makes. C has no Result, so a call that
// may be refused returns a bool.
#![tactic(auto)]

ghost use Rattle.std.specs.Prelude.{◌≡◌, List, [], ◌++◌, true, false, ℕ, ◌==◌, length};
ghost use Rattle.sha256.specs.Sha.{sha256 as digest_of};
ghost use Rattle.sha256.specs.Words.{bytes_of, words_of};
ghost use Rattle.sha256.specs.Measures.{Measures};

use sha256::Measure;

// Nothing measured yet.
#[unsafe(no_mangle)]
pub extern "C" fn sha256_new(measure: &mut Measure)
    ensures { Measures measure.new [] }
{
    *measure = Measure::new();
}

// A page more; refused, with nothing changed, where there are not 1,024 words.
#[unsafe(no_mangle)]
pub extern "C" fn sha256_page(measure: &mut Measure, page: &[u32]) -> bool
    ensures refuses { result ≡ (length page.now == 1024) }
    ensures keeps { result ≡ false → measure.new ≡ measure.old }
    ensures measured { result ≡ true → (ws : List ℕ) → Measures measure.old ws
        → Measures measure.new (ws ++ page.now) }
{
    if page.len() != 1024 {
        return false;
    }
    *measure = measure.extend(page);
    true
}

// The name of what was measured, into a slice of eight words; refused, with nothing changed, where it has another length.
#[unsafe(no_mangle)]
pub extern "C" fn sha256_name(measure: &Measure, name: &mut [u32]) -> bool
    ensures refuses { result ≡ (length name.old == 8) }
    ensures keeps { result ≡ false → name.new ≡ name.old }
    ensures named { result ≡ true → (ws : List ℕ) → Measures measure.now ws
        → name.new ≡ words_of (digest_of (bytes_of ws)) }
{
    if name.len() != 8 {
        return false;
    }
    name.copy_from_slice(&measure.name());
    true
}
