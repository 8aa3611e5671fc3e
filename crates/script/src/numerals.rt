// Decimal numbers.
ghost use Rattle.std.specs.Prelude.{◌≡◌};
ghost use Rattle.script.specs.Numerals.{digits_on, number_of};

fn digits(word: &[u8]) -> Option<u64>
    ensures { result ≡ digits_on 0 word.now }
{
    let mut number = 0u64;
    for byte in word {
        let digit = char::from(*byte).to_digit(10)?;
        number = number.checked_mul(10)?.checked_add(u64::from(digit))?;
    }
    Some(number)
}

// The number that a word is.
pub fn number(word: &[u8]) -> Option<u64>
    ensures { result ≡ number_of word.now }
{
    match word {
        [] | [b'0', _, ..] => None,
        _ => digits(word),
    }
}
