// Registers that come as numbers.
ghost use Rattle.std.specs.Prelude.{◌≡◌, true, false, MatchOption};
ghost use Rattle.fields.specs.Shapes.{numbers_of};
ghost use Rattle.model.specs.State.{seventeen};

use fields::{Numbers, Registers};

// Seventeen words as registers; none where there are not seventeen numbers, or one is no word.
pub fn registers_from(numbers: Numbers<'_>) -> Option<Registers>
    ensures { MatchOption result (seventeen (numbers_of numbers.entry) ≡ false)
        (λ x. (seventeen (numbers_of numbers.entry) ≡ true) × (x.words ≡ numbers_of numbers.entry)) }
{
    if numbers.len() != 17 {
        return None;
    }
    let mut rest = numbers.iter();
    let mut words = [0; 17];
    for word in &mut words {
        *word = u32::try_from(rest.next()?).ok()?;
    }
    Some(Registers { words })
}
