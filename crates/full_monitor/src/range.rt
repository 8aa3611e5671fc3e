// Whether the numbers of a call are in range.
ghost use Rattle.std.specs.Prelude.{◌≡◌};
ghost use Rattle.calls.specs.Meaning.{call_of};
ghost use Rattle.model.specs.State.{word};
ghost use Rattle.full_monitor.specs.Program.{fits};

use calls::Call;

// Words have 32 bits.
fn is_word(number: u64) -> bool
    ensures { result ≡ word number }
{
    u32::try_from(number).is_ok()
}

// Words are words, there are seventeen registers, and the places where pages are put are of a cell's tables.
pub fn fits(call: Call<'_>) -> bool
    ensures { result ≡ fits (call_of call.entry) }
{
    match call {
        Call::Hold { place, .. } | Call::Show { place, .. } => growing::in_range(place),
        Call::Enter { x, y, z, .. } => is_word(x) && is_word(y) && is_word(z),
        Call::Interrupt { registers } => running::registers_from(registers).is_some(),
        Call::NewThread { start: number, .. }
        | Call::Leave { number }
        | Call::Fault { kind: number }
        | Call::Draw { number } => is_word(number),
        _ => true,
    }
}
