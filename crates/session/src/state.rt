// What a session holds.
ghost use Rattle.std.specs.Prelude.{List};
ghost use Rattle.model.specs.State.{Limits as ModelLimits};
ghost use Rattle.model.specs.Events.{Event};

mod methods;

use crate::under::Monitor;
pub use methods::open;
use std::marker::PhantomData;

// The monitor's memory, the closed pages and the open ones: those that some events made, with some limits.
#[derive(Drop)]
pub struct Session<M: Monitor> {
    memory: Vec<u64>,
    closed: Vec<u32>,
    open: Vec<u32>,
    of: PhantomData<M>,
    ghost made: { ∥ ((l : ModelLimits) × (es : List Event) × M.holds l es memory.items closed.items «open».items) ∥₁ },
}
