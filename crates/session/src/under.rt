// What a session asks of the monitor under it.
ghost use Rattle.std.specs.Prelude.{ℕ, List, Result};
ghost use Rattle.fields.specs.declared.values.Unwritten.{Unwritten as UnwrittenOf};
ghost use Rattle.calls.specs.Table.{read_call};
ghost use Rattle.model.specs.Calls.{Call};
ghost use Rattle.model.specs.State.{Limits as ModelLimits};
ghost use Rattle.model.specs.Events.{Event};
ghost use Rattle.monitor.specs.Called.{Slices};
ghost use Rattle.monitor.specs.declared.values.Reply.{Reply as ReplyOf};
ghost use Rattle.session.specs.Holding.{HoldsAtFirst, CallsHold, WritesHold, OpenWritesHold};

use fields::Unwritten;
use monitor::Reply;

pub trait Monitor {
    // What is so of the memory, the closed pages and the open ones, with these limits and after these events.
    ghost holds: { ModelLimits → List Event → List ℕ → List ℕ → List ℕ → Type 0 };

    // What a call does over open pages: what is lent before it and after it, and what it returns.
    ghost does: { List ℕ → Call → Slices → Slices → Result ReplyOf UnwrittenOf → Type 0 };

    // Takes a call, or refuses it. What the system is told is written at the front of `told`.
    fn call(
        memory: &mut [u64],
        closed: &mut [u32],
        open: &[u32],
        bytes: &[u8],
        told: &mut [u8],
    ) -> Result<Reply, Unwritten>
        requires { ∥ ((l : ModelLimits) × (es : List Event) × holds l es memory.old closed.old «open».now) ∥₁ }
        ensures { does «open».now (read_call bytes.now)
            (record { memory = memory.old; closed = closed.old; told = told.old })
            (record { memory = memory.new; closed = closed.new; told = told.new }) result };

    ghost at_first: { HoldsAtFirst holds };

    ghost calls_hold: { CallsHold holds does };

    ghost writes_hold: { WritesHold holds };

    ghost open_writes_hold: { OpenWritesHold holds };
}
