// Plays a file of calls to the monitor with all its calls, and prints what each is answered.
#![tactic(auto)]

use full_session::Whole;
use player::Failed;

fn main(rt: HostRuntime) -> Result<(), Failed> {
    player::run::<Whole>(&rt, "run_full")
}
