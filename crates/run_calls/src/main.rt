// Plays a file of calls to the monitor's first stage, and prints what each is answered.
#![tactic(auto)]

use player::Failed;
use session::Stage;

fn main(rt: HostRuntime) -> Result<(), Failed> {
    player::run::<Stage>(&rt, "run_calls")
}
