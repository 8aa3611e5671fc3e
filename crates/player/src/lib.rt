// Plays a file of calls to a monitor, and prints what each is answered: all of the programs that do so, but their names.
#![tactic(auto)]

mod errors;
mod lines;
mod options;
mod player;
mod printer;

use errors::Error;
pub use errors::Failed;
use options::{Asked, Prints, Source};
use session::Monitor;
use std::fs;

fn help(rt: &HostRuntime, program: &str) {
    let _ = println!(rt;
        "{program}: plays a file of calls to the monitor, and prints what each is answered

usage: {program} [--system] [--echo] FILE
       {program} --help

FILE is a path, or - for standard input. Its first line that isn't empty or a comment is
'limits CLOSED OPEN'; then each line is a call, as 'new cell 0 top 1', or one of 'write open',
'write closed', 'print open' and 'print closed'. A line that can't be read is refused by 1, with
its number, counted from 0, and the next one is taken.

  --system  print what the system is told, in the place of what the machine is answered
  --echo    print each line before what it is answered
  --help    print this

The status is 0, or 1 if there is no such file, if its first line isn't limits, or if they are
out of range: closed pages from 2 to 4096, open pages up to 1048576."
    );
}

fn play_source<M: Monitor>(rt: &HostRuntime, source: &Source, prints: Prints) -> Result<(), Error> {
    let heap = rt.alloc();
    match source {
        Source::Input => player::play::<M, _, _>(heap, rt.stdin(), rt.stdout(), prints),
        Source::File(path) => {
            let file = fs::open(rt, path.as_str())?;
            player::play::<M, _, _>(heap, file, rt.stdout(), prints)
        }
    }
}

// Does what the program's arguments ask for. Its messages begin with the program's name.
pub fn run<M: Monitor>(rt: &HostRuntime, program: &str) -> Result<(), Failed> {
    match options::read(rt) {
        Ok(Asked::Help) => {
            help(rt, program);
            Ok(())
        }
        Ok(Asked::Play { source, prints }) => match play_source::<M>(rt, &source, prints) {
            Ok(()) => Ok(()),
            Err(error) => {
                let _ = eprintln!(rt; "{program}: {source}: {error}");
                Err(Failed)
            }
        },
        Err(error) => {
            let _ = eprintln!(rt; "{program}: {error}; try '{program} --help'");
            Err(Failed)
        }
    }
}
