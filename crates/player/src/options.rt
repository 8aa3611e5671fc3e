// What the program is asked to do.
use std::{env, fmt};

#[derive(Drop)]
pub enum Asked {
    Help,
    Play { source: Source, prints: Prints },
}

#[derive(Drop)]
pub enum Source {
    Input,
    File(String),
}

impl fmt::Display for Source {
    fn fmt<W: fmt::Write>(&self, f: &mut fmt::Formatter<W>) -> fmt::Result {
        match self {
            Source::Input => write!(f, "standard input"),
            Source::File(path) => write!(f, "{path}"),
        }
    }
}

// What is printed of each line.
#[derive(Clone, Copy)]
pub struct Prints {
    pub system: bool,
    pub echo: bool,
}

// What is wrong with the arguments.
#[derive(Debug, Drop)]
pub enum BadOptions {
    Unreadable,
    NoSuchOption,
    NoFile,
}

impl fmt::Display for BadOptions {
    fn fmt<W: fmt::Write>(&self, f: &mut fmt::Formatter<W>) -> fmt::Result {
        match self {
            BadOptions::Unreadable => write!(f, "the arguments can't be read"),
            BadOptions::NoSuchOption => {
                write!(
                    f,
                    "an option that is none: expected --system, --echo or --help"
                )
            }
            BadOptions::NoFile => write!(f, "expected a file of calls"),
        }
    }
}

// The program's arguments. The last file that is named is played.
pub fn read(rt: &HostRuntime) -> Result<Asked, BadOptions> {
    let args = env::args(rt).map_err(|_error| BadOptions::Unreadable)?;
    let mut named = None;
    let mut prints = Prints {
        system: false,
        echo: false,
    };
    for arg in args.skip(1) {
        match arg.as_str() {
            "--help" => return Ok(Asked::Help),
            "--system" => prints.system = true,
            "--echo" => prints.echo = true,
            "-" => named = Some(Source::Input),
            other if other.starts_with("--") => return Err(BadOptions::NoSuchOption),
            _ => named = Some(Source::File(arg)),
        }
    }
    let source = named.ok_or(BadOptions::NoFile)?;
    Ok(Asked::Play { source, prints })
}
