// Plays the runs that texts write, and prints for each its name and a line for each call.
#![tactic(auto)]

mod calls;
mod lines;
mod playing;
mod scripts;
mod words;

use crate::playing::lines_of;
use crate::scripts::{Script, ScriptFault, read_scripts};
use std::process::ExitCode;
use std::{env, fmt, fs, io};

// Why no runs are read from a file: it cannot be read, or it writes none.
#[derive(Drop)]
enum FileFault {
    Unread(io::Error),
    Unfit(ScriptFault),
}

impl From<io::Error> for FileFault {
    fn from(error: io::Error) -> FileFault {
        FileFault::Unread(error)
    }
}

impl From<ScriptFault> for FileFault {
    fn from(fault: ScriptFault) -> FileFault {
        FileFault::Unfit(fault)
    }
}

impl fmt::Display for FileFault {
    fn fmt<W: fmt::Write>(&self, f: &mut fmt::Formatter<W>) -> fmt::Result {
        match self {
            FileFault::Unread(error) => write!(f, "{error}"),
            FileFault::Unfit(fault) => write!(f, "{fault}"),
        }
    }
}

// The runs that a file writes.
fn scripts_in(rt: &HostRuntime, file: &str) -> Result<Vec<Script>, FileFault> {
    let text = fs::read_to_string(rt, file)?;
    Ok(read_scripts(rt.alloc(), text.as_str())?)
}

// Plays runs one after another.
fn print_runs(rt: &HostRuntime, scripts: &[Script]) -> anyhow::Result<()> {
    for script in scripts {
        println!(rt; "run {}", script.name)?;
        let lines = lines_of(rt.alloc(), script)?;
        for line in &lines {
            println!(rt; "{line}")?;
        }
    }
    Ok(())
}

fn main(rt: HostRuntime) -> anyhow::Result<ExitCode> {
    let files: Vec<String> = env::args(&rt)?.skip(1).collect(rt.alloc())?;
    if files.is_empty() {
        eprintln!(rt; "bench: give a file of runs")?;
        return Ok(ExitCode::FAILURE);
    }
    let mut texts = Vec::new(rt.alloc());
    for file in &files {
        match scripts_in(&rt, file.as_str()) {
            Ok(scripts) => texts.push(scripts)?,
            Err(fault) => {
                eprintln!(rt; "bench: {file}: {fault}")?;
                return Ok(ExitCode::FAILURE);
            }
        }
    }
    for scripts in &texts {
        print_runs(&rt, scripts.as_slice())?;
    }
    Ok(ExitCode::SUCCESS)
}
