// The commissioning line: how many blocks a box must have for its figures.
#![tactic(auto)]

mod arguments;
mod complaints;
mod lines;

use arguments::figures_asked_for;
use lines::Sizing;
use std::env;
use std::process::ExitCode;

fn main(rt: HostRuntime) -> anyhow::Result<ExitCode> {
    let words: Vec<String> = env::args(&rt)?.skip(1).collect(rt.alloc())?;
    match figures_asked_for(words.as_slice()) {
        Ok(figures) => {
            let sizing = Sizing::new(&figures);
            println!(rt; "{sizing}")?;
            Ok(ExitCode::SUCCESS)
        }
        Err(complaint) => {
            eprintln!(rt; "sizing: {complaint}")?;
            Ok(ExitCode::FAILURE)
        }
    }
}

#[cfg(test)]
mod tests;
