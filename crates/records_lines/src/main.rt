// Decodes lines of a record kind and eight bytes in hexadecimal digits, and prints for each the bytes encoded again
// or why it is refused.
#![tactic(auto)]

mod answers;
mod lines;

use crate::answers::{Answer, reply};
use std::io;
use std::io::{BufRead, BufReader};

fn main(rt: HostRuntime) -> io::Result<()> {
    let lines = BufReader::new(rt.alloc(), rt.stdin())?.split(rt.alloc(), b'\n');
    for (number, line) in (1..).zip(lines) {
        let answer = Answer(reply(number, &line?));
        println!(rt; "{answer}")?;
    }
    Ok(())
}
