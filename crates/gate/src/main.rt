// Reads standard input, and prints what the gate answers.
// What is left of the two programs differs in the call; a closure for it would be no plainer.
#![tactic(auto)]

use session::{read_input, transcript};
use std::io;
use std::io::Write;

fn main(rt: HostRuntime) -> io::Result<()> {
    let input = read_input(rt.alloc(), rt.stdin())?;
    let out = transcript(rt.alloc(), input.as_slice())?;
    rt.stdout().write_all(out.as_bytes())
}
