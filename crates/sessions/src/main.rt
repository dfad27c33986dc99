// Runs lists of calls on stored answers: reads items on standard input, each a call on the session or an answer to its question, and prints every question, one to a line, and
// what each call came to. docs/REPLAY.md has the form of the input.
#![tactic(auto)]

mod asked;
mod item;
mod run;
mod told;

use std::io;

fn main(rt: HostRuntime) -> io::Result<()> {
    run::lists(&rt, &mut rt.stdin())
}
