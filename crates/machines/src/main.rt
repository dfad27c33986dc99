// Runs the small machines of a session on stored answers: reads records on standard input, each a machine, what it starts with and the answers that its
// questions get, and prints every question, one to a line, and how the machine ended. docs/REPLAY.md has the form of the input.
#![tactic(auto)]

mod asked;
mod machine;
mod record;
mod run;
mod start;

use record::Head;
use std::io;
use stored::input;

// The bytes behind a head that a record may have.
const ROOM: usize = 8192;

// No list has so many records; a proved loop has to end.
fn replay(rt: &impl Print, input: &mut impl io::Read) -> io::Result<()> {
    for _ in 0..u64::MAX {
        let mut head = [0u8; Head::BYTES];
        if !input::head(input, &mut head)? {
            return Ok(());
        }
        let h = record::head_of(&head);
        let mut body = [0u8; ROOM];
        if !input::filled(input, &mut body, record::length(h))? {
            return println!(rt; "damaged");
        }
        run::ran(rt, h, &body)?;
    }
    Ok(())
}

fn main(rt: HostRuntime) -> io::Result<()> {
    replay(&rt, &mut rt.stdin())
}
