// Reads stored answers of the Rust on standard input, computes each anew with the proved leaves, and prints for each leaf its name, how many answers
// were compared and how many differ. docs/REPLAY.md has the form of the input, and how it is made.
#![tactic(auto)]

mod bar;
mod field;
mod memory;
mod names;
mod records;
mod tables;
mod words;

ghost use Rattle.std.specs.Prelude.{◌≤◌};

use records::Head;
use std::io;
use stored::input;

// The bytes behind a head that a record may have.
const ROOM: usize = 4096;

// How many answers were compared, and how many of them differ.
#[derive(Clone, Copy)]
struct Tally {
    compared: u64,
    differ: u64,
}

// The tallies of the leaves, and last of the numbers that no leaf has.
type Tallies = [Tally; names::NO_LEAF + 1];

fn count(all: &mut Tallies, leaf: u16, same: bool) {
    let k = usize::from(leaf).min(names::NO_LEAF);
    let t = &mut all[k];
    t.compared = t.compared.wrapping_add(1);
    if !same {
        t.differ = t.differ.wrapping_add(1);
    }
}

// The leaves that had answers, by number.
fn report(rt: &impl Print, all: &Tallies) -> io::Result<()> {
    for (name, t) in names::NAMES.iter().zip(all) {
        if t.compared != 0 {
            println!(rt; "{name} {} {}", t.compared, t.differ)?;
        }
    }
    Ok(())
}

// No list has so many records; a proved loop has to end.
fn replay(rt: &impl Print, input: &mut impl io::Read, all: &mut Tallies) -> io::Result<()> {
    for _ in 0..u64::MAX {
        let mut head = [0u8; Head::BYTES];
        if !input::head(input, &mut head)? {
            return Ok(());
        }
        let h = records::head_of(&head);
        let mut body = [0u8; ROOM];
        if !input::filled(input, &mut body, records::length(h))? {
            return println!(rt; "damaged");
        }
        count(all, h.leaf, records::agrees(h, &body));
    }
    Ok(())
}

fn main(rt: HostRuntime) -> io::Result<()> {
    let none = Tally {
        compared: 0,
        differ: 0,
    };
    let mut all = [none; names::NO_LEAF + 1];
    replay(&rt, &mut rt.stdin(), &mut all)?;
    report(&rt, &all)
}
