// Reads a capability reply on standard input and prints the layout of the ICM tables, in the order of their bases: name, entry size and count in
// decimal, bytes and base in hexadecimal; then the total. Where the reply or its layout is refused, it prints `refused` and the number.
#![tactic(auto)]

use layout::{Layout, Table};
use reply::{DevCap, Kind};
use std::io;
use stored::input;

fn refused(rt: &impl Print, number: u32) -> io::Result<()> {
    println!(rt; "refused {number}")
}

fn name(index: usize) -> &'static str {
    match index {
        Kind::QPC => "QPC",
        Kind::RDMARC => "RDMARC",
        Kind::ALTC => "ALTC",
        Kind::AUXC => "AUXC",
        Kind::SRQC => "SRQC",
        Kind::CQC => "CQC",
        Kind::EQC => "EQC",
        Kind::DMPT => "dMPT",
        Kind::CMPT => "cMPT",
        Kind::MTT => "MTT",
        _ => "MCG",
    }
}

fn row(rt: &impl Print, t: Table) -> io::Result<()> {
    let name = name(t.index);
    println!(rt; "{name} {} {} {:x} {:x}", t.entry, t.count, t.bytes, t.base)
}

fn list(rt: &impl Print, l: Layout) -> io::Result<()> {
    for t in l.rows {
        row(rt, t)?;
    }
    println!(rt; "total {:x}", l.total)
}

fn lay_out(rt: &impl Print, cap: DevCap) -> io::Result<()> {
    match layout::profile(cap) {
        Ok(l) => list(rt, l),
        Err(why) => refused(rt, why.number()),
    }
}

// The bytes of a reply that are read; what stands behind them is not looked at.
const ROOM: usize = 4096;

fn main(rt: HostRuntime) -> io::Result<()> {
    let mut space = [0u8; ROOM];
    let n = input::part(&mut rt.stdin(), &mut space)?;
    match reply::dev_cap(&space[..n], None) {
        Ok(cap) => lay_out(&rt, cap),
        Err(why) => refused(&rt, why.number()),
    }
}
