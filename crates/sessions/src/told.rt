// What a call or an answer has led to, as lines of text.
ghost use Rattle.std.specs.Prelude.{◌<◌, ◌≤◌};

use crate::asked::Said;
use crate::{asked, item};
use std::io;
use stored::question::{Kind, UnknownKind};

// What a call may come to: its opening failed, or the session was closed. Else it is open.
const FAILED: u64 = 3;

const CLOSED: u64 = 4;

// The kind of a call that opens.
const OPEN: u8 = 0;

fn checksum(s: &[u8]) -> u64 {
    s.iter().fold(0, |sum, b| asked::summed(sum, u64::from(*b)))
}

// A line of a name and the words from one on, before another.
fn row(rt: &impl Print, name: &str, s: &[u8], from: u16, to: u16) -> io::Result<()> {
    print!(rt; "{name}")?;
    for k in from..to {
        print!(rt; " {:x}", item::word(s, k))?;
    }
    println!(rt)
}

// Rows of so many words each, from a word on, before another.
fn rows(rt: &impl Print, name: &str, s: &[u8], from: u16, to: u16, width: u16) -> io::Result<()>
    requires { (to ≤ 280) × (0 < width) × (width ≤ 17) }
{
    for k in (from..to).step_by(usize::from(width)) {
        row(rt, name, s, k, k + width)?;
    }
    Ok(())
}

// The word behind the ports that were asked about, of two.
fn ports_end(n: u64) -> u16
    ensures { result ≤ 280 }
{
    (n % 3 * 17 + 40) as u16
}

// The word behind the lent buffers, of 64.
fn lent_end(n: u64) -> u16
    ensures { result ≤ 280 }
{
    (n % 65 * 3 + 88) as u16
}

// What an opening has found out.
fn setup(rt: &impl Print, s: &[u8]) -> io::Result<()> {
    row(rt, "uar", s, 0, 3)?;
    row(rt, "func", s, 4, 8)?;
    row(rt, "caps", s, 8, 21)?;
    row(rt, "flags", s, 22, 40)?;
    rows(rt, "port", s, 40, ports_end(item::word(s, 74)), 17)?;
    row(rt, "layout", s, 74, 78)?;
    rows(rt, "table", s, 78, 133, 5)?;
    row(rt, "compared", s, 133, 134)
}

// What an open session holds.
fn books(rt: &impl Print, s: &[u8], records: u64) -> io::Result<()> {
    row(rt, "books", s, 0, 5)?;
    row(rt, "broken", s, 6, 11)?;
    rows(rt, "lent", s, 88, lent_end(item::word(s, 1)), 3)?;
    println!(rt; "undo {records:x}")
}

// What an open session has found out, behind its opening, and what it holds.
fn opened(
    rt: &impl Print,
    call: u8,
    res: u64,
    found: &[u8],
    held: &[u8],
    records: u64,
) -> io::Result<()> {
    if res == FAILED || res == CLOSED {
        return Ok(());
    }
    if call == OPEN {
        setup(rt, found)?;
    }
    books(rt, held, records)
}

fn gave(rt: &impl Print, call: u8, records: u64, state: &[u8]) -> io::Result<()> {
    let mut result = [0u8; 40];
    let mut found = [0u8; 1072];
    let mut held = [0u8; 2240];
    readers::result_bytes(state, &mut result);
    readers::setup_bytes(state, &mut found);
    readers::books_bytes(state, &mut held);
    row(rt, "gave", &result, 0, 5)?;
    opened(rt, call, item::word(&result, 0), &found, &held, records)
}

fn boxes(rt: &impl Print, inbox: &[u8], outbox: &[u8]) -> io::Result<()> {
    println!(rt; "boxes {:x} {:x}", checksum(inbox), checksum(outbox))
}

// What a call of that kind, or an answer in it, has led to: a refusal, the call's end, or a question.
pub(crate) fn came(
    rt: &impl Print,
    q: Said,
    call: u8,
    state: &[u8],
    inbox: &[u8],
    outbox: &[u8],
) -> io::Result<()> {
    if q.refusal != 0 {
        return println!(rt; "refused {:x}", q.refusal);
    }
    match q.asked() {
        Ok(x) => match x.kind {
            Kind::Finished => {
                gave(rt, call, q.undo, state)?;
                boxes(rt, inbox, outbox)
            }
            Kind::Fence => println!(rt; "fence {:x}", checksum(inbox)),
            _ => println!(rt; "{x}"),
        },
        Err(UnknownKind(number)) => println!(rt; "unknown {number:x}"),
    }
}
