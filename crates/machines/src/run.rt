// A machine runs on the answers of a record.
use crate::machine::{Machine, Task};
use crate::record::{Given, Head};
use crate::{asked, machine, record, start};
use pci::Answer;
use std::io;
use stored::question::{Asked, Kind};

// How far a run is: the next answer, how often the pair that it ends was given, the last two questions, and whether the answers ran out.
#[derive(Clone, Copy)]
struct Place {
    at: u16,
    given: u64,
    older: Asked,
    newer: Asked,
    open: bool,
}

fn begin() -> Place {
    Place {
        at: 0,
        given: 0,
        older: asked::nothing(),
        newer: asked::nothing(),
        open: false,
    }
}

// A list lies in the bytes at the end of the record; one that does not is empty.
fn listed(m: Machine, h: Head, body: &[u8], from: u16, len: u16) -> Machine {
    let at = record::bytes_at(h) + from as usize;
    let list = body.get(at..at + len as usize).unwrap_or(b"");
    machine::step(m, Answer::List, list)
}

// The machine takes the next answer, where there is one. A fence is answered here: it is no bus call, and is not compared.
fn answered(m: Machine, kind: Kind, at: u16, h: Head, body: &[u8]) -> Machine {
    if kind == Kind::Fence {
        return machine::step(m, Answer::Done, b"");
    }
    if h.answers <= at {
        return m;
    }
    let s = record::taken(h, body, at);
    let given = s.given;
    match given {
        Given::Plain(a) => machine::step(m, a, b""),
        Given::List { from, len } => listed(m, h, body, from, len),
    }
}

// The question's line. Where a pair of answers is given again, the question must be the one that stood there before, and is not written again.
fn shown(rt: &impl Print, given: u64, older: Asked, q: Asked) -> io::Result<()> {
    if given == 0 {
        return println!(rt; "{q}");
    }
    if q == older {
        return Ok(());
    }
    println!(rt; "other {q}")
}

// The next answer; or the one before again, where this one ends a pair that is given more often.
fn moved(rt: &impl Print, p: Place, n: u64) -> io::Result<Place> {
    if n < 2 {
        return Ok(Place {
            at: p.at.saturating_add(1),
            ..p
        });
    }
    if p.given < n - 1 {
        return Ok(Place {
            at: p.at.saturating_sub(1),
            given: p.given + 1,
            ..p
        });
    }
    println!(rt; "times {n:x}")?;
    Ok(Place {
        at: p.at.saturating_add(1),
        given: 0,
        ..p
    })
}

// No answer is left: the open question.
fn left_open(rt: &impl Print, p: Place, q: Asked) -> io::Result<Place> {
    println!(rt; "open {q}")?;
    Ok(Place { open: true, ..p })
}

// The question is written.
fn onward(rt: &impl Print, p: Place, q: Asked, h: Head, body: &[u8]) -> io::Result<Place> {
    if q.kind == Kind::Fence {
        return Ok(p);
    }
    if h.answers <= p.at {
        return left_open(rt, p, q);
    }
    let s = record::taken(h, body, p.at);
    let older = p.older;
    let newer = p.newer;
    shown(rt, p.given, older, q)?;
    let told = Place {
        older: newer,
        newer: q,
        ..p
    };
    moved(rt, told, s.times)
}

// A run, and its text. A command asks no more than 1,202,000 questions.
pub(crate) fn ran(rt: &impl Print, h: Head, body: &[u8]) -> io::Result<()> {
    let mut m = start::start(h, body);
    let mut p = begin();
    for _ in 0..4000000 {
        let task = m.task;
        if let Task::Over(e) = task {
            let early = if p.at < h.answers { " early" } else { "" };
            return println!(rt; "{e}{early}");
        }
        if p.open {
            return Ok(());
        }
        let q = asked::asked(machine::asks(m));
        m = answered(m, q.kind, p.at, h, body);
        p = onward(rt, p, q, h, body)?;
    }
    println!(rt; "no end")
}
