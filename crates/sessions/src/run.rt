// A session runs on the items of the input.
use crate::asked::Said;
use crate::item::{Item, What};
use crate::{asked, item, told};
use session::Top;
use std::io;
use std::io::Read;

// How far a list is: the kind of its last call; and the undo list, which is the caller's: how many records there are, and the two values of each, oldest first.
#[derive(Clone, Copy)]
struct Place {
    call: u8,
    undo: u64,
    heads: [u64; 256],
    params: [u64; 256],
}

// The number of `Done` over C linkage.
const DONE: u8 = 4;

fn begin() -> Place {
    Place {
        call: 0,
        undo: 0,
        heads: [0u64; 256],
        params: [0u64; 256],
    }
}

// The value of the newest of so many records, or 0 where there is none.
fn newest(list: [u64; 256], count: u64) -> u64 {
    if 0 < count {
        if count <= 256 {
            return list[count as usize - 1];
        }
    }
    0
}

// The undo list as it is lent: how many records there are, and the newest of them.
fn top(p: Place) -> Top {
    let heads = p.heads;
    let params = p.params;
    let head = newest(heads, p.undo);
    Top {
        count: p.undo as usize,
        op: item::op(head),
        op_mod: item::op_mod(head),
        in_mod: item::in_mod(head),
        in_param: newest(params, p.undo),
    }
}

// A record is pushed on the list.
fn pushed(rt: &impl Print, p: Place, i: Item) -> io::Result<Place> {
    println!(rt; "call a")?;
    if p.undo < 256 {
        let mut heads = p.heads;
        let mut params = p.params;
        let k = p.undo as usize;
        heads[k] = i.a;
        params[k] = i.b;
        println!(rt; "undo {:x}", p.undo + 1)?;
        return Ok(Place {
            undo: p.undo + 1,
            heads,
            params,
            ..p
        });
    }
    Ok(p)
}

// These bytes, and others behind them.
fn fill(out: &mut [u8], s: &[u8], other: u8) {
    out.fill(other);
    for (to, from) in out.iter_mut().zip(s) {
        *to = *from;
    }
}

// A new list: a fresh session. What the mailboxes hold before is no zero, so that a byte which the session leaves is seen.
fn fresh(
    rt: &impl Print,
    state: &mut [u8],
    inbox: &mut [u8],
    outbox: &mut [u8],
) -> io::Result<Place> {
    println!(rt; "list")?;
    turns::fresh_bytes(state);
    inbox.fill(0xa5);
    outbox.fill(0xa5);
    Ok(begin())
}

// The session is handed an answer.
fn given(
    kind: u8,
    a: u64,
    b: u64,
    list: &[u8],
    t: Top,
    state: &mut [u8],
    inbox: &mut [u8],
    outbox: &mut [u8],
) -> Said {
    let mut out = [0u8; 40];
    let kind = u32::from(kind);
    let code = turn_answer::answered(state, kind, a, b, list, inbox, outbox, t, &mut out);
    asked::read(code, &out)
}

// The session is called.
fn called(
    kind: u8,
    i: Item,
    list: &[u8],
    t: Top,
    state: &mut [u8],
    inbox: &mut [u8],
    outbox: &mut [u8],
) -> Said {
    let mut out = [0u8; 40];
    let code = turn_call::called(
        state,
        u32::from(kind),
        item::op(i.a),
        item::op_mod(i.a),
        item::in_mod(i.a),
        i.b,
        false,
        list,
        inbox,
        outbox,
        t,
        &mut out,
    );
    asked::read(code, &out)
}

// The kind of an answer where an even number of answers was given, and else `Done`.
fn in_turn(gone: u64, kind: u8) -> u8 {
    if gone % 2 == 0 {
        return kind;
    }
    DONE
}

// An answer and `Done` are given in turn, so often as the first value says. The line has that number, and a checksum of the questions that they led to, which have no lines.
fn again(
    rt: &impl Print,
    kind: u8,
    i: Item,
    t: Top,
    state: &mut [u8],
    inbox: &mut [u8],
    outbox: &mut [u8],
) -> io::Result<()> {
    let mut sum: u64 = 0;
    for gone in 0..i.a % 4294967296 * 2 {
        let q = given(in_turn(gone, kind), i.b, 0, b"", t, state, inbox, outbox);
        sum = asked::counted(sum, q);
    }
    println!(rt; "times {:x} {sum:x}", i.a)
}

// What an item asks for, and what it has led to; its bytes are the list.
fn turn(
    rt: &impl Print,
    p: Place,
    i: Item,
    list: &[u8],
    state: &mut [u8],
    inbox: &mut [u8],
    outbox: &mut [u8],
) -> io::Result<Place> {
    let t = top(p);
    let (call, q) = match i.what {
        What::List => return fresh(rt, state, inbox, outbox),
        What::Push => return pushed(rt, p, i),
        What::Outbox => {
            fill(outbox, list, 0);
            return Ok(p);
        }
        What::Again(kind) => {
            again(rt, kind, i, t, state, inbox, outbox)?;
            return Ok(p);
        }
        What::Call(kind) => {
            println!(rt; "call {kind:x}")?;
            (kind, called(kind, i, list, t, state, inbox, outbox))
        }
        What::Answer(kind) => (p.call, given(kind, i.a, i.b, list, t, state, inbox, outbox)),
    };
    told::came(rt, q, call, state, inbox, outbox)?;
    Ok(Place {
        call,
        undo: q.undo,
        ..p
    })
}

// The items, one after the other. No input has so many; a proved loop has to end.
fn run(
    rt: &impl Print,
    input: &mut impl Read,
    room: &mut [u8],
    state: &mut [u8],
    inbox: &mut [u8],
    outbox: &mut [u8],
) -> io::Result<()> {
    let mut p = begin();
    for _ in 0..u64::MAX {
        let Some(i) = item::next(input, room)? else {
            break;
        };
        let list = room.get(..i.bytes as usize).unwrap_or(b"");
        p = turn(rt, p, i, list, state, inbox, outbox)?;
    }
    Ok(())
}

// All lists.
pub(crate) fn lists(rt: &impl Print, input: &mut impl Read) -> io::Result<()> {
    let mut room = [0u8; 4096];
    let mut state = [0u8; words::STATE_BYTES];
    let mut inbox = [0u8; 4096];
    let mut outbox = [0u8; 4096];
    run(rt, input, &mut room, &mut state, &mut inbox, &mut outbox)
}
