// A record of the list: the leaf's number and three lengths, 16 bits each; then the input's words, its bytes, and the answer, whose zeros at the end
// are left out.
ghost use Rattle.std.specs.Prelude.{◌≡◌, ◌+◌, ◌<◌, length};

use crate::{bar, field, memory, tables};

#[derive(Clone, Copy)]
pub(crate) struct Head {
    pub leaf: u16,
    pub args: u16,
    pub bytes: u16,
    pub answer: u16,
}

impl Head {
    pub const BYTES: usize = 8;
}

fn half(s: &[u8], off: usize) -> u16 {
    fields::be16(s, off).unwrap_or(0)
}

pub(crate) fn head_of(s: &[u8]) -> Head {
    Head {
        leaf: half(s, 0),
        args: half(s, 2),
        bytes: half(s, 4),
        answer: half(s, 6),
    }
}

// The bytes behind the head.
pub(crate) fn length(h: Head) -> usize
    ensures { result ≡ h.args + h.bytes + h.answer }
{
    h.args as usize + h.bytes as usize + h.answer as usize
}

// Whether the leaf gives the stored answer.
pub(crate) fn agrees(h: Head, body: &[u8]) -> bool {
    let a = h.args as usize;
    let b = a + h.bytes as usize;
    let c = b + h.answer as usize;
    if body.len() < c {
        return false;
    }
    let mut out = [0u8; 4352];
    let known = compute(h.leaf as usize, &body[..a], &body[a..b], &mut out);
    if !known {
        return false;
    }
    matches(&out, &body[b..c])
}

// The answer of a leaf to a stored input; false for a number that no leaf has.
fn compute(leaf: usize, args: &[u8], bytes: &[u8], out: &mut [u8]) -> bool {
    if leaf < field::END {
        return field::answer(leaf, args, bytes, out);
    }
    if leaf < bar::END {
        return bar::answer(leaf, args, bytes, out);
    }
    if leaf < memory::END {
        return memory::answer(leaf, args, out);
    }
    tables::answer(leaf, args, bytes, out)
}

// The stored bytes, and zeros behind them.
fn matches(out: &[u8], stored: &[u8]) -> bool {
    match out.strip_prefix(stored) {
        Some(rest) => rest.iter().all(|b| *b == 0),
        None => false,
    }
}
