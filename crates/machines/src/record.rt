// A record: the machine's number, how many words it starts with, how many answers there are, and the length of the bytes behind them, 16 bits each; then
// the words, 64 bits each; three words for every answer; and the bytes of the resource lists.
ghost use Rattle.std.specs.Prelude.{◌≡◌, ◌+◌, ◌*◌, ◌≤◌, ◌<◌};

use pci::Answer;

#[derive(Clone, Copy)]
pub(crate) struct Head {
    pub machine: u16,
    pub words: u16,
    pub answers: u16,
    pub bytes: u16,
}

impl Head {
    pub const BYTES: usize = 8;
}

// What a question gets: an answer by itself, or a resource list, by where it starts in the bytes and its length.
#[derive(Clone, Copy)]
pub(crate) enum Given {
    Plain(Answer),
    List { from: u16, len: u16 },
}

// A stored answer, and how often it and the one before it are given in turn, where that is more than once.
#[derive(Clone, Copy)]
pub(crate) struct Stored {
    pub given: Given,
    pub times: u64,
}

fn half(s: &[u8], off: usize) -> u16 {
    fields::be16(s, off).unwrap_or(0)
}

pub(crate) fn head_of(s: &[u8]) -> Head {
    Head {
        machine: half(s, 0),
        words: half(s, 2),
        answers: half(s, 4),
        bytes: half(s, 6),
    }
}

// Where the answers start.
fn answers_at(h: Head) -> usize
    ensures { (result ≡ h.words * 8) × (result ≤ 524280) }
{
    h.words as usize * 8
}

// Where the bytes start.
pub(crate) fn bytes_at(h: Head) -> usize
    ensures { (result ≡ h.words * 8 + h.answers * 24) × (result ≤ 2097120) }
{
    answers_at(h) + h.answers as usize * 24
}

// The bytes behind the head.
pub(crate) fn length(h: Head) -> usize
    ensures { result ≡ h.words * 8 + h.answers * 24 + h.bytes }
{
    bytes_at(h) + h.bytes as usize
}

// The 64 bits at a place, or 0 where there are none.
fn qword(body: &[u8], at: usize) -> u64 {
    fields::be64(body, at).unwrap_or(0)
}

// Word k of those that a machine starts with, or 0 where there is none.
pub(crate) fn word(h: Head, body: &[u8], k: u16) -> u64 {
    if k < h.words {
        return qword(body, k as usize * 8);
    }
    0
}

// The answer of a kind with two values; a kind that is not known counts as failed.
fn given_as(kind: u64, a: u64, b: u64) -> Given {
    match kind {
        0 => Given::Plain(Answer::Word((a % 65536) as u16)),
        1 => Given::Plain(Answer::Dword((a % 4294967296) as u32)),
        2 => Given::Plain(Answer::Qword(a)),
        3 => Given::Plain(Answer::Done),
        5 => Given::Plain(Answer::Handle(a)),
        6 => Given::Plain(Answer::Mapped(a, b)),
        7 => Given::List {
            from: (a % 65536) as u16,
            len: (b % 65536) as u16,
        },
        _ => Given::Plain(Answer::Failed),
    }
}

// Answer k.
pub(crate) fn taken(h: Head, body: &[u8], k: u16) -> Stored {
    let at = answers_at(h) + k as usize * 24;
    let first = qword(body, at);
    Stored {
        given: given_as(first % 256, qword(body, at + 8), qword(body, at + 16)),
        times: first / 256,
    }
}
