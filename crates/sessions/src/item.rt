// An item of the input: a kind and two values, and the number of bytes that follow it, of 1, 8, 8 and 2 bytes.
use fields::Order;
use std::io;
use std::io::Read;
use stored::input;

// What an item is.
#[derive(Clone, Copy)]
pub(crate) enum What {
    // A call of hca_call's kind.
    Call(u8),
    // A record is pushed on the undo list.
    Push,
    // An answer of a kind.
    Answer(u8),
    // An answer of a kind is given, and `Done` behind it, as often as the first value says.
    Again(u8),
    // The outbox as the device has it.
    Outbox,
    // A new list begins.
    List,
}

// What an item of a kind is; nothing at the end of the list.
fn what_of(kind: u8) -> Option<What> {
    match kind {
        10 => Some(What::Push),
        0..=15 => Some(What::Call(kind)),
        16..=31 => Some(What::Answer(kind % 16)),
        48 => Some(What::Outbox),
        49 => Some(What::List),
        255 => None,
        _ => Some(What::Again(kind % 16)),
    }
}

#[derive(Clone, Copy)]
pub(crate) struct Item {
    pub what: What,
    pub a: u64,
    pub b: u64,
    pub bytes: u16,
}

// The number of so many bytes at a place, or 0 where it passes the end.
fn number(s: &[u8], order: Order, at: usize, width: usize) -> u64 {
    fields::field(s, order, at, width).unwrap_or(0)
}

// Word k of what a session says; those of an item are big-endian.
pub(crate) fn word(s: &[u8], k: u16) -> u64 {
    number(s, Order::Little, k as usize * 8, 8)
}

// The opcode, its modifier and the input modifier, which a call and an undo record have in one value.
pub(crate) fn op(a: u64) -> u16 {
    (a / 1099511627776 % 65536) as u16
}

pub(crate) fn op_mod(a: u64) -> u8 {
    (a / 4294967296 % 256) as u8
}

pub(crate) fn in_mod(a: u64) -> u32 {
    (a % 4294967296) as u32
}

// The next item, and its bytes at the start of the room; nothing where there is no item any more, or it is cut off.
pub(crate) fn next(input: &mut impl Read, room: &mut [u8]) -> io::Result<Option<Item>> {
    let mut head = [0u8; 19];
    if !input::filled(input, &mut head, 19)? {
        return Ok(None);
    }
    let bytes = (number(&head, Order::Big, 17, 2) % 65536) as u16;
    if !input::filled(input, room, bytes as usize)? {
        return Ok(None);
    }
    let Some(what) = what_of((number(&head, Order::Big, 0, 1) % 256) as u8) else {
        return Ok(None);
    };
    Ok(Some(Item {
        what,
        a: number(&head, Order::Big, 1, 8),
        b: number(&head, Order::Big, 9, 8),
        bytes,
    }))
}
