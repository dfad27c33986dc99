// What a call gives.
use crate::item;
use stored::question::{Asked, Kind, UnknownKind};

// 0 or its refusal; the number of the question's kind and the question's values; and how many undo records are left.
#[derive(Clone, Copy)]
pub(crate) struct Said {
    pub refusal: u32,
    pub number: u64,
    pub values: [u64; 3],
    pub undo: u64,
}

impl Said {
    // The question; an error where its kind has no such number.
    pub(crate) fn asked(self) -> Result<Asked, UnknownKind> {
        let kind = Kind::try_from(self.number)?;
        let values = self.values;
        Ok(Asked { kind, values })
    }
}

// What a call has written.
pub(crate) fn read(refusal: u32, out: &[u8]) -> Said {
    Said {
        refusal,
        number: item::word(out, 0),
        values: [item::word(out, 1), item::word(out, 2), item::word(out, 3)],
        undo: item::word(out, 4),
    }
}

// A checksum with one number more: 257 times as much, and the number, modulo 2^64.
pub(crate) fn summed(sum: u64, v: u64) -> u64 {
    sum.wrapping_mul(257).wrapping_add(v)
}

// A checksum with the question's numbers.
pub(crate) fn counted(sum: u64, q: Said) -> u64 {
    q.values
        .iter()
        .fold(summed(sum, q.number), |sum, v| summed(sum, *v))
}
