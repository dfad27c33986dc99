// The leaves 0 to 14: fields read and written.
ghost use Rattle.std.specs.Prelude.{◌+◌, ◌≤◌, length};

use crate::words;
use leaves::field;

pub(crate) const END: usize = 15;

const BEHIND: usize = 8;

pub(crate) fn answer(leaf: usize, args: &[u8], bytes: &[u8], out: &mut [u8]) -> bool {
    if leaf < 7 {
        read(leaf, args, bytes, out);
        return true;
    }
    if out.len() < BEHIND {
        return false;
    }
    if out.len() - BEHIND < bytes.len() {
        return false;
    }
    write(leaf, args, bytes, out);
    true
}

// The number, and the bytes as they are then; clearing has no number.
fn write(leaf: usize, args: &[u8], bytes: &[u8], out: &mut [u8])
    requires { 8 + length bytes.now ≤ length out.old }
{
    copy(bytes, out);
    let end = BEHIND + bytes.len();
    let number = written(leaf, args, &mut out[BEHIND..end]);
    if leaf < 14 {
        words::put(out, 0, number as u64);
    }
}

fn read(leaf: usize, args: &[u8], bytes: &[u8], out: &mut [u8]) -> u32 {
    let off = words::place(args, 0);
    match leaf {
        0 => field::leaf_field(
            bytes,
            words::is_set(args, 0),
            words::place(args, 1),
            words::place(args, 2),
            out,
        ),
        1 => field::leaf_byte(bytes, off, out),
        2 => field::leaf_be16(bytes, off, out),
        3 => field::leaf_be32(bytes, off, out),
        4 => field::leaf_be64(bytes, off, out),
        5 => field::leaf_le16(bytes, off, out),
        _ => field::leaf_le64(bytes, off, out),
    }
}

// The bytes behind the answer's first word.
fn copy(bytes: &[u8], out: &mut [u8])
    requires { 8 + length bytes.now ≤ length out.old }
{
    for i in 0..bytes.len() {
        out[BEHIND + i] = bytes[i];
    }
}

fn written(leaf: usize, args: &[u8], s: &mut [u8]) -> u32 {
    let off = words::place(args, 0);
    match leaf {
        7 => field::leaf_set_field(
            s,
            words::is_set(args, 0),
            words::place(args, 1),
            words::place(args, 2),
            words::word(args, 3),
        ),
        8 => field::leaf_set_byte(s, off, words::low8(args, 1)),
        9 => field::leaf_set_be16(s, off, words::low16(args, 1)),
        10 => field::leaf_set_be32(s, off, words::low32(args, 1)),
        11 => field::leaf_set_be64(s, off, words::word(args, 1)),
        12 => field::leaf_set_le16(s, off, words::low16(args, 1)),
        13 => field::leaf_set_le64(s, off, words::word(args, 1)),
        _ => {
            field::leaf_zero(s);
            0
        }
    }
}
