// Words of a stored input and of an answer: big-endian 64 bits.
ghost use Rattle.std.specs.Prelude.{◌≤◌};

// Word k of a stored input, or 0 where there is none.
pub(crate) fn word(args: &[u8], k: usize) -> u64
    requires { k ≤ 1000 }
{
    fields::be64(args, k * 8).unwrap_or(0)
}

pub(crate) fn is_set(args: &[u8], k: usize) -> bool
    requires { k ≤ 1000 }
{
    word(args, k) != 0
}

pub(crate) fn place(args: &[u8], k: usize) -> usize
    requires { k ≤ 1000 }
{
    word(args, k) as usize
}

pub(crate) fn low32(args: &[u8], k: usize) -> u32
    requires { k ≤ 1000 }
{
    (word(args, k) % 4294967296) as u32
}

pub(crate) fn low16(args: &[u8], k: usize) -> u16
    requires { k ≤ 1000 }
{
    (word(args, k) % 65536) as u16
}

pub(crate) fn low8(args: &[u8], k: usize) -> u8
    requires { k ≤ 1000 }
{
    (word(args, k) % 256) as u8
}

// Puts word k of an answer; nothing where there is no room for it.
pub(crate) fn put(out: &mut [u8], k: usize, v: u64)
    requires { k ≤ 1000 }
{
    let _ = fields::set_be64(out, k * 8, v);
}

pub(crate) fn put_bool(out: &mut [u8], b: bool) {
    put(out, 0, if b { 1 } else { 0 });
}
