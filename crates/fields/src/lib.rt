// Fields of a slice of bytes: unsigned numbers at an offset, read and written. One loop reads and one writes, for every width and both byte
// orders. A field that passes the end of the slice is refused with 21, whatever the offset.
#![tactic(auto)]

ghost use Rattle.std.specs.Prelude.{ℕ, ◌≡◌, ◌+◌, ◌<◌, ◌≤◌, ◌^◌, [], length, replicate, leb};
ghost use Rattle.std.proofs.Common.{lit≤};
ghost use Rattle.fields.specs.Outcome.{pick, refused};
ghost use Rattle.fields.specs.Fields.{place_of, number_at, put_at, fits, field_at, write_at, written_at, outcome, outcome_by};
ghost use Rattle.fields.specs.declared.Order.TheVariants.{Big, Little};

// Which byte of a field has the greatest weight: the first, or the last.
#[derive(Clone, Copy)]
pub enum Order {
    Big,
    Little,
}

// A field passes the end of the slice: 21.
#[derive(Debug, Clone, Copy, PartialEq, Eq)]
pub struct Short;

// An unsigned number that stands in a field, of as many bytes as its type has.
pub trait Unsigned: Copy {
    ghost WIDTH: { ℕ };

    ghost worth: { Self → ℕ };

    const WIDTH: usize;

    fn wide(self) -> u64
        ensures { result ≡ worth self };

    fn narrow(n: u64) -> Self
        requires { n < 256 ^ WIDTH }
        ensures { worth result ≡ n };

    ghost at_most_8: { WIDTH ≤ 8 };
}

impl Unsigned for u8 {
    ghost WIDTH = { 1 };

    ghost worth = { λ n. n };

    ghost at_most_8 = { lit≤ tt };

    const WIDTH: usize = 1;

    fn wide(self) -> u64 {
        u64::from(self)
    }

    fn narrow(n: u64) -> Self {
        n as u8
    }
}

impl Unsigned for u16 {
    ghost WIDTH = { 2 };

    ghost worth = { λ n. n };

    ghost at_most_8 = { lit≤ tt };

    const WIDTH: usize = 2;

    fn wide(self) -> u64 {
        u64::from(self)
    }

    fn narrow(n: u64) -> Self {
        n as u16
    }
}

impl Unsigned for u32 {
    ghost WIDTH = { 4 };

    ghost worth = { λ n. n };

    ghost at_most_8 = { lit≤ tt };

    const WIDTH: usize = 4;

    fn wide(self) -> u64 {
        u64::from(self)
    }

    fn narrow(n: u64) -> Self {
        n as u32
    }
}

impl Unsigned for u64 {
    ghost WIDTH = { 8 };

    ghost worth = { λ n. n };

    ghost at_most_8 = { lit≤ tt };

    const WIDTH: usize = 8;

    fn wide(self) -> u64 {
        self
    }

    fn narrow(n: u64) -> Self {
        n
    }
}

// A field of width bytes at off lies within the slice. No sum is made, so no offset overflows.
pub fn room(s: &[u8], off: usize, width: usize) -> bool
    ensures { result ≡ fits s.now off width }
{
    let n = s.len();
    width <= n && off <= n - width
}

// Where a field's byte number i stands, counted from the byte of the greatest weight.
fn place(order: Order, off: usize, width: usize, i: usize) -> usize
    requires { (i < width) × (off + width < 2 ^ 64) }
    ensures { result ≡ place_of order off width i }
{
    match order {
        Order::Big => off + i,
        Order::Little => off + (width - 1 - i),
    }
}

// The number that the width bytes at off make.
fn number(s: &[u8], order: Order, off: usize, width: usize) -> u64
    requires { (off + width ≤ length s.now) × (width ≤ 8) }
    ensures { result ≡ number_at order s.now off width }
{
    let mut v: u64 = 0;
    for i in 0..width {
        let at = place(order, off, width, i);
        v = v * 256 + u64::from(s[at]);
    }
    v
}

// Writes the last width bytes of v at off.
fn put(s: &mut [u8], order: Order, off: usize, width: usize, v: u64)
    requires { off + width ≤ length s.old }
    ensures { s.new ≡ put_at order s.old off width v }
{
    let mut x = v;
    for i in (0..width).rev() {
        let at = place(order, off, width, i);
        s[at] = (x % 256) as u8;
        x = x / 256;
    }
}

// Reads a field of any width up to eight bytes. A wider one has no number of 64 bits: it is refused
// with 21, since a reader "answers .. or refuses with 21". Nothing in the product asks for one.
pub fn field(s: &[u8], order: Order, off: usize, width: usize) -> Result<u64, Short>
    ensures { outcome result ≡ pick (leb width 8) (field_at order s.now off width) (refused 21 []) }
{
    if width <= 8 && room(s, off, width) {
        Ok(number(s, order, off, width))
    } else {
        Err(Short)
    }
}

// Reads a field as wide as the number.
fn read<N: Unsigned>(s: &[u8], order: Order, off: usize) -> Result<N, Short>
    ensures { outcome_by N.worth result ≡ field_at order s.now off N.WIDTH }
{
    Ok(N::narrow(field(s, order, off, N::WIDTH)?))
}

pub fn byte(s: &[u8], off: usize) -> Result<u8, Short>
    ensures { outcome result ≡ field_at Big s.now off 1 }
{
    read(s, Order::Big, off)
}

pub fn be16(s: &[u8], off: usize) -> Result<u16, Short>
    ensures { outcome result ≡ field_at Big s.now off 2 }
{
    read(s, Order::Big, off)
}

pub fn be32(s: &[u8], off: usize) -> Result<u32, Short>
    ensures { outcome result ≡ field_at Big s.now off 4 }
{
    read(s, Order::Big, off)
}

pub fn be64(s: &[u8], off: usize) -> Result<u64, Short>
    ensures { outcome result ≡ field_at Big s.now off 8 }
{
    read(s, Order::Big, off)
}

pub fn le16(s: &[u8], off: usize) -> Result<u16, Short>
    ensures { outcome result ≡ field_at Little s.now off 2 }
{
    read(s, Order::Little, off)
}

pub fn le64(s: &[u8], off: usize) -> Result<u64, Short>
    ensures { outcome result ≡ field_at Little s.now off 8 }
{
    read(s, Order::Little, off)
}

// Writes a field of any width, or nothing where it passes the end.
pub fn set_field(s: &mut [u8], order: Order, off: usize, width: usize, v: u64) -> Result<(), Short>
    ensures result_value { outcome result ≡ write_at s.old off width }
    ensures s_after { s.new ≡ written_at order s.old off width v }
{
    if !room(s, off, width) {
        return Err(Short);
    }
    put(s, order, off, width, v);
    Ok(())
}

// Writes a field as wide as the number.
fn write<N: Unsigned>(s: &mut [u8], order: Order, off: usize, v: N) -> Result<(), Short>
    ensures result_value { outcome result ≡ write_at s.old off N.WIDTH }
    ensures s_after { s.new ≡ written_at order s.old off N.WIDTH (N.worth v) }
{
    set_field(s, order, off, N::WIDTH, v.wide())
}

pub fn set_byte(s: &mut [u8], off: usize, v: u8) -> Result<(), Short>
    ensures result_value { outcome result ≡ write_at s.old off 1 }
    ensures s_after { s.new ≡ written_at Big s.old off 1 v }
{
    write(s, Order::Big, off, v)
}

pub fn set_be16(s: &mut [u8], off: usize, v: u16) -> Result<(), Short>
    ensures result_value { outcome result ≡ write_at s.old off 2 }
    ensures s_after { s.new ≡ written_at Big s.old off 2 v }
{
    write(s, Order::Big, off, v)
}

pub fn set_be32(s: &mut [u8], off: usize, v: u32) -> Result<(), Short>
    ensures result_value { outcome result ≡ write_at s.old off 4 }
    ensures s_after { s.new ≡ written_at Big s.old off 4 v }
{
    write(s, Order::Big, off, v)
}

pub fn set_be64(s: &mut [u8], off: usize, v: u64) -> Result<(), Short>
    ensures result_value { outcome result ≡ write_at s.old off 8 }
    ensures s_after { s.new ≡ written_at Big s.old off 8 v }
{
    write(s, Order::Big, off, v)
}

pub fn set_le16(s: &mut [u8], off: usize, v: u16) -> Result<(), Short>
    ensures result_value { outcome result ≡ write_at s.old off 2 }
    ensures s_after { s.new ≡ written_at Little s.old off 2 v }
{
    write(s, Order::Little, off, v)
}

pub fn set_le64(s: &mut [u8], off: usize, v: u64) -> Result<(), Short>
    ensures result_value { outcome result ≡ write_at s.old off 8 }
    ensures s_after { s.new ≡ written_at Little s.old off 8 v }
{
    write(s, Order::Little, off, v)
}

// Every byte 0.
pub fn zero(s: &mut [u8])
    ensures { s.new ≡ replicate (length s.old) 0 }
{
    s.fill(0);
}
