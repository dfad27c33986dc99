// Fields of a slice: document 01's number (0 where there is none), then the value.
ghost use Rattle.std.specs.Prelude.{◌≡◌, [], replicate, length, leb};
ghost use Rattle.fields.specs.Outcome.{number_of, pick, refused};
ghost use Rattle.fields.specs.Fields.{field_at, write_at, written_at};
ghost use Rattle.fields.specs.declared.Order.TheVariants.{Big, Little};
ghost use Rattle.answers.specs.Words.{said, answer, number_words};
ghost use Rattle.answers.specs.Fields.{order_of};

use answers::words;

pub fn leaf_field(s: &[u8], little: bool, off: usize, width: usize, out: &mut [u8]) -> u32
    ensures value { result ≡ said 2 out.old }
    ensures out_after { out.new ≡ answer 2 out.old (number_words (pick (leb width 8) (field_at (order_of little) s.now off width) (refused 21 []))) }
{
    let w = answers::field::words(fields::field(s, answers::field::order(little), off, width));
    words::give(out, &w)
}

pub fn leaf_byte(s: &[u8], off: usize, out: &mut [u8]) -> u32
    ensures value { result ≡ said 2 out.old }
    ensures out_after { out.new ≡ answer 2 out.old (number_words (field_at Big s.now off 1)) }
{
    let w = answers::field::words(fields::byte(s, off));
    words::give(out, &w)
}

pub fn leaf_be16(s: &[u8], off: usize, out: &mut [u8]) -> u32
    ensures value { result ≡ said 2 out.old }
    ensures out_after { out.new ≡ answer 2 out.old (number_words (field_at Big s.now off 2)) }
{
    let w = answers::field::words(fields::be16(s, off));
    words::give(out, &w)
}

pub fn leaf_be32(s: &[u8], off: usize, out: &mut [u8]) -> u32
    ensures value { result ≡ said 2 out.old }
    ensures out_after { out.new ≡ answer 2 out.old (number_words (field_at Big s.now off 4)) }
{
    let w = answers::field::words(fields::be32(s, off));
    words::give(out, &w)
}

pub fn leaf_be64(s: &[u8], off: usize, out: &mut [u8]) -> u32
    ensures value { result ≡ said 2 out.old }
    ensures out_after { out.new ≡ answer 2 out.old (number_words (field_at Big s.now off 8)) }
{
    let w = answers::field::words(fields::be64(s, off));
    words::give(out, &w)
}

pub fn leaf_le16(s: &[u8], off: usize, out: &mut [u8]) -> u32
    ensures value { result ≡ said 2 out.old }
    ensures out_after { out.new ≡ answer 2 out.old (number_words (field_at Little s.now off 2)) }
{
    let w = answers::field::words(fields::le16(s, off));
    words::give(out, &w)
}

pub fn leaf_le64(s: &[u8], off: usize, out: &mut [u8]) -> u32
    ensures value { result ≡ said 2 out.old }
    ensures out_after { out.new ≡ answer 2 out.old (number_words (field_at Little s.now off 8)) }
{
    let w = answers::field::words(fields::le64(s, off));
    words::give(out, &w)
}

pub fn leaf_set_field(s: &mut [u8], little: bool, off: usize, width: usize, v: u64) -> u32
    ensures value { result ≡ number_of (write_at s.old off width) }
    ensures s_after { s.new ≡ written_at (order_of little) s.old off width v }
{
    answers::field::done(fields::set_field(s, answers::field::order(little), off, width, v))
}

pub fn leaf_set_byte(s: &mut [u8], off: usize, v: u8) -> u32
    ensures value { result ≡ number_of (write_at s.old off 1) }
    ensures s_after { s.new ≡ written_at Big s.old off 1 v }
{
    answers::field::done(fields::set_byte(s, off, v))
}

pub fn leaf_set_be16(s: &mut [u8], off: usize, v: u16) -> u32
    ensures value { result ≡ number_of (write_at s.old off 2) }
    ensures s_after { s.new ≡ written_at Big s.old off 2 v }
{
    answers::field::done(fields::set_be16(s, off, v))
}

pub fn leaf_set_be32(s: &mut [u8], off: usize, v: u32) -> u32
    ensures value { result ≡ number_of (write_at s.old off 4) }
    ensures s_after { s.new ≡ written_at Big s.old off 4 v }
{
    answers::field::done(fields::set_be32(s, off, v))
}

pub fn leaf_set_be64(s: &mut [u8], off: usize, v: u64) -> u32
    ensures value { result ≡ number_of (write_at s.old off 8) }
    ensures s_after { s.new ≡ written_at Big s.old off 8 v }
{
    answers::field::done(fields::set_be64(s, off, v))
}

pub fn leaf_set_le16(s: &mut [u8], off: usize, v: u16) -> u32
    ensures value { result ≡ number_of (write_at s.old off 2) }
    ensures s_after { s.new ≡ written_at Little s.old off 2 v }
{
    answers::field::done(fields::set_le16(s, off, v))
}

pub fn leaf_set_le64(s: &mut [u8], off: usize, v: u64) -> u32
    ensures value { result ≡ number_of (write_at s.old off 8) }
    ensures s_after { s.new ≡ written_at Little s.old off 8 v }
{
    answers::field::done(fields::set_le64(s, off, v))
}

pub fn leaf_zero(s: &mut [u8])
    ensures { s.new ≡ replicate (length s.old) 0 }
{
    fields::zero(s);
}
