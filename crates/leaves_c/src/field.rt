// Fields of a slice: document 01's number (0 where there is none), then the value.
ghost use Rattle.std.specs.Prelude.{◌≡◌, [], replicate, length, leb};
ghost use Rattle.fields.specs.Outcome.{number_of, pick, refused};
ghost use Rattle.fields.specs.Fields.{field_at, write_at, written_at};
ghost use Rattle.fields.specs.declared.Order.TheVariants.{Big, Little};
ghost use Rattle.answers.specs.Words.{said, answer, number_words};
ghost use Rattle.answers.specs.Fields.{order_of};

#[unsafe(no_mangle)]
pub extern "C" fn leaf_field(
    s: &[u8],
    little: bool,
    off: usize,
    width: usize,
    out: &mut [u8],
) -> u32
    ensures value { result ≡ said 2 out.old }
    ensures out_after { out.new ≡ answer 2 out.old (number_words (pick (leb width 8) (field_at (order_of little) s.now off width) (refused 21 []))) }
{
    leaves::field::leaf_field(s, little, off, width, out)
}

#[unsafe(no_mangle)]
pub extern "C" fn leaf_byte(s: &[u8], off: usize, out: &mut [u8]) -> u32
    ensures value { result ≡ said 2 out.old }
    ensures out_after { out.new ≡ answer 2 out.old (number_words (field_at Big s.now off 1)) }
{
    leaves::field::leaf_byte(s, off, out)
}

#[unsafe(no_mangle)]
pub extern "C" fn leaf_be16(s: &[u8], off: usize, out: &mut [u8]) -> u32
    ensures value { result ≡ said 2 out.old }
    ensures out_after { out.new ≡ answer 2 out.old (number_words (field_at Big s.now off 2)) }
{
    leaves::field::leaf_be16(s, off, out)
}

#[unsafe(no_mangle)]
pub extern "C" fn leaf_be32(s: &[u8], off: usize, out: &mut [u8]) -> u32
    ensures value { result ≡ said 2 out.old }
    ensures out_after { out.new ≡ answer 2 out.old (number_words (field_at Big s.now off 4)) }
{
    leaves::field::leaf_be32(s, off, out)
}

#[unsafe(no_mangle)]
pub extern "C" fn leaf_be64(s: &[u8], off: usize, out: &mut [u8]) -> u32
    ensures value { result ≡ said 2 out.old }
    ensures out_after { out.new ≡ answer 2 out.old (number_words (field_at Big s.now off 8)) }
{
    leaves::field::leaf_be64(s, off, out)
}

#[unsafe(no_mangle)]
pub extern "C" fn leaf_le16(s: &[u8], off: usize, out: &mut [u8]) -> u32
    ensures value { result ≡ said 2 out.old }
    ensures out_after { out.new ≡ answer 2 out.old (number_words (field_at Little s.now off 2)) }
{
    leaves::field::leaf_le16(s, off, out)
}

#[unsafe(no_mangle)]
pub extern "C" fn leaf_le64(s: &[u8], off: usize, out: &mut [u8]) -> u32
    ensures value { result ≡ said 2 out.old }
    ensures out_after { out.new ≡ answer 2 out.old (number_words (field_at Little s.now off 8)) }
{
    leaves::field::leaf_le64(s, off, out)
}

#[unsafe(no_mangle)]
pub extern "C" fn leaf_set_field(
    s: &mut [u8],
    little: bool,
    off: usize,
    width: usize,
    v: u64,
) -> u32
    ensures value { result ≡ number_of (write_at s.old off width) }
    ensures s_after { s.new ≡ written_at (order_of little) s.old off width v }
{
    leaves::field::leaf_set_field(s, little, off, width, v)
}

#[unsafe(no_mangle)]
pub extern "C" fn leaf_set_byte(s: &mut [u8], off: usize, v: u8) -> u32
    ensures value { result ≡ number_of (write_at s.old off 1) }
    ensures s_after { s.new ≡ written_at Big s.old off 1 v }
{
    leaves::field::leaf_set_byte(s, off, v)
}

#[unsafe(no_mangle)]
pub extern "C" fn leaf_set_be16(s: &mut [u8], off: usize, v: u16) -> u32
    ensures value { result ≡ number_of (write_at s.old off 2) }
    ensures s_after { s.new ≡ written_at Big s.old off 2 v }
{
    leaves::field::leaf_set_be16(s, off, v)
}

#[unsafe(no_mangle)]
pub extern "C" fn leaf_set_be32(s: &mut [u8], off: usize, v: u32) -> u32
    ensures value { result ≡ number_of (write_at s.old off 4) }
    ensures s_after { s.new ≡ written_at Big s.old off 4 v }
{
    leaves::field::leaf_set_be32(s, off, v)
}

#[unsafe(no_mangle)]
pub extern "C" fn leaf_set_be64(s: &mut [u8], off: usize, v: u64) -> u32
    ensures value { result ≡ number_of (write_at s.old off 8) }
    ensures s_after { s.new ≡ written_at Big s.old off 8 v }
{
    leaves::field::leaf_set_be64(s, off, v)
}

#[unsafe(no_mangle)]
pub extern "C" fn leaf_set_le16(s: &mut [u8], off: usize, v: u16) -> u32
    ensures value { result ≡ number_of (write_at s.old off 2) }
    ensures s_after { s.new ≡ written_at Little s.old off 2 v }
{
    leaves::field::leaf_set_le16(s, off, v)
}

#[unsafe(no_mangle)]
pub extern "C" fn leaf_set_le64(s: &mut [u8], off: usize, v: u64) -> u32
    ensures value { result ≡ number_of (write_at s.old off 8) }
    ensures s_after { s.new ≡ written_at Little s.old off 8 v }
{
    leaves::field::leaf_set_le64(s, off, v)
}

#[unsafe(no_mangle)]
pub extern "C" fn leaf_zero(s: &mut [u8])
    ensures { s.new ≡ replicate (length s.old) 0 }
{
    leaves::field::leaf_zero(s);
}
