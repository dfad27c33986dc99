// An answer as big-endian 64-bit words in a slice.
ghost use Rattle.std.specs.Prelude.{◌≡◌, length};
ghost use Rattle.answers.specs.Words.{put_words, answer, said, bit};

// The slice has no room for the answer.
pub const SHORT: u32 = 21;

// The words one after another, from word `at` of the slice on. Those that have no place there are left out, and so are all where `at` lies behind the slice.
pub fn put(out: &mut [u8], at: usize, words: &[u64])
    ensures { out.new ≡ put_words out.old at words.now }
{
    if out.len() / 8 < at {
        return;
    }
    for (i, w) in words.iter().enumerate() {
        let _ = fields::set_be64(out, (at + i) * 8, *w);
    }
}

// The whole answer, or 21 and nothing where the slice is too short for it. The same holds of its words.
pub fn give(out: &mut [u8], words: &[u64]) -> u32
    ensures value { result ≡ said (length words.now) out.old }
    ensures out_after { out.new ≡ answer (length words.now) out.old words.now }
{
    if out.len() < words.len() * 8 {
        return SHORT;
    }
    put(out, 0, words);
    0
}

pub fn bit_of(b: bool) -> u64
    ensures { result ≡ bit b }
{
    if b { 1 } else { 0 }
}

// A narrower number as a word.
pub fn wide8(x: u8) -> u64
    ensures { result ≡ x }
{
    x as u64
}

pub fn wide16(x: u16) -> u64
    ensures { result ≡ x }
{
    x as u64
}

pub fn wide32(x: u32) -> u64
    ensures { result ≡ x }
{
    x as u64
}
