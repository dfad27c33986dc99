// Words of eight bytes, the byte of the least weight first, in a slice of bytes: how a session is kept between two calls.
#![tactic(auto)]

ghost use Rattle.std.specs.Prelude.{false, ◌≡◌, ◌+◌, ◌*◌, ◌%◌, ◌<◌, ◌≤◌, length, eqb};
ghost use Rattle.fields.specs.Fields.{number_at};
ghost use Rattle.fields.specs.declared.Order.TheVariants.{Little};
ghost use Rattle.fields.specs.Outcome.{pick};
ghost use Rattle.words.specs.Words.{word_at, words_in, put_words, same_words, within, bit_of};

// The image of a session, as specs/Places.antt has it: how many words each part has.
pub const TASK: usize = 13;

pub const STAGE: usize = 8;

pub const LEDGER: usize = 16;

pub const TOLD: usize = 8;

pub const CAP: usize = 32;

pub const PORT: usize = 17;

pub const RESET: usize = 24;

pub const FIND: usize = 18;

pub const SLOT: usize = 6;

pub const SLOTS: usize = 82;

// The word that each begins at.
pub const TASK_AT: usize = 0;

pub const STAGE_AT: usize = TASK_AT + TASK;

pub const LEDGER_AT: usize = STAGE_AT + STAGE;

pub const TOLD_AT: usize = LEDGER_AT + LEDGER;

pub const CAP_AT: usize = TOLD_AT + TOLD;

pub const PORT1_AT: usize = CAP_AT + CAP;

pub const PORT2_AT: usize = PORT1_AT + PORT;

pub const RESET_AT: usize = PORT2_AT + PORT;

pub const FIND_AT: usize = RESET_AT + RESET;

pub const SLOTS_AT: usize = FIND_AT + FIND;

// The bytes of the whole.
pub const STATE_BYTES: usize = (SLOTS_AT + SLOTS * SLOT) * 8;

// The n words from word k on lie within the slice. No sum is made, so no k overflows.
pub fn room(s: &[u8], k: usize, n: usize) -> bool
    ensures { result ≡ within s.now k n }
{
    let m = s.len() / 8;
    n <= m && k <= m - n
}

fn byte(x: u8) -> u64
    ensures { (result ≡ x) × (result < 256) }
{
    u64::from(x)
}

// Four bytes, read one by one and without a test, so that they are one load.
fn half(s: &[u8], off: usize) -> u64
    requires { off + 4 ≤ length s.now }
    ensures { result ≡ number_at Little s.now off 4 }
{
    ((byte(s[off + 3]) * 256 + byte(s[off + 2])) * 256 + byte(s[off + 1])) * 256 + byte(s[off])
}

// Word k. Two halves are two loads, where eight bytes in one sum are eight.
fn word(s: &[u8], k: usize) -> u64
    requires { (k + 1) * 8 ≤ length s.now }
    ensures { result ≡ word_at s.now k }
{
    half(s, k * 8 + 4) * 4294967296 + half(s, k * 8)
}

fn load_all(s: &[u8], k: usize, w: &mut [u64])
    requires { (k + length w.old) * 8 ≤ length s.now }
    ensures { w.new ≡ words_in s.now k (length w.old) }
{
    for (i, x) in w.iter_mut().enumerate() {
        *x = word(s, k + i);
    }
}

fn store_all(s: &mut [u8], k: usize, w: &[u64])
    requires { (k + length w.now) * 8 ≤ length s.old }
    ensures { s.new ≡ put_words s.old k w.now }
{
    for (i, x) in w.iter().enumerate() {
        let _ = fields::set_le64(s, (k + i) * 8, *x);
    }
}

fn same_all(s: &[u8], k: usize, w: &[u64]) -> bool
    requires { (k + length w.now) * 8 ≤ length s.now }
    ensures { result ≡ same_words s.now k w.now }
{
    for (i, x) in w.iter().enumerate() {
        if word(s, k + i) != *x {
            return false;
        }
    }
    true
}

// Reads the words from word k on; nothing is read where they pass the end.
pub fn load(s: &[u8], k: usize, w: &mut [u64])
    ensures { w.new ≡ pick (within s.now k (length w.old)) (words_in s.now k (length w.old)) w.old }
{
    if room(s, k, w.len()) {
        load_all(s, k, w);
    }
}

// Writes the words from word k on; nothing is written where they pass the end.
pub fn store(s: &mut [u8], k: usize, w: &[u64])
    ensures { s.new ≡ pick (within s.old k (length w.now)) (put_words s.old k w.now) s.old }
{
    if room(s, k, w.len()) {
        store_all(s, k, w);
    }
}

// These words stand from word k on.
pub fn same(s: &[u8], k: usize, w: &[u64]) -> bool
    ensures { result ≡ pick (within s.now k (length w.now)) (same_words s.now k w.now) false }
{
    room(s, k, w.len()) && same_all(s, k, w)
}

// A bool as a word, and back.
pub fn bit(b: bool) -> u64
    ensures { result ≡ bit_of b }
{
    u64::from(b)
}

pub fn flag(w: u64) -> bool
    ensures { result ≡ eqb w 1 }
{
    w == 1
}

// A narrower number as a word, and its last digits back.
pub fn wide8(x: u8) -> u64
    ensures { result ≡ x }
{
    u64::from(x)
}

pub fn wide16(x: u16) -> u64
    ensures { result ≡ x }
{
    u64::from(x)
}

pub fn wide32(x: u32) -> u64
    ensures { result ≡ x }
{
    u64::from(x)
}

pub fn narrow8(w: u64) -> u8
    ensures { result ≡ w % 256 }
{
    (w % 256) as u8
}

pub fn narrow16(w: u64) -> u16
    ensures { result ≡ w % 65536 }
{
    (w % 65536) as u16
}

pub fn narrow32(w: u64) -> u32
    ensures { result ≡ w % 4294967296 }
{
    (w % 4294967296) as u32
}

// A count as a word, and back.
pub fn long(n: usize) -> u64
    ensures { result ≡ n }
{
    n as u64
}

pub fn size(w: u64) -> usize
    ensures { result ≡ w }
{
    w as usize
}
