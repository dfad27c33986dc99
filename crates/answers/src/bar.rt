// BARs: the address in one, its candidates, a resource list, and the choice of an index, begun and
// then one answer a call.
ghost use Rattle.std.specs.Prelude.{◌≡◌, ◌*◌, ◌<◌};
ghost use Rattle.bars.specs.Bars.{address, indices};
ghost use Rattle.bars.specs.Resource.{listed};
ghost use Rattle.bars.specs.Steps.{begun};
ghost use Rattle.answers.specs.Words.{answer, number_words};
ghost use Rattle.answers.specs.Bars.{pair_words, list_words, range_from, known_in, base_in, length_in};
ghost use Rattle.answers.specs.Bars.{tag_of, index_of, size_known, size_in, how_number};
ghost use Rattle.answers.specs.Bars.{ask_words, pick_words, next_words, begun_words, word_at, flag, asking_from, candidate_in, choice_in};

use bars::{Asking, BadList, BadRegister, BarRange, Candidate, Choice, How, Indices, Next, Pick};

pub fn address_words(a: Result<u64, BadRegister>) -> [u64; 2]
    ensures { result ≡ number_words (address a) }
{
    match a {
        Ok(base) => [0, base],
        Err(_) => [4, 0],
    }
}

pub fn indices_words(i: Result<Indices, BadRegister>) -> [u64; 3]
    ensures { result ≡ pair_words (indices i) }
{
    match i {
        Ok(both) => [0, both.first as u64, both.second as u64],
        Err(_) => [4, 0, 0],
    }
}

pub fn list_words(l: Result<Option<BarRange>, BadList>) -> [u64; 3]
    ensures { result ≡ list_words (listed l) }
{
    match l {
        Ok(Some(r)) => [1, r.base, r.length],
        Ok(None) => [0, 0, 0],
        Err(_) => [27, 0, 0],
    }
}

// The parts of a state, as words and back.
pub fn range_from(known: bool, base: u64, length: u64) -> Option<BarRange>
    ensures { result ≡ range_from known base length }
{
    if known {
        Some(BarRange { base, length })
    } else {
        None
    }
}

fn known_in(r: Option<BarRange>) -> u64
    ensures { result ≡ known_in r }
{
    match r {
        Some(_) => 1,
        None => 0,
    }
}

fn base_in(r: Option<BarRange>) -> u64
    ensures { result ≡ base_in r }
{
    match r {
        Some(range) => range.base,
        None => 0,
    }
}

fn length_in(r: Option<BarRange>) -> u64
    ensures { result ≡ length_in r }
{
    match r {
        Some(range) => range.length,
        None => 0,
    }
}

fn tag(q: Asking) -> u64
    ensures { result ≡ tag_of q }
{
    match q {
        Asking::First => 0,
        Asking::Second => 1,
        Asking::Other(_) => 2,
    }
}

fn index(q: Asking) -> u64
    ensures { result ≡ index_of q }
{
    match q {
        Asking::First => 0,
        Asking::Second => 0,
        Asking::Other(i) => i as u64,
    }
}

// Whether a size is known, as 1 or 0; and the size, or 0.
pub fn size_known(s: Option<u64>) -> u64
    ensures { result ≡ size_known s }
{
    match s {
        Some(_) => 1,
        None => 0,
    }
}

pub fn size_in(s: Option<u64>) -> u64
    ensures { result ≡ size_in s }
{
    match s {
        Some(n) => n,
        None => 0,
    }
}

// How an index was chosen.
pub fn how_number(h: How) -> u64
    ensures { result ≡ how_number h }
{
    match h {
        How::BaseMatches => 0,
        How::Scan => 1,
        How::OnlyAnswer => 2,
        How::NoMatch => 3,
        How::NoAnswer => 4,
    }
}

// An index to ask about, and the state that takes the answer.
fn ask_words(next: u8, c: Choice) -> [u64; 16]
    ensures { result ≡ ask_words next c }
{
    let first = c.first;
    let second = c.second;
    let a = first.answer;
    let b = second.answer;
    let q = c.asking;
    [
        0,
        next as u64,
        0,
        0,
        0,
        c.base,
        first.index as u64,
        known_in(a),
        base_in(a),
        length_in(a),
        second.index as u64,
        known_in(b),
        base_in(b),
        length_in(b),
        tag(q),
        index(q),
    ]
}

fn pick_words(p: Pick) -> [u64; 16]
    ensures { result ≡ pick_words p }
{
    let s = p.size;
    let h = p.how;
    [
        1,
        p.index as u64,
        size_known(s),
        size_in(s),
        how_number(h),
        0,
        0,
        0,
        0,
        0,
        0,
        0,
        0,
        0,
        0,
        0,
    ]
}

pub fn next_words(n: Next) -> [u64; 16]
    ensures { result ≡ next_words n }
{
    match n {
        Next::Ask(i, c) => ask_words(i, c),
        Next::Picked(p) => pick_words(p),
    }
}

pub fn begun_words(g: Result<(u8, Choice), BadRegister>) -> [u64; 16]
    ensures { result ≡ begun_words (begun g) }
{
    match g {
        Ok((i, c)) => ask_words(i, c),
        Err(_) => [4, 0, 0, 0, 0, 0, 0, 0, 0, 0, 0, 0, 0, 0, 0, 0],
    }
}

// Word k of a slice, or 0 where it passes the end.
fn word(s: &[u8], k: usize) -> u64
    requires { k < 16 }
    ensures { result ≡ word_at s.now k }
{
    fields::be64(s, k * 8).unwrap_or(0)
}

fn is_set(w: u64) -> bool
    ensures { result ≡ flag w }
{
    if w == 0 {
        return false;
    }
    true
}

fn asking_from(t: u64, i: u64) -> Asking
    ensures { result ≡ asking_from t i }
{
    if t == 0 {
        return Asking::First;
    }
    if t == 1 {
        return Asking::Second;
    }
    Asking::Other((i % 256) as u8)
}

// The candidate whose index and answer stand from word k on.
fn candidate_in(state: &[u8], k: usize) -> Candidate
    requires { k < 13 }
    ensures { result ≡ candidate_in state.now k }
{
    Candidate {
        index: (word(state, k) % 256) as u8,
        answer: range_from(
            is_set(word(state, k + 1)),
            word(state, k + 2),
            word(state, k + 3),
        ),
    }
}

pub fn choice_in(state: &[u8]) -> Choice
    ensures { result ≡ choice_in state.now }
{
    Choice {
        base: word(state, 5),
        first: candidate_in(state, 6),
        second: candidate_in(state, 10),
        asking: asking_from(word(state, 14), word(state, 15)),
    }
}
