// What crosses C linkage at each step, as numbers: a question as four words, with the count of undo records behind it; an answer from its kind and two values.
#![tactic(auto)]

ghost use Rattle.std.specs.Prelude.{◌≡◌};
ghost use Rattle.words_calls.specs.Calls.{question_words, turn_in, heard_as, word_heard, dword_heard, heard_of};

use pci::{Answer, Question};

// An answer as it was told; `Unknown` where its kind has no such number, or its value is too wide for its kind.
#[derive(Clone, Copy)]
pub enum Heard {
    Told(Answer),
    Unknown,
}

// The kind of a question, and its values in their order; those that it has not are 0.
pub fn question_words(q: Question) -> [u64; 4]
    ensures { result ≡ question_words q }
{
    match q {
        Question::Finished => [0, 0, 0, 0],
        Question::ConfigRead16(offset) => [1, words::wide16(offset), 0, 0],
        Question::ConfigRead32(offset) => [2, words::wide16(offset), 0, 0],
        Question::ConfigWrite16(offset, v) => [3, words::wide16(offset), words::wide16(v), 0],
        Question::ConfigWrite32(offset, v) => [4, words::wide16(offset), words::wide32(v), 0],
        Question::RegRead(bar, offset) => [5, words::wide8(bar), offset, 0],
        Question::RegWrite(bar, offset, v) => [6, words::wide8(bar), offset, words::wide32(v)],
        Question::Attributes(op, v) => [7, words::wide8(op), v, 0],
        Question::Resource(index) => [8, words::wide8(index), 0, 0],
        Question::Stall(us) => [9, words::wide32(us), 0, 0],
        Question::Allocate(pages) => [10, pages, 0, 0],
        Question::Map(handle, bytes) => [11, handle, bytes, 0],
        Question::Unmap(handle) => [12, handle, 0, 0],
        Question::Free(handle, pages) => [13, handle, pages, 0],
        Question::Fence => [14, 0, 0, 0],
    }
}

// What a call says: its question, and how many undo records are left; nothing where there is no room for it.
pub fn put_turn(out: &mut [u8], q: Question, undo: usize)
    ensures { out.new ≡ turn_in out.old q undo }
{
    let w = question_words(q);
    let all = [w[0], w[1], w[2], w[3], words::long(undo)];
    words::store(out, 0, &all);
}

// A value of 16 or of 32 bits; one that is wider is of no kind.
fn word_from(a: u64) -> Heard
    ensures { heard_as result ≡ word_heard a }
{
    if a < 65536 {
        return Heard::Told(Answer::Word(words::narrow16(a)));
    }
    Heard::Unknown
}

fn dword_from(a: u64) -> Heard
    ensures { heard_as result ≡ dword_heard a }
{
    if a < 4294967296 {
        return Heard::Told(Answer::Dword(words::narrow32(a)));
    }
    Heard::Unknown
}

// The answer of a kind with two values; those that its kind has not are not looked at.
pub fn answer_from(kind: u32, a: u64, b: u64) -> Heard
    ensures { heard_as result ≡ heard_of kind a b }
{
    match kind {
        1 => word_from(a),
        2 => dword_from(a),
        3 => Heard::Told(Answer::Qword(a)),
        4 => Heard::Told(Answer::Done),
        5 => Heard::Told(Answer::Failed),
        6 => Heard::Told(Answer::Handle(a)),
        7 => Heard::Told(Answer::Mapped(a, b)),
        8 => Heard::Told(Answer::List),
        _ => Heard::Unknown,
    }
}
