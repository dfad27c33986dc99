// A command that goes on, in place: an answer that does not end it reads and writes the command's own words of the session, and what is asked. Words 1 and 2 have its
// phase, word 8 its toggle, word 9 its stalls; no other byte of the session is written, and none behind word 9 is read.
#![tactic(auto)]

ghost use Rattle.std.specs.Prelude.{◌≡◌, ◌/◌, ◌<◌, [], ◌∷◌};
ghost use Rattle.hcr.specs.Words.{register, swap_of};
ghost use Rattle.pci.specs.declared.Question.TheVariants as q;
ghost use Rattle.words_calls.specs.Calls.{turn_in};
ghost use Rattle.in_place.specs.InPlace.{after_first, after_poll, after_status, after_read, after_write, after_stall, after_done, Leads, first_words, ready_for, goes_on};
ghost use Rattle.in_place.specs.InPlace.{stored, state_after, post_words, ask_write, ask_go, out_after};

use command::Cmd;
use hcr::Hcr;
use pci::Question;

// What a command that goes on asks next. No value is narrower than 32 bits: with one of eight the compiler packs all of it into one number, and no longer sees through
// the match, which cost ten instructions an answer.
#[derive(Clone, Copy)]
pub enum Next {
    // Word i of the six before the last.
    Write(u64),
    Fence,
    // The last word: it posts the command.
    Go,
    // The command is posted: the status, with the new toggle.
    Posted(u64),
    // A stall of so many microseconds.
    Stall(u32),
    // The status again, after so many stalls.
    Read(u64),
    // The fence behind the command.
    Fenced,
    // The status, once the command has ended.
    Status,
    // The halves of the immediate; with the second one, what the first was.
    High,
    Low(u64),
    // Not known here: the command ends, or the answer is of the wrong kind, or there is no command.
    Other,
}

// The status was read before posting.
fn after_first(toggle: bool, status: u32) -> Next
    ensures { result ≡ after_first toggle status }
{
    if hcr::pending(status, toggle) {
        return Next::Other;
    }
    Next::Write(0)
}

// The status was read while waiting.
fn after_poll(toggle: bool, stalls: u64, status: u32) -> Next
    ensures { result ≡ after_poll toggle stalls status }
{
    if hcr::pending(status, toggle) {
        if stalls < 600990 {
            return Next::Stall(hcr::stall(words::narrow32(stalls)));
        }
        return Next::Other;
    }
    Next::Fenced
}

// The status was read once the command had ended.
fn after_status(status: u32) -> Next
    ensures { result ≡ after_status status }
{
    if hcr::status(status) == 0 {
        return Next::High;
    }
    Next::Other
}

// A register was read.
fn after_read(w: [u64; 10], v: u32) -> Next
    ensures { result ≡ after_read w v }
{
    let phase = w[1];
    match phase {
        0 => after_first(words::flag(w[8]), v),
        4 => after_poll(words::flag(w[8]), w[9], v),
        7 => after_status(v),
        8 => Next::Low(words::wide32(v)),
        _ => Next::Other,
    }
}

// Word i of the six was written.
fn after_write(i: u64) -> Next
    ensures { result ≡ after_write i }
{
    if i < 5 {
        return Next::Write(i + 1);
    }
    Next::Fence
}

// A stall was made.
fn after_stall(stalls: u64) -> Next
    ensures { result ≡ after_stall stalls }
{
    if stalls < 600990 {
        return Next::Read(stalls + 1);
    }
    Next::Other
}

// A write, a fence or a stall was made.
fn after_done(w: [u64; 10]) -> Next
    ensures { result ≡ after_done w }
{
    let phase = w[1];
    match phase {
        1 => after_write(w[2]),
        2 => Next::Go,
        3 => Next::Posted(words::bit(!words::flag(w[8]))),
        5 => after_stall(w[9]),
        6 => Next::Status,
        _ => Next::Other,
    }
}

// What comes next, by the first ten words and the answer's kind and first value; its second value is not looked at.
fn next_of(w: [u64; 10], kind: u32, a: u64) -> Next
    ensures { Leads result w kind a }
{
    if w[0] != 8 {
        return Next::Other;
    }
    if kind == 4 {
        return after_done(w);
    }
    if kind != 2 {
        return Next::Other;
    }
    if a < 4294967296 {
        return after_read(w, hcr::swap(words::narrow32(a)));
    }
    Next::Other
}

// What comes next of the command that the session is at.
pub fn next_at(state: &[u8], kind: u32, a: u64) -> Next
    ensures { Leads result (first_words state.now) kind a }
{
    let mut w = [0u64; 10];
    words::load(state, 0, &mut w);
    next_of(w, kind, a)
}

// All that is lent is long enough.
pub fn is_ready(state: &[u8], inbox: &[u8], outbox: &[u8], undo: usize, out: &[u8]) -> bool
    ensures { result ≡ ready_for state.now inbox.now outbox.now undo out.now }
{
    if state.len() < words::STATE_BYTES {
        return false;
    }
    if inbox.len() != 4096 {
        return false;
    }
    if outbox.len() != 4096 {
        return false;
    }
    if 256 < undo {
        return false;
    }
    40 <= out.len()
}

// The command goes on.
pub fn goes_on(next: Next) -> bool
    ensures { result ≡ goes_on next }
{
    match next {
        Next::Write(_) => true,
        Next::Fence => true,
        Next::Go => true,
        Next::Posted(_) => true,
        Next::Stall(_) => true,
        Next::Read(_) => true,
        Next::Fenced => true,
        Next::Status => true,
        Next::High => true,
        Next::Low(_) => true,
        Next::Other => false,
    }
}

fn high(x: u64) -> u32
    ensures { result ≡ x / 4294967296 }
{
    (x / 0x1_0000_0000) as u32
}

// A write to the command register.
fn write(offset: u64, value: u32) -> Question
    requires { offset < 256 }
    ensures { result ≡ q.RegWrite 0 (register offset) (swap_of value) }
{
    Question::RegWrite(Hcr::BAR, Hcr::BASE + offset, hcr::swap(value))
}

// The write of word i, of what is posted by the words from word 3 on.
fn ask_write(p: [u64; 6], i: u64) -> Question
    ensures { result ≡ ask_write p i }
{
    match i {
        0 => write(0x00, high(p[3])),
        1 => write(0x04, words::narrow32(p[3])),
        2 => write(0x08, words::narrow32(p[2])),
        3 => write(0x0c, high(p[4])),
        4 => write(0x10, words::narrow32(p[4])),
        _ => write(0x14, Hcr::TOKEN),
    }
}

// The write that posts it.
fn ask_go(p: [u64; 6]) -> Question
    ensures { result ≡ ask_go p }
{
    write(
        0x18,
        hcr::go_word(
            words::flag(p[5]),
            words::narrow8(p[1]),
            words::narrow16(p[0]),
        ),
    )
}

fn post_at(state: &[u8]) -> [u64; 6]
    ensures { result ≡ post_words state.now }
{
    let mut p = [0u64; 6];
    words::load(state, 3, &mut p);
    p
}

// The command is in that phase, which has one value or none, and asks this.
fn to(state: &mut [u8], phase: u64, value: u64, q: Question, undo: usize, out: &mut [u8]) -> u32
    ensures value { result ≡ 0 }
    ensures state_after { state.new ≡ stored state.old 1 (phase ∷ value ∷ []) }
    ensures out_after { out.new ≡ turn_in out.old q undo }
{
    let w = [phase, value];
    words::store(state, 1, &w);
    words_calls::put_turn(out, q, undo);
    0
}

// The command is posted.
fn to_posted(state: &mut [u8], toggle: u64, undo: usize, out: &mut [u8]) -> u32
    ensures value { result ≡ 0 }
    ensures state_after { state.new ≡ stored (stored state.old 1 (4 ∷ 0 ∷ [])) 8 (toggle ∷ 0 ∷ []) }
    ensures out_after { out.new ≡ turn_in out.old (q.RegRead 0 (register 0x18)) undo }
{
    let w = [toggle, 0];
    to(
        state,
        4,
        0,
        Question::RegRead(Hcr::BAR, Cmd::STATUS),
        undo,
        out,
    );
    words::store(state, 8, &w);
    0
}

// A stall is counted, and the status read again.
fn to_read(state: &mut [u8], stalls: u64, undo: usize, out: &mut [u8]) -> u32
    ensures value { result ≡ 0 }
    ensures state_after { state.new ≡ stored (stored state.old 1 (4 ∷ 0 ∷ [])) 9 (stalls ∷ []) }
    ensures out_after { out.new ≡ turn_in out.old (q.RegRead 0 (register 0x18)) undo }
{
    let w = [stalls];
    to(
        state,
        4,
        0,
        Question::RegRead(Hcr::BAR, Cmd::STATUS),
        undo,
        out,
    );
    words::store(state, 9, &w);
    0
}

// Writes what comes next: the command's words, and what is asked. Nothing where it is not known here.
pub fn go_on(state: &mut [u8], next: Next, undo: usize, out: &mut [u8]) -> u32
    ensures value { result ≡ 0 }
    ensures state_after { state.new ≡ state_after next state.old }
    ensures out_after { out.new ≡ out_after next state.old out.old undo }
{
    let p = post_at(state);
    match next {
        Next::Write(i) => to(state, 1, i, ask_write(p, i), undo, out),
        Next::Fence => to(state, 2, 0, Question::Fence, undo, out),
        Next::Go => to(state, 3, 0, ask_go(p), undo, out),
        Next::Posted(toggle) => to_posted(state, toggle, undo, out),
        Next::Stall(us) => to(state, 5, 0, Question::Stall(us), undo, out),
        Next::Read(stalls) => to_read(state, stalls, undo, out),
        Next::Fenced => to(state, 6, 0, Question::Fence, undo, out),
        Next::Status => to(
            state,
            7,
            0,
            Question::RegRead(Hcr::BAR, Cmd::STATUS),
            undo,
            out,
        ),
        Next::High => to(
            state,
            8,
            0,
            Question::RegRead(Hcr::BAR, Cmd::HIGH),
            undo,
            out,
        ),
        Next::Low(v) => to(
            state,
            9,
            v,
            Question::RegRead(Hcr::BAR, Cmd::LOW),
            undo,
            out,
        ),
        Next::Other => 0,
    }
}
