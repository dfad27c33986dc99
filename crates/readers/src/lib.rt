// What can be read of a session without changing it: its open question, what has become of it, what the opening has found out, and its books.
#![tactic(auto)]

ghost use Rattle.std.specs.Prelude.{◌≡◌};
ghost use Rattle.session.specs.Core.{Behind, full};
ghost use Rattle.behind.specs.Behind.{behind_in};
ghost use Rattle.calls_plan.specs.Calls.{is_open, is_idle};
ghost use Rattle.abi.specs.Readers as c;

use abi::{SHORT, WRONG};
use session::{Core, Stage};
use words_session::Kept;

// The bytes of a question, and of what has become of a session.
const QUESTION: usize = 32;

const RESULT: usize = 40;

fn is_open(stage: Stage) -> bool
    ensures { result ≡ is_open stage }
{
    match stage {
        Stage::Fresh => false,
        Stage::Open(_) => true,
        Stage::Ended => false,
        Stage::Prepare(_) => false,
        Stage::Boot(_) => false,
        Stage::Client(_) => false,
        Stage::Close(_) => false,
    }
}

// The session is open, and no call runs.
fn is_idle(s: Core) -> bool
    ensures { (b : Behind) → result ≡ is_idle (full s b) }
{
    let stage = s.stage;
    if fw_begin::is_session(s) {
        return is_open(stage);
    }
    false
}

// Each of them of a session that was read, where there is room for it.
fn give_question(s: Core, state: &[u8], out: &mut [u8]) -> u32
    ensures value { result ≡ (c.question_known (full s (behind_in state.now)) out.old).code }
    ensures out_after { out.new ≡ (c.question_known (full s (behind_in state.now)) out.old).out }
{
    let task = s.task;
    if out.len() < QUESTION {
        return SHORT;
    }
    let w = words_calls::question_words(intask::asks(task, state));
    words::store(out, 0, &w);
    0
}

fn give_result(s: Core, state: &[u8], out: &mut [u8]) -> u32
    ensures value { result ≡ (c.result_known (full s (behind_in state.now)) out.old).code }
    ensures out_after { out.new ≡ (c.result_known (full s (behind_in state.now)) out.old).out }
{
    if out.len() < RESULT {
        return SHORT;
    }
    let w = results::outcome_words(results::outcome(s), state);
    words::store(out, 0, &w);
    0
}

fn give_setup(s: Core, state: &[u8], out: &mut [u8]) -> u32
    ensures value { result ≡ (c.setup_known (full s (behind_in state.now)) out.old).code }
    ensures out_after { out.new ≡ (c.setup_known (full s (behind_in state.now)) out.old).out }
{
    if is_idle(s) {
        if out.len() < results::SETUP {
            return SHORT;
        }
        results::put_setup(out, s, state);
        return 0;
    }
    WRONG
}

fn give_books(s: Core, state: &[u8], out: &mut [u8]) -> u32
    ensures value { result ≡ (c.books_known (full s (behind_in state.now)) out.old).code }
    ensures out_after { out.new ≡ (c.books_known (full s (behind_in state.now)) out.old).out }
{
    if out.len() < results::BOOKS {
        return SHORT;
    }
    results::put_books(out, s, state);
    0
}

// The question that is open: its kind and three values.
pub fn question_bytes(state: &[u8], out: &mut [u8]) -> u32
    ensures value { result ≡ (c.question state.now out.old).code }
    ensures out_after { out.new ≡ (c.question state.now out.old).out }
{
    match words_session::keeps(state) {
        Kept::Good => give_question(words_session::head_at(state), state, out),
        Kept::Short => SHORT,
        Kept::NoSession => WRONG,
    }
}

// What has become of the session: its kind, the refusal and its two values, and how the closing went.
pub fn result_bytes(state: &[u8], out: &mut [u8]) -> u32
    ensures value { result ≡ (c.result state.now out.old).code }
    ensures out_after { out.new ≡ (c.result state.now out.old).out }
{
    match words_session::keeps(state) {
        Kept::Good => give_result(words_session::head_at(state), state, out),
        Kept::Short => SHORT,
        Kept::NoSession => WRONG,
    }
}

// What the opening has found out, of a session that is open.
pub fn setup_bytes(state: &[u8], out: &mut [u8]) -> u32
    ensures value { result ≡ (c.setup state.now out.old).code }
    ensures out_after { out.new ≡ (c.setup state.now out.old).out }
{
    match words_session::keeps(state) {
        Kept::Good => give_setup(words_session::head_at(state), state, out),
        Kept::Short => SHORT,
        Kept::NoSession => WRONG,
    }
}

// What the session holds: the head in 32 words, then the ranges in four words each, then the lent buffers in three.
pub fn books_bytes(state: &[u8], out: &mut [u8]) -> u32
    ensures value { result ≡ (c.books state.now out.old).code }
    ensures out_after { out.new ≡ (c.books state.now out.old).out }
{
    match words_session::keeps(state) {
        Kept::Good => give_books(words_session::head_at(state), state, out),
        Kept::Short => SHORT,
        Kept::NoSession => WRONG,
    }
}
