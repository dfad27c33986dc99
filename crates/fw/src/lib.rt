// The session as it takes answers, in its bytes: an answer inside a task writes the task's own words; the end of one leads to the plan that follows, and writes the head.
// How a call begins is the crate `calls`.
#![tactic(auto)]

ghost use Rattle.std.specs.Prelude.{◌≡◌, ◌≤◌, length};
ghost use Rattle.words.specs.Places.{state_bytes};
ghost use Rattle.words_laws.specs.Kept.{Rewrites};
ghost use Rattle.work.specs.declared.Ending.TheVariants.{Ended};
ghost use Rattle.session.specs.Core.{full};
ghost use Rattle.behind.specs.Behind.{behind_in, noted_in};
ghost use Rattle.opening.specs.Notes.{note_at};
ghost use Rattle.fw_plan.specs.Calls as f;
ghost use Rattle.bytes_plan.specs.Left.{left_in, answer_left};
ghost use Rattle.abi.specs.Turns as t;
ghost use Rattle.abi.specs.Kept as k;
ghost use Rattle.fw_begin.specs.Begins.{said_of};
ghost use Rattle.fw.specs.Follow.{noted_by, Leads};

use abi::{SHORT, WRONG};
use fw_begin::Said;
use pci::Answer;
use session::{Core, Plan, Stage, Top};
use work::{End, Ending};

// The bytes of what a call says: the question in four words, and how many undo records are left.
const TURN: usize = 40;

// What follows when a task has ended, by what it was for.
fn follow(s: Core, end: End, outbox: &[u8], top: Top, m: &[u8]) -> Plan
    ensures { Leads result s end outbox.now top (behind_in m.now) }
{
    let stage = s.stage;
    match stage {
        Stage::Fresh => Plan::new(s, top.count),
        Stage::Open(_) => Plan::new(s, top.count),
        Stage::Ended => Plan::new(s, top.count),
        Stage::Prepare(p) => preparing::prepared(s, p, end, top, m),
        Stage::Boot(b) => opening::booted(s, b, end, outbox, top, m),
        Stage::Client(k) => client::served(s, k, end, top),
        Stage::Close(c) => closing::closed(s, c, end, top, m),
    }
}

// What a reply leaves behind the head is noted there.
fn note(s: Core, end: End, outbox: &[u8], m: &mut [u8])
    ensures m_after { m.new ≡ noted_in (note_at s.uar.size s.stage end outbox.now) s.uar.size outbox.now m.old }
    ensures rewrites { Rewrites m.old m.new (noted_by s end outbox.now (behind_in m.old)) }
{
    let stage = s.stage;
    let uar = s.uar;
    let size = uar.size;
    let note = opening::note_of(stage, end, outbox, size);
    fw_step::put_note(m, note, size, outbox);
}

// The task has ended: the plan says what follows, from the outbox as it is lent now.
fn end(s: Core, end: End, inbox: &mut [u8], outbox: &mut [u8], top: Top, m: &mut [u8]) -> Said
    requires { state_bytes ≤ length m.old }
    ensures value { result ≡ said_of (f.ended_of (full s (behind_in m.old)) end inbox.old outbox.old top) }
    ensures inbox_after { inbox.new ≡ f.ended_in (full s (behind_in m.old)) end inbox.old outbox.old top }
    ensures outbox_after { outbox.new ≡ f.ended_out (full s (behind_in m.old)) end outbox.old top }
    ensures m_after { m.new ≡ left_in (full s (behind_in m.old)) (f.ended_of (full s (behind_in m.old)) end inbox.old outbox.old top).session outbox.old (Ended end) m.old }
    ensures writes { k.Writes m.old m.new (f.ended_of (full s (behind_in m.old)) end inbox.old outbox.old top).session }
{
    note(s, end, outbox, m);
    let p = follow(s, end, outbox, top, m);
    fw_begin::begin(p, inbox, outbox, m)
}

// The answer to the open question.
fn step(
    s: Core,
    a: Answer,
    resource: &[u8],
    inbox: &mut [u8],
    outbox: &mut [u8],
    top: Top,
    m: &mut [u8],
) -> Said
    requires { state_bytes ≤ length m.old }
    ensures value { result ≡ said_of (f.step_of (full s (behind_in m.old)) a resource.now inbox.old outbox.old top) }
    ensures inbox_after { inbox.new ≡ f.step_in (full s (behind_in m.old)) a resource.now inbox.old outbox.old top }
    ensures outbox_after { outbox.new ≡ f.step_out (full s (behind_in m.old)) a resource.now outbox.old top }
    ensures m_after { m.new ≡ answer_left (full s (behind_in m.old)) a resource.now outbox.old (f.step_of (full s (behind_in m.old)) a resource.now inbox.old outbox.old top).session m.old }
    ensures steps { k.Steps m.old m.new (full s (behind_in m.old)) (f.step_of (full s (behind_in m.old)) a resource.now inbox.old outbox.old top).session }
{
    let stage = s.stage;
    let took = fw_step::take(s, a, resource, m);
    let task = took.task;
    let ending = took.ending;
    let wipe = took.wipe;
    match ending {
        Ending::Going => fw_step::go_on(s, task, wipe, inbox, outbox, top.count, m),
        Ending::Ended(y) => end(s.start(stage, task), y, inbox, outbox, top, m),
    }
}

// An answer to a session whose head was read: 20 where it is not the time for it, then 21 where there is no room for what it says, or a mailbox is none.
fn answer_of(
    s: Core,
    a: Answer,
    resource: &[u8],
    inbox: &mut [u8],
    outbox: &mut [u8],
    top: Top,
    state: &mut [u8],
    out: &mut [u8],
) -> u32
    requires { state_bytes ≤ length state.old }
    ensures out_after { t.after result state.new inbox.new outbox.new out.new ≡ t.answer_known (full s (behind_in state.old)) a resource.now top state.old inbox.old outbox.old out.old }
    ensures keeps { k.Keeps state.old state.new (full s (behind_in state.old)) (k.answer_next a resource.now top inbox.old outbox.old out.old (full s (behind_in state.old))) }
{
    if !fw_begin::answerable(s, a, state) {
        return WRONG;
    }
    if out.len() < TURN {
        return SHORT;
    }
    if !fw_begin::is_lent(inbox, outbox, top) {
        return SHORT;
    }
    let said = step(s, a, resource, inbox, outbox, top, state);
    let question = said.question;
    words_calls::put_turn(out, question, said.undo);
    0
}

// Hands the session that the bytes hold the answer to its open question, with a resource list's bytes beside it. The head is looked at, and what the step reads.
pub fn answer(
    state: &mut [u8],
    a: Answer,
    resource: &[u8],
    inbox: &mut [u8],
    outbox: &mut [u8],
    top: Top,
    out: &mut [u8],
) -> u32
    ensures out_after { t.after result state.new inbox.new outbox.new out.new ≡ t.answered a resource.now top state.old inbox.old outbox.old out.old }
    ensures holds { k.Holds state.old state.new (k.answer_next a resource.now top inbox.old outbox.old out.old) }
{
    if state.len() < words::STATE_BYTES {
        return SHORT;
    }
    let s = words_session::head_at(state);
    if !words_session::head_stands(state, s) {
        return WRONG;
    }
    answer_of(s, a, resource, inbox, outbox, top, state, out)
}
