// An answer to the task under way, in the bytes of the session: the slot that it books, the task's own words, a mailbox that is zeroed; and what a reply leaves behind the
// head.
#![tactic(auto)]

ghost use Rattle.std.specs.Prelude.{◌≡◌};
ghost use Rattle.words_session.specs.Image.{put_task};
ghost use Rattle.words_laws.specs.Kept.{Rewrites};
ghost use Rattle.session.specs.Core.{full, start_of, noted};
ghost use Rattle.behind.specs.Behind.{behind_in, noted_in};
ghost use Rattle.fw_plan.specs.Calls as f;
ghost use Rattle.bytes_plan.specs.Left.{stepped_in};
ghost use Rattle.abi.specs.Kept.{Keeps};
ghost use Rattle.fw_begin.specs.Begins.{said_of};
ghost use Rattle.fw_step.specs.Step as e;

use fw_begin::Said;
use fw_plan::Wipe;
use pci::{Answer, NoReply, Question};
use reply::{DevCap, PortInfo};
use session::{Core, Note, Prepare, Stage};
use work::{Ending, Task};

// What an answer makes of the task: the task, how it ended, and the mailbox that is zeroed if it goes on.
#[derive(Clone, Copy)]
pub struct Took {
    pub task: Task,
    pub ending: Ending,
    pub wipe: Wipe,
}

// A mailbox is zeroed when its pages are handed over.
fn wipe_prepare(p: Prepare) -> Wipe
    ensures { result ≡ f.wipe_prepare p }
{
    match p {
        Prepare::Inbox => Wipe::Inbox,
        Prepare::Outbox => Wipe::Outbox,
        _ => Wipe::Neither,
    }
}

fn wipe_by(stage: Stage) -> Wipe
    ensures { result ≡ f.wipe_by stage }
{
    match stage {
        Stage::Prepare(p) => wipe_prepare(p),
        _ => Wipe::Neither,
    }
}

fn is_allocate(q: Question) -> bool
    ensures { result ≡ f.is_allocate q }
{
    matches!(q, Question::Allocate(_))
}

fn is_granted(r: Result<u64, NoReply>) -> bool
    ensures { result ≡ f.is_granted r }
{
    matches!(r, Ok(_))
}

fn wipe_of(stage: Stage, q: Question, a: Answer) -> Wipe
    ensures { result ≡ e.wipe_at stage q a }
{
    if is_allocate(q) {
        if is_granted(pci::as_handle(a)) {
            return wipe_by(stage);
        }
        return Wipe::Neither;
    }
    Wipe::Neither
}

fn wipes(w: Wipe, inbox: &mut [u8], outbox: &mut [u8])
    ensures inbox_after { inbox.new ≡ f.wiped_in w inbox.old }
    ensures outbox_after { outbox.new ≡ f.wiped_out w outbox.old }
{
    match w {
        Wipe::Neither => {}
        Wipe::Inbox => fields::zero(inbox),
        Wipe::Outbox => fields::zero(outbox),
    }
}

// The task takes an answer: the slot that it books is written, and a reset's words or a search's.
pub fn take(s: Core, a: Answer, resource: &[u8], m: &mut [u8]) -> Took
    ensures value { result ≡ e.took_of (full s (behind_in m.old)) a resource.now }
    ensures m_after { m.new ≡ stepped_in (full s (behind_in m.old)) a resource.now m.old }
    ensures rewrites { Rewrites m.old m.new (e.behind_after (full s (behind_in m.old)) a resource.now (behind_in m.old)) }
{
    let stage = s.stage;
    let task = s.task;
    let question = intask::asks(task, m);
    booking::book(s, question, a, m);
    let going = intask::step(task, m, a, resource);
    let task = going.task;
    let ending = going.ending;
    Took {
        task,
        ending,
        wipe: wipe_of(stage, question, a),
    }
}

// The task goes on: a mailbox whose pages were handed over is zeroed, and the task is written.
pub fn go_on(
    s: Core,
    task: Task,
    wipe: Wipe,
    inbox: &mut [u8],
    outbox: &mut [u8],
    undo: usize,
    m: &mut [u8],
) -> Said
    ensures value { result ≡ said_of (f.turn_of (full (start_of s s.stage task) (behind_in m.old)) undo) }
    ensures inbox_after { inbox.new ≡ f.wiped_in wipe inbox.old }
    ensures outbox_after { outbox.new ≡ f.wiped_out wipe outbox.old }
    ensures m_after { m.new ≡ put_task task m.old }
    ensures keeps { Keeps m.old m.new (full s (behind_in m.old)) (full (start_of s s.stage task) (behind_in m.old)) }
{
    wipes(wipe, inbox, outbox);
    let question = intask::asks(task, m);
    words_session::put_task(m, task);
    Said { question, undo }
}

// What a reply in the outbox leaves behind the head is written.
pub fn put_note(m: &mut [u8], note: Note, size: Option<u64>, outbox: &[u8])
    ensures m_after { m.new ≡ noted_in note size outbox.now m.old }
    ensures rewrites { Rewrites m.old m.new (noted note size outbox.now (behind_in m.old)) }
{
    match note {
        Note::Nothing => {}
        Note::Cap => {
            let cap = reply::dev_cap(outbox, size).unwrap_or(DevCap::none());
            behind::put_cap(m, cap);
        }
        Note::Port(i) => {
            let info = reply::query_port(outbox, i).unwrap_or(PortInfo::none());
            behind::put_port(m, i, info);
        }
    }
}
