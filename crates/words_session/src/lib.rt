// A session as words of eight bytes, which the caller keeps between two calls: its head by value, and what stands behind the head in place.
#![tactic(auto)]

ghost use Rattle.std.specs.Prelude.{false, ◌≡◌, ◌+◌, ◌*◌, ◌<◌, ◌≤◌, ltb, length, replicate};
ghost use Rattle.fields.specs.Outcome.{pick};
ghost use Rattle.session.specs.Session.{fresh, no_slot};
ghost use Rattle.session.specs.Core.{none_behind};
ghost use Rattle.reply.specs.Capability.{no_caps};
ghost use Rattle.reply.specs.Replies.{no_port};
ghost use Rattle.words.specs.Places.{TASK, STAGE, LEDGER, TOLD, SLOT, SLOTS, task_at, stage_at, ledger_at, told_at, cap_at, port1_at, port2_at};
ghost use Rattle.words.specs.Places.{reset_at, find_at, slots_at, state_bytes};
ghost use Rattle.words.specs.Words.{words_in, put_words, same_words, flat};
ghost use Rattle.words_task.specs.Coding.{task_of, task_words};
ghost use Rattle.words_stage.specs.Coding.{stage_of, stage_words};
ghost use Rattle.words_books.specs.Coding.{ledger_of, ledger_words, slot_words};
ghost use Rattle.words_info.specs.Coding.{told_of, told_words, cap_words, port_words};
ghost use Rattle.words_beside.specs.Coding.{reset_words, find_words};
ghost use Rattle.behind.specs.Behind.{behind_from};
ghost use Rattle.words_session.specs.Image.{core_of, ledger_for, told_for, head_words, tail_words, behind_words};
ghost use Rattle.words_session.specs.Image.{put_head, put_task, encoded_in, core_in, head_in, session_in, counts_fit};
ghost use Rattle.words_session.specs.Image.{head_stands, tail_stands, behind_stands, decode_of, kept_as};

use reply::{DevCap, PortInfo};
use reset::Reset;
use session::{Core, Slot, Stage};
use uar::FindBar;
use words::STATE_BYTES;
use words_books::Ledger;
use words_info::Told;
use work::Task;

// Whether bytes are a session: there are too few of them, or they are none.
#[derive(Clone, Copy)]
pub enum Kept {
    Good,
    Short,
    NoSession,
}

// The task.
fn task_at(s: &[u8]) -> Task
    requires { state_bytes ≤ length s.now }
    ensures { result ≡ task_of (words_in s.now task_at TASK) }
{
    let mut w = [0u64; words::TASK];
    words::load(s, words::TASK_AT, &mut w);
    words_task::task_from(w)
}

fn task_stands(s: &[u8], v: Task) -> bool
    requires { state_bytes ≤ length s.now }
    ensures { result ≡ same_words s.now task_at (task_words v) }
{
    let w = words_task::task_words(v);
    words::same(s, words::TASK_AT, &w)
}

fn put_task_in(s: &mut [u8], v: Task)
    requires { state_bytes ≤ length s.old }
    ensures { s.new ≡ put_words s.old task_at (task_words v) }
{
    let w = words_task::task_words(v);
    words::store(s, words::TASK_AT, &w);
}

// The stage.
fn stage_at(s: &[u8]) -> Stage
    requires { state_bytes ≤ length s.now }
    ensures { result ≡ stage_of (words_in s.now stage_at STAGE) }
{
    let mut w = [0u64; words::STAGE];
    words::load(s, words::STAGE_AT, &mut w);
    words_stage::stage_from(w)
}

fn stage_stands(s: &[u8], v: Stage) -> bool
    requires { state_bytes ≤ length s.now }
    ensures { result ≡ same_words s.now stage_at (stage_words v) }
{
    let w = words_stage::stage_words(v);
    words::same(s, words::STAGE_AT, &w)
}

fn put_stage(s: &mut [u8], v: Stage)
    requires { state_bytes ≤ length s.old }
    ensures { s.new ≡ put_words s.old stage_at (stage_words v) }
{
    let w = words_stage::stage_words(v);
    words::store(s, words::STAGE_AT, &w);
}

// The ledger.
fn ledger_at(s: &[u8]) -> Ledger
    requires { state_bytes ≤ length s.now }
    ensures { result ≡ ledger_of (words_in s.now ledger_at LEDGER) }
{
    let mut w = [0u64; words::LEDGER];
    words::load(s, words::LEDGER_AT, &mut w);
    words_books::ledger_from(w)
}

fn ledger_stands(s: &[u8], v: Ledger) -> bool
    requires { state_bytes ≤ length s.now }
    ensures { result ≡ same_words s.now ledger_at (ledger_words v) }
{
    let w = words_books::ledger_words(v);
    words::same(s, words::LEDGER_AT, &w)
}

fn put_ledger(s: &mut [u8], v: Ledger)
    requires { state_bytes ≤ length s.old }
    ensures { s.new ≡ put_words s.old ledger_at (ledger_words v) }
{
    let w = words_books::ledger_words(v);
    words::store(s, words::LEDGER_AT, &w);
}

// What was told.
fn told_at(s: &[u8]) -> Told
    requires { state_bytes ≤ length s.now }
    ensures { result ≡ told_of (words_in s.now told_at TOLD) }
{
    let mut w = [0u64; words::TOLD];
    words::load(s, words::TOLD_AT, &mut w);
    words_info::told_from(w)
}

fn told_stands(s: &[u8], v: Told) -> bool
    requires { state_bytes ≤ length s.now }
    ensures { result ≡ same_words s.now told_at (told_words v) }
{
    let w = words_info::told_words(v);
    words::same(s, words::TOLD_AT, &w)
}

fn put_told(s: &mut [u8], v: Told)
    requires { state_bytes ≤ length s.old }
    ensures { s.new ≡ put_words s.old told_at (told_words v) }
{
    let w = words_info::told_words(v);
    words::store(s, words::TOLD_AT, &w);
}

// Parts behind the head.
fn cap_stands(s: &[u8], v: DevCap) -> bool
    requires { state_bytes ≤ length s.now }
    ensures { result ≡ same_words s.now cap_at (cap_words v) }
{
    let w = words_info::cap_words(v);
    words::same(s, words::CAP_AT, &w)
}

fn port_stands(s: &[u8], k: usize, v: PortInfo) -> bool
    requires { (state_bytes ≤ length s.now) × (k ≤ port2_at) }
    ensures { result ≡ same_words s.now k (port_words v) }
{
    let w = words_info::port_words(v);
    words::same(s, k, &w)
}

fn reset_stands(s: &[u8], v: Reset) -> bool
    requires { state_bytes ≤ length s.now }
    ensures { result ≡ same_words s.now reset_at (reset_words v) }
{
    let w = words_beside::reset_words(v);
    words::same(s, words::RESET_AT, &w)
}

fn find_stands(s: &[u8], v: FindBar) -> bool
    requires { state_bytes ≤ length s.now }
    ensures { result ≡ same_words s.now find_at (find_words v) }
{
    let w = words_beside::find_words(v);
    words::same(s, words::FIND_AT, &w)
}

// What of the head is neither the task nor the stage, nor was told.
fn ledger_of(c: Core) -> Ledger
    ensures { result ≡ ledger_for c }
{
    let wire = c.wire;
    let failure = c.failure;
    let closing = c.closing;
    Ledger {
        ranges: c.ranges,
        lends: c.lends,
        started: c.started,
        original: c.original,
        wire,
        failure,
        closing,
    }
}

fn told_of(c: Core) -> Told
    ensures { result ≡ told_for c }
{
    let uar = c.uar;
    let func = c.func;
    Told {
        uar,
        func,
        rev3: c.rev3,
    }
}

fn head_in(s: &[u8]) -> Core
    requires { state_bytes ≤ length s.now }
    ensures { result ≡ core_in s.now }
{
    let task = task_at(s);
    let stage = stage_at(s);
    let l = ledger_at(s);
    let t = told_at(s);
    let wire = l.wire;
    let failure = l.failure;
    let closing = l.closing;
    let uar = t.uar;
    let func = t.func;
    Core {
        stage,
        task,
        wire,
        ranges: l.ranges,
        lends: l.lends,
        started: l.started,
        original: l.original,
        uar,
        func,
        rev3: t.rev3,
        failure,
        closing,
    }
}

// The head that the words stand for; a fresh one where the bytes are too few.
pub fn head_at(s: &[u8]) -> Core
    ensures { result ≡ head_in s.now }
{
    if s.len() < STATE_BYTES {
        return Core::fresh();
    }
    head_in(s)
}

fn counted(c: Core) -> bool
    ensures { result ≡ counts_fit c }
{
    if c.ranges > 14 {
        return false;
    }
    c.lends <= 64
}

fn head_same(s: &[u8], c: Core) -> bool
    requires { state_bytes ≤ length s.now }
    ensures { result ≡ head_stands s.now c }
{
    let task = c.task;
    let stage = c.stage;
    if !counted(c) {
        return false;
    }
    if !task_stands(s, task) {
        return false;
    }
    if !stage_stands(s, stage) {
        return false;
    }
    if !ledger_stands(s, ledger_of(c)) {
        return false;
    }
    told_stands(s, told_of(c))
}

// The words of the head are those of this one, and its counts are within the slots.
pub fn head_stands(s: &[u8], c: Core) -> bool
    ensures { result ≡ pick (ltb (length s.now) state_bytes) false (head_stands s.now c) }
{
    if s.len() < STATE_BYTES {
        return false;
    }
    head_same(s, c)
}

fn put_head_in(s: &mut [u8], c: Core)
    requires { state_bytes ≤ length s.old }
    ensures { s.new ≡ put_words s.old task_at (head_words c) }
{
    let task = c.task;
    let stage = c.stage;
    put_task_in(s, task);
    put_stage(s, stage);
    put_ledger(s, ledger_of(c));
    put_told(s, told_of(c));
}

// Writes the head; nothing, where the bytes are too few.
pub fn put_head(s: &mut [u8], c: Core)
    ensures { s.new ≡ put_head c s.old }
{
    if s.len() < STATE_BYTES {
        return;
    }
    put_head_in(s, c);
}

// Writes the task alone.
pub fn put_task(s: &mut [u8], task: Task)
    ensures { s.new ≡ put_task task s.old }
{
    if s.len() < STATE_BYTES {
        return;
    }
    put_task_in(s, task);
}

// What stands behind the head stands word for word.
fn tail_stands(s: &[u8]) -> bool
    requires { state_bytes ≤ length s.now }
    ensures { result ≡ tail_stands s.now (behind_from s.now) }
{
    if !reset_stands(s, behind::reset_at(s)) {
        return false;
    }
    if !find_stands(s, behind::find_at(s)) {
        return false;
    }
    behind::slots_stand(s)
}

fn behind_stands(s: &[u8]) -> bool
    requires { state_bytes ≤ length s.now }
    ensures { result ≡ behind_stands s.now (behind_from s.now) }
{
    if !cap_stands(s, behind::cap_at(s)) {
        return false;
    }
    if !port_stands(s, words::PORT1_AT, behind::port_at(s, 1)) {
        return false;
    }
    if !port_stands(s, words::PORT2_AT, behind::port_at(s, 2)) {
        return false;
    }
    tail_stands(s)
}

// Whether the bytes hold a session.
pub fn keeps(s: &[u8]) -> Kept
    ensures { kept_as (session_in s.now) result ≡ decode_of s.now }
{
    if s.len() < STATE_BYTES {
        return Kept::Short;
    }
    if !head_same(s, head_in(s)) {
        return Kept::NoSession;
    }
    if !behind_stands(s) {
        return Kept::NoSession;
    }
    Kept::Good
}

// Slots without a run.
fn clear_slot(s: &mut [u8], i: usize)
    requires { (state_bytes ≤ length s.old) × (i < SLOTS) }
    ensures { s.new ≡ put_words s.old (slots_at + i * SLOT) (slot_words no_slot) }
{
    let none = Slot {
        runs: 0,
        virt: 0,
        handle: 0,
        dev: 0,
        pages: 0,
        mapped: false,
    };
    behind::put_slot(s, i, none);
}

fn put_none(s: &mut [u8])
    requires { state_bytes ≤ length s.old }
    ensures { s.new ≡ put_words s.old slots_at (flat slot_words (replicate 82 no_slot)) }
{
    for i in 0..words::SLOTS {
        clear_slot(s, i);
    }
}

fn put_tail(s: &mut [u8])
    requires { state_bytes ≤ length s.old }
    ensures { s.new ≡ put_words s.old reset_at (tail_words none_behind) }
{
    behind::put_reset(s, Reset::start());
    behind::put_find(s, FindBar::start());
    put_none(s);
}

fn clear_cap(s: &mut [u8])
    requires { state_bytes ≤ length s.old }
    ensures { s.new ≡ put_words s.old cap_at (cap_words no_caps) }
{
    behind::put_cap(s, DevCap::none());
}

fn clear_port1(s: &mut [u8])
    requires { state_bytes ≤ length s.old }
    ensures { s.new ≡ put_words s.old port1_at (port_words no_port) }
{
    behind::put_port(s, 1, PortInfo::none());
}

fn clear_port2(s: &mut [u8])
    requires { state_bytes ≤ length s.old }
    ensures { s.new ≡ put_words s.old port2_at (port_words no_port) }
{
    behind::put_port(s, 2, PortInfo::none());
}

fn put_behind(s: &mut [u8])
    requires { state_bytes ≤ length s.old }
    ensures { s.new ≡ put_words s.old cap_at (behind_words none_behind) }
{
    clear_cap(s);
    clear_port1(s);
    clear_port2(s);
    put_tail(s);
}

// Writes a session that was not opened yet; nothing, where the bytes are too few.
pub fn put_fresh(s: &mut [u8])
    ensures { s.new ≡ encoded_in s.old fresh }
{
    if s.len() < STATE_BYTES {
        return;
    }
    put_head_in(s, Core::fresh());
    put_behind(s);
}
