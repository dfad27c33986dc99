// What stands behind the head in the bytes of a session: the reset, the search for the UAR BAR, the capabilities, the ports and the slots, each read and written in
// place.
#![tactic(auto)]

ghost use Rattle.std.specs.Prelude.{◌≡◌, ◌+◌, ◌*◌, ◌≤◌, ◌<◌, length, eqb, ltb};
ghost use Rattle.words.specs.Places.{PORT, SLOT, RESET, FIND, CAP, reset_at, find_at, cap_at, port1_at, port2_at, state_bytes, state_words};
ghost use Rattle.fields.specs.Outcome.{pick};
ghost use Rattle.words.specs.Words.{word_at, words_in, put_words};
ghost use Rattle.words_info.specs.Coding.{port_of, port_words, cap_of, cap_words};
ghost use Rattle.words_beside.specs.Coding.{reset_of, reset_words, find_of, find_words};
ghost use Rattle.words_books.specs.Coding.{slot_of, slot_words};
ghost use Rattle.session.specs.Session.{no_slot, slot_at};
ghost use Rattle.session.specs.Core.{is_reset, is_find, close_resets, prepare_resets, prepare_finds};
ghost use Rattle.work.specs.declared.Task.TheVariants.{Reset as resetTask, Bar as barTask};
ghost use Rattle.behind.specs.Behind.{behind_in, put_part, slot_put, begun_in, slots_stand};

use reply::{DevCap, PortInfo};
use reset::Reset;
use session::{Close, Prepare, Slot, Stage};
use uar::FindBar;
use work::Task;

fn no_slot() -> Slot
    ensures { result ≡ no_slot }
{
    Slot {
        runs: 0,
        virt: 0,
        handle: 0,
        dev: 0,
        pages: 0,
        mapped: false,
    }
}

fn slot_in(m: &[u8], k: usize) -> Slot
    requires { (state_bytes ≤ length m.now) × (k + SLOT ≤ state_words) }
    ensures { result ≡ slot_of (words_in m.now k SLOT) }
{
    let mut w = [0u64; words::SLOT];
    words::load(m, k, &mut w);
    words_books::slot_from(w)
}

// The slot of this number; an empty one where there is none.
pub fn slot_at(m: &[u8], i: usize) -> Slot
    ensures { result ≡ slot_at (behind_in m.now).slots i }
{
    if m.len() < words::STATE_BYTES {
        return no_slot();
    }
    if i < Slot::COUNT {
        return slot_in(m, words::SLOTS_AT + i * words::SLOT);
    }
    no_slot()
}

fn put_row(m: &mut [u8], k: usize, v: Slot)
    requires { (state_bytes ≤ length m.old) × (k + SLOT ≤ state_words) }
    ensures { m.new ≡ put_words m.old k (slot_words v) }
{
    let w = words_books::slot_words(v);
    words::store(m, k, &w);
}

// Writes that slot; nothing, where there is none.
pub fn put_slot(m: &mut [u8], i: usize, v: Slot)
    ensures { m.new ≡ slot_put i v m.old }
{
    if i < Slot::COUNT {
        if m.len() < words::STATE_BYTES {
            return;
        }
        put_row(m, words::SLOTS_AT + i * words::SLOT, v);
    }
}

fn reset_in(m: &[u8]) -> Reset
    requires { state_bytes ≤ length m.now }
    ensures { result ≡ reset_of (words_in m.now reset_at RESET) }
{
    let mut w = [0u64; words::RESET];
    words::load(m, words::RESET_AT, &mut w);
    words_beside::reset_from(w)
}

// The reset.
pub fn reset_at(m: &[u8]) -> Reset
    ensures { result ≡ (behind_in m.now).reset }
{
    if m.len() < words::STATE_BYTES {
        return Reset::start();
    }
    reset_in(m)
}

fn put_reset_in(m: &mut [u8], v: Reset)
    requires { state_bytes ≤ length m.old }
    ensures { m.new ≡ put_words m.old reset_at (reset_words v) }
{
    let w = words_beside::reset_words(v);
    words::store(m, words::RESET_AT, &w);
}

pub fn put_reset(m: &mut [u8], v: Reset)
    ensures { m.new ≡ put_part reset_at (reset_words v) m.old }
{
    if m.len() < words::STATE_BYTES {
        return;
    }
    put_reset_in(m, v);
}

fn find_in(m: &[u8]) -> FindBar
    requires { state_bytes ≤ length m.now }
    ensures { result ≡ find_of (words_in m.now find_at FIND) }
{
    let mut w = [0u64; words::FIND];
    words::load(m, words::FIND_AT, &mut w);
    words_beside::find_from(w)
}

// The search for the UAR BAR.
pub fn find_at(m: &[u8]) -> FindBar
    ensures { result ≡ (behind_in m.now).find }
{
    if m.len() < words::STATE_BYTES {
        return FindBar::start();
    }
    find_in(m)
}

fn put_find_in(m: &mut [u8], v: FindBar)
    requires { state_bytes ≤ length m.old }
    ensures { m.new ≡ put_words m.old find_at (find_words v) }
{
    let w = words_beside::find_words(v);
    words::store(m, words::FIND_AT, &w);
}

pub fn put_find(m: &mut [u8], v: FindBar)
    ensures { m.new ≡ put_part find_at (find_words v) m.old }
{
    if m.len() < words::STATE_BYTES {
        return;
    }
    put_find_in(m, v);
}

fn cap_in(m: &[u8]) -> DevCap
    requires { state_bytes ≤ length m.now }
    ensures { result ≡ cap_of (words_in m.now cap_at CAP) }
{
    let mut w = [0u64; words::CAP];
    words::load(m, words::CAP_AT, &mut w);
    words_info::cap_from(w)
}

// The capabilities.
pub fn cap_at(m: &[u8]) -> DevCap
    ensures { result ≡ (behind_in m.now).cap }
{
    if m.len() < words::STATE_BYTES {
        return DevCap::none();
    }
    cap_in(m)
}

fn put_cap_in(m: &mut [u8], v: DevCap)
    requires { state_bytes ≤ length m.old }
    ensures { m.new ≡ put_words m.old cap_at (cap_words v) }
{
    let w = words_info::cap_words(v);
    words::store(m, words::CAP_AT, &w);
}

pub fn put_cap(m: &mut [u8], v: DevCap)
    ensures { m.new ≡ put_part cap_at (cap_words v) m.old }
{
    if m.len() < words::STATE_BYTES {
        return;
    }
    put_cap_in(m, v);
}

fn port_in(m: &[u8], k: usize) -> PortInfo
    requires { (state_bytes ≤ length m.now) × (k ≤ port2_at) }
    ensures { result ≡ port_of (words_in m.now k PORT) }
{
    let mut w = [0u64; words::PORT];
    words::load(m, k, &mut w);
    words_info::port_from(w)
}

// What was said of port 1, or of the other.
pub fn port_at(m: &[u8], i: u8) -> PortInfo
    ensures { result ≡ pick (eqb i 1) (behind_in m.now).port1 (behind_in m.now).port2 }
{
    if m.len() < words::STATE_BYTES {
        return PortInfo::none();
    }
    if i == 1 {
        return port_in(m, words::PORT1_AT);
    }
    port_in(m, words::PORT2_AT)
}

fn put_port_in(m: &mut [u8], k: usize, v: PortInfo)
    requires { (state_bytes ≤ length m.old) × (k ≤ port2_at) }
    ensures { m.new ≡ put_words m.old k (port_words v) }
{
    let w = words_info::port_words(v);
    words::store(m, k, &w);
}

pub fn put_port(m: &mut [u8], i: u8, v: PortInfo)
    ensures { m.new ≡ put_part (pick (eqb i 1) port1_at port2_at) (port_words v) m.old }
{
    if m.len() < words::STATE_BYTES {
        return;
    }
    if i == 1 {
        put_port_in(m, words::PORT1_AT, v);
        return;
    }
    put_port_in(m, words::PORT2_AT, v);
}

// The stages that a reset is for, and that of a search for the UAR BAR.
fn close_resets(x: Close) -> bool
    ensures { result ≡ close_resets x }
{
    match x {
        Close::Undo(_) => false,
        Close::CloseHca => false,
        Close::Unmap(_) => false,
        Close::UnmapAux => false,
        Close::UnmapFa => false,
        Close::Quiesce => false,
        Close::Reset => true,
        Close::Free(_) => false,
        Close::Release => false,
        Close::Restore => false,
    }
}

fn prepare_resets(x: Prepare) -> bool
    ensures { result ≡ prepare_resets x }
{
    match x {
        Prepare::Attributes => false,
        Prepare::Claim => false,
        Prepare::Reset => true,
        Prepare::Bar => false,
        Prepare::Inbox => false,
        Prepare::Outbox => false,
        Prepare::Look => false,
    }
}

fn prepare_finds(x: Prepare) -> bool
    ensures { result ≡ prepare_finds x }
{
    match x {
        Prepare::Attributes => false,
        Prepare::Claim => false,
        Prepare::Reset => false,
        Prepare::Bar => true,
        Prepare::Inbox => false,
        Prepare::Outbox => false,
        Prepare::Look => false,
    }
}

fn is_reset(x: Stage) -> bool
    ensures { result ≡ is_reset x }
{
    match x {
        Stage::Fresh => false,
        Stage::Open(_) => false,
        Stage::Ended => false,
        Stage::Prepare(y) => prepare_resets(y),
        Stage::Boot(_) => false,
        Stage::Client(_) => false,
        Stage::Close(y) => close_resets(y),
    }
}

fn is_find(x: Stage) -> bool
    ensures { result ≡ is_find x }
{
    match x {
        Stage::Fresh => false,
        Stage::Open(_) => false,
        Stage::Ended => false,
        Stage::Prepare(y) => prepare_finds(y),
        Stage::Boot(_) => false,
        Stage::Client(_) => false,
        Stage::Close(_) => false,
    }
}

fn begin_reset(m: &mut [u8], stage: Stage)
    ensures { m.new ≡ begun_in stage resetTask m.old }
{
    if is_reset(stage) {
        put_reset(m, Reset::start());
    }
}

fn begin_find(m: &mut [u8], stage: Stage)
    ensures { m.new ≡ begun_in stage barTask m.old }
{
    if is_find(stage) {
        put_find(m, FindBar::start());
    }
}

// A plan's task begins: a reset and a search begin anew, in the stages that they are for.
pub fn begin(m: &mut [u8], stage: Stage, task: Task)
    ensures { m.new ≡ begun_in stage task m.old }
{
    match task {
        Task::Rest => {}
        Task::Attr(_) => {}
        Task::Claim(_) => {}
        Task::Reset => begin_reset(m, stage),
        Task::Bar => begin_find(m, stage),
        Task::Make(_) => {}
        Task::Free(_) => {}
        Task::Look => {}
        Task::Cmd(_) => {}
        Task::Part(_) => {}
    }
}

fn flag_stands(m: &[u8], k: usize) -> bool
    requires { (state_bytes ≤ length m.now) × (k < state_words) }
    ensures { result ≡ ltb (word_at m.now k) 2 }
{
    let mut w = [0u64; 1];
    words::load(m, k, &mut w);
    w[0] < 2
}

// Each slot's word `mapped` is 0 or 1.
pub fn slots_stand(m: &[u8]) -> bool
    ensures { result ≡ slots_stand m.now }
{
    if m.len() < words::STATE_BYTES {
        return false;
    }
    for i in 0..Slot::COUNT {
        if !flag_stands(m, words::SLOTS_AT + i * words::SLOT + 5) {
            return false;
        }
    }
    true
}
