// The one writer of a slot: what an answer does to the slot of the task under way, by the question that is open and by what the task is for.
#![tactic(auto)]

ghost use Rattle.std.specs.Prelude.{◌≡◌};
ghost use Rattle.session.specs.Session.{no_slot, unmapped_from, slot_at};
ghost use Rattle.session.specs.Course.{slot};
ghost use Rattle.session.specs.Core.{full};
ghost use Rattle.behind.specs.Behind.{behind_in, slot_put};
ghost use Rattle.words_laws.specs.Kept.{Rewrites};
ghost use Rattle.client_plan.specs.Client.{lend_at};
ghost use Rattle.client_plan.specs.Plan as kc;
ghost use Rattle.closing_plan.specs.Plan as kl;
ghost use Rattle.opening_plan.specs.Plan.{box_of};
ghost use Rattle.booking.specs.Booking as b;

use pci::{Answer, NoReply, Question};
use session::{Area, Boot, Client, Close, Core, Prepare, Slot, Stage};

// What a task's buffer is for: nothing; one of the mailboxes; or this slot, a range's with its card address.
#[derive(Clone, Copy)]
pub enum Place {
    Neither,
    Inbox,
    Outbox,
    Slot(usize, u64),
}

// The place of a slot; there is none past the last.
fn slot_place(i: usize) -> Place
    ensures { b.place_of result ≡ b.within (slot i 0) }
{
    if i < Slot::COUNT {
        return Place::Slot(i, 0);
    }
    Place::Neither
}

// The place of a range.
fn range_place(i: usize, m: &[u8]) -> Place
    ensures { b.RangePlace result i (behind_in m.now) }
{
    if i < Slot::COUNT - Slot::LENT {
        return Place::Slot(Slot::LENT + i, opening_values::range_at(i, m).virt);
    }
    Place::Neither
}

fn area_place(a: Area, m: &[u8]) -> Place
    ensures { b.AreaPlace result a (behind_in m.now) }
{
    match a {
        Area::Fa => Place::Slot(Slot::FA, 0),
        Area::Aux => Place::Slot(Slot::AUX, 0),
        Area::Range(i) => range_place(i, m),
    }
}

// The place of a buffer that is lent: there are 64.
fn lend_place(i: usize) -> Place
    ensures { b.place_of result ≡ b.within (lend_at i) }
{
    if i < Slot::LENT {
        return Place::Slot(i, 0);
    }
    Place::Neither
}

// The place of the task under way, by what it is for.
fn box_place(p: Prepare) -> Place
    ensures { b.place_of result ≡ b.within (box_of p) }
{
    match p {
        Prepare::Inbox => Place::Inbox,
        Prepare::Outbox => Place::Outbox,
        _ => Place::Neither,
    }
}

fn boot_place(k: Boot, m: &[u8]) -> Place
    ensures { b.BootPlace result k (behind_in m.now) }
{
    match k {
        Boot::QueryFw => Place::Neither,
        Boot::Make(a) => area_place(a, m),
        Boot::Map(_, _) => Place::Neither,
        Boot::RunFw => Place::Neither,
        Boot::ModStat => Place::Neither,
        Boot::DevCap => Place::Neither,
        Boot::Port(_) => Place::Neither,
        Boot::IcmSize => Place::Neither,
        Boot::InitHca => Place::Neither,
        Boot::Func => Place::Neither,
        Boot::Adapter => Place::Neither,
    }
}

fn client_place(c: Client) -> Place
    ensures { b.place_of result ≡ b.within (kc.place_in c) }
{
    match c {
        Client::Lend(i) => lend_place(i),
        Client::Command(_) | Client::UndoTo(..) => Place::Neither,
    }
}

fn close_place(c: Close) -> Place
    ensures { b.place_of result ≡ b.within (kl.place_in c) }
{
    match c {
        Close::Free(i) => slot_place(i),
        _ => Place::Neither,
    }
}

fn wants(stage: Stage, m: &[u8]) -> Place
    ensures { b.StagePlace result stage (behind_in m.now) }
{
    match stage {
        Stage::Fresh => Place::Neither,
        Stage::Open(_) => Place::Neither,
        Stage::Ended => Place::Neither,
        Stage::Prepare(p) => box_place(p),
        Stage::Boot(k) => boot_place(k, m),
        Stage::Client(c) => client_place(c),
        Stage::Close(c) => close_place(c),
    }
}

// A run that is handed over is put down.
fn grant(x: Slot, virt: u64, pages: u64, y: Result<u64, NoReply>) -> Slot
    ensures { result ≡ b.granted virt pages y x }
{
    match y {
        Ok(handle) => Slot {
            runs: 1,
            virt,
            handle,
            dev: 0,
            pages,
            mapped: false,
        },
        Err(_) => x,
    }
}

// One that is mapped is marked, with its device address; one that is unmapped is no longer.
fn map(x: Slot, y: Result<(u64, u64), NoReply>) -> Slot
    ensures { result ≡ b.mapped y x }
{
    match y {
        Ok((dev, _)) => Slot {
            dev,
            mapped: true,
            ..x
        },
        Err(_) => x,
    }
}

fn unmap(x: Slot) -> Slot
    ensures { result ≡ unmapped_from x }
{
    Slot { mapped: false, ..x }
}

// One that is freed is taken off: the slot is empty.
fn empty() -> Slot
    ensures { result ≡ no_slot }
{
    Slot {
        runs: 0,
        virt: 0,
        handle: 0,
        dev: 0,
        pages: 0,
        mapped: false,
    }
}

// What an answer does to a slot.
fn turn(x: Slot, virt: u64, q: Question, a: Answer) -> Slot
    ensures { result ≡ b.turned virt q a x }
{
    match q {
        Question::Allocate(n) => grant(x, virt, n, pci::as_handle(a)),
        Question::Map(..) => map(x, pci::as_map(a)),
        Question::Unmap(_) => unmap(x),
        Question::Free(..) => empty(),
        _ => x,
    }
}

fn put(i: usize, virt: u64, q: Question, a: Answer, m: &mut [u8])
    ensures m_after { m.new ≡ slot_put i (b.turned virt q a (slot_at (behind_in m.old).slots i)) m.old }
    ensures rewrites { Rewrites m.old m.new (b.turned_behind (slot i virt) q a m.old) }
{
    let x = behind::slot_at(m, i);
    behind::put_slot(m, i, turn(x, virt, q, a));
}

fn put_at(p: Place, q: Question, a: Answer, m: &mut [u8])
    ensures m_after { m.new ≡ b.put_at (b.place_of p) q a m.old }
    ensures rewrites { Rewrites m.old m.new (b.turned_behind (b.place_of p) q a m.old) }
{
    match p {
        Place::Neither => {}
        Place::Inbox => put(Slot::INBOX, 0, q, a, m),
        Place::Outbox => put(Slot::OUTBOX, 0, q, a, m),
        Place::Slot(i, virt) => put(i, virt, q, a, m),
    }
}

// The question is about a run of pages: only its answer changes a slot.
fn is_deal(q: Question) -> bool
    ensures { result ≡ b.is_deal q }
{
    matches!(
        q,
        Question::Allocate(_) | Question::Map(..) | Question::Unmap(_) | Question::Free(..)
    )
}

// Writes the slot of the task under way as the answer to this question leaves it. Any question but these four leaves the bytes, and no layout is worked out for it.
pub fn book(s: Core, q: Question, a: Answer, m: &mut [u8])
    ensures m_after { m.new ≡ b.slot_by (full s (behind_in m.old)) q a m.old }
    ensures rewrites { Rewrites m.old m.new (b.booked_behind s q a m.old) }
{
    if is_deal(q) {
        let stage = s.stage;
        let place = wants(stage, m);
        put_at(place, q, a, m);
    }
}
