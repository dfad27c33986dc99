// What the steps of an opening share: how a task has ended, what the head and the notes on the card hold then, commands of each form, and how an opening fails.
#![tactic(auto)]

ghost use Rattle.std.specs.Prelude.{◌≡◌};
ghost use Rattle.fields.specs.Outcome.{value_or};
ghost use Rattle.layout.specs.Layout.{no_layout};
ghost use Rattle.layout.specs.Counts.{profile_of};
ghost use Rattle.session.specs.Core.{full, plan_in, FullIs, PlanIs, leads, original_as, started_as};
ghost use Rattle.session.specs.Session.{slot_at, icm_at, listing, bookkeeps, informs};
ghost use Rattle.behind.specs.Behind.{behind_in};
ghost use Rattle.opening_values.specs.Heads.{CapIs, VirtIs, CutIs, WithSlots};
ghost use Rattle.opening_plan.specs.Plan as p;
ghost use Rattle.opening_plan.specs.Values as v;

use bars::Pick;
use command::{Catas, CmdResult};
use dma::{Cutter, Listed};
use hcr::{Hcr, Op};
use layout::{Layout, Range};
use pci::Refusal;
use reply::{DevCap, FuncInfo, FwInfo};
use session::{Area, Boot, Core, Failure, Fill, Plan, Slot, Stage, Top, Wire};
use tasks::{Attributes, Claimed};
use uar::NotFound;
use work::End;

// How a task has ended; a plan's own tasks end in their own kind, and any other counts as failed.
pub fn attr_in(end: End) -> Attributes
    ensures { result ≡ p.attr_in end }
{
    match end {
        End::Attr(x) => x,
        End::Claim(_) => Attributes::Refused,
        End::Reset(_) => Attributes::Refused,
        End::Bar(_) => Attributes::Refused,
        End::Made(_) => Attributes::Refused,
        End::Freed => Attributes::Refused,
        End::Looked(_) => Attributes::Refused,
        End::Cmd(_) => Attributes::Refused,
        End::Parted => Attributes::Refused,
    }
}

pub fn claim_in(end: End) -> Claimed
    ensures { result ≡ p.claim_in end }
{
    match end {
        End::Claim(x) => x,
        End::Attr(_) => Claimed::Refused,
        End::Reset(_) => Claimed::Refused,
        End::Bar(_) => Claimed::Refused,
        End::Made(_) => Claimed::Refused,
        End::Freed => Claimed::Refused,
        End::Looked(_) => Claimed::Refused,
        End::Cmd(_) => Claimed::Refused,
        End::Parted => Claimed::Refused,
    }
}

pub fn bar_in(end: End) -> Result<Pick, NotFound>
    ensures { result ≡ p.bar_in end }
{
    match end {
        End::Bar(x) => x,
        End::Attr(_) => Err(NotFound::Refused),
        End::Claim(_) => Err(NotFound::Refused),
        End::Reset(_) => Err(NotFound::Refused),
        End::Made(_) => Err(NotFound::Refused),
        End::Freed => Err(NotFound::Refused),
        End::Looked(_) => Err(NotFound::Refused),
        End::Cmd(_) => Err(NotFound::Refused),
        End::Parted => Err(NotFound::Refused),
    }
}

pub fn toggle_in(end: End) -> bool
    ensures { result ≡ p.toggle_in end }
{
    match end {
        End::Looked(x) => x,
        End::Attr(_) => true,
        End::Claim(_) => true,
        End::Reset(_) => true,
        End::Bar(_) => true,
        End::Made(_) => true,
        End::Freed => true,
        End::Cmd(_) => true,
        End::Parted => true,
    }
}

// QUERY_FW's status on a function that is not the primary one is 10.
fn status_of(s: u8, us: u64) -> Refusal
    ensures { result ≡ v.status_refusal s us }
{
    if s == Hcr::STATUS_MULTI_FUNC {
        return Refusal::NotPrimary;
    }
    Refusal::Status(s, us)
}

pub fn fw_failure_of(r: CmdResult) -> Refusal
    ensures { result ≡ v.fw_failure_of r }
{
    match r {
        CmdResult::Done(_, us) => Refusal::Bus(us),
        CmdResult::Status(s, us) => status_of(s, us),
        CmdResult::Timeout(us) => Refusal::Timeout(us),
        CmdResult::Busy => Refusal::Busy,
        CmdResult::Bus(us) => Refusal::Bus(us),
    }
}

// The head with the first toggle, with the catastrophic buffer, with the attributes that were there first.
pub fn with_toggle(s: Core, toggle: bool) -> Core
    ensures { FullIs result (λ b. bookkeeps (full s b) (v.with_toggle (full s b).books toggle)) }
{
    let was = s.wire;
    let wire = Wire { toggle, ..was };
    Core { wire, ..s }
}

pub fn with_catas(s: Core, i: FwInfo) -> Core
    ensures { FullIs result (λ b. bookkeeps (full s b) (v.with_catas (full s b).books i)) }
{
    let was = s.wire;
    let wire = Wire {
        catas: Catas::Known(i.catas_bar, i.catas_offset),
        ..was
    };
    Core { wire, ..s }
}

pub fn with_original(s: Core, original: u64) -> Core
    ensures { result ≡ original_as s original }
{
    Core { original, ..s }
}

// INIT_HCA was seen good.
pub fn now_started(s: Core) -> Core
    ensures { result ≡ started_as s }
{
    Core { started: true, ..s }
}

// One range more.
fn append(s: Core) -> Core
    ensures { FullIs result (λ b. bookkeeps (full s b) (listing (full s b).books (v.appended (full s b).books.lists))) }
{
    let n = s.ranges;
    if n < Slot::RANGES {
        return Core { ranges: n + 1, ..s };
    }
    s
}

// Range i of the layout.
fn range_in(ranges: [Range; 14], i: usize) -> Range
    ensures { result ≡ v.range_in ranges i }
{
    if i < 14 {
        return ranges[i];
    }
    Range { virt: 0, bytes: 0 }
}

pub fn range_at(i: usize, m: &[u8]) -> Range
    ensures { result ≡ v.range_in (value_or no_layout (profile_of (behind_in m.now).cap)).ranges i }
{
    let layout = layout::profile(behind::cap_at(m)).unwrap_or(Layout::none());
    let ranges = layout.ranges;
    range_in(ranges, i)
}

// An area's card address, and its command.
fn virt_for(a: Area, m: &[u8]) -> Option<u64>
    ensures { VirtIs result a (behind_in m.now) }
{
    match a {
        Area::Fa => None,
        Area::Aux => None,
        Area::Range(i) => Some(range_at(i, m).virt),
    }
}

pub fn op_for(a: Area) -> u16
    ensures { result ≡ v.op_for a }
{
    match a {
        Area::Fa => Op::MAP_FA,
        Area::Aux => Op::MAP_ICM_AUX,
        Area::Range(_) => Op::MAP_ICM,
    }
}

// The slot of range i; behind the last slot there is none.
fn range_slot(i: usize, m: &[u8]) -> Slot
    ensures { result ≡ icm_at (behind_in m.now).slots i }
{
    if i < Slot::COUNT {
        return behind::slot_at(m, Slot::LENT + i);
    }
    behind::slot_at(m, i)
}

// The slot of an area; an empty one where there is none.
fn slot_of(a: Area, m: &[u8]) -> Slot
    ensures { result ≡ slot_at (behind_in m.now).slots (v.slot_for a) }
{
    match a {
        Area::Fa => behind::slot_at(m, Slot::FA),
        Area::Aux => behind::slot_at(m, Slot::AUX),
        Area::Range(i) => range_slot(i, m),
    }
}

// The buffer of an area is made, and in its slot: a range counts.
pub fn enters(s: Core, a: Area) -> Core
    ensures { FullIs result (λ b. bookkeeps (full s b) (v.enters a (full s b).books)) }
{
    match a {
        Area::Fa => s,
        Area::Aux => s,
        Area::Range(_) => append(s),
    }
}

// What is to be cut of an area whose buffer is in its slot.
pub fn cut_in(a: Area, m: &[u8]) -> Cutter
    ensures { CutIs result a (behind_in m.now) }
{
    let buffer = session::buffer_of(slot_of(a, m));
    Cutter {
        virt: virt_for(a, m),
        phys: buffer.dev,
        left: session::bytes(buffer),
    }
}

// What the card has said, noted in the head.
pub fn with_cap(s: Core, cap: DevCap) -> Core
    ensures { CapIs result cap s }
{
    let func = FuncInfo {
        rsvd_eqs: cap.rsvd_eqs,
        max_eqs: cap.max_eqs,
        rsvd_uars: cap.rsvd_uars,
    };
    Core { func, ..s }
}

pub fn with_revision(s: Core, rev: u16) -> Core
    ensures { FullIs result (λ b. informs (full s b) (v.with_revision (full s b).info rev)) }
{
    Core {
        rev3: rev == 3,
        ..s
    }
}

pub fn plan(core: Core, fill: Fill, undo: usize) -> Plan
    ensures { result ≡ leads core fill undo }
{
    Plan { core, fill, undo }
}

// A command that names the outbox.
pub fn ask(s: Core, stage: Boot, op: u16, in_mod: u32, top: Top, m: &[u8]) -> Plan
    ensures { plan_in result (behind_in m.now) ≡ p.ask_plan (full s (behind_in m.now)) stage op in_mod top }
{
    let slot = behind::slot_at(m, Slot::OUTBOX);
    plan(
        s.send(Stage::Boot(stage), session::with_out(slot.dev, op, in_mod)),
        Fill::Outbox,
        top.count,
    )
}

// A command that names the inbox, and one that names neither.
pub fn give(s: Core, stage: Boot, op: u16, fill: Fill, top: Top, m: &[u8]) -> Plan
    ensures { plan_in result (behind_in m.now) ≡ p.give_plan (full s (behind_in m.now)) stage op fill top }
{
    let slot = behind::slot_at(m, Slot::INBOX);
    plan(
        s.send(Stage::Boot(stage), session::with_in(slot.dev, op, 0)),
        fill,
        top.count,
    )
}

pub fn imm(s: Core, stage: Boot, op: u16, in_param: u64, top: Top) -> Plan
    ensures { PlanIs result (λ b. p.imm_plan (full s b) stage op in_param top) }
{
    plan(
        s.send(Stage::Boot(stage), session::imm(op, 0, 0, in_param)),
        Fill::Nothing,
        top.count,
    )
}

// The opening fails: the session says why, and closing begins.
pub fn fail(s: Core, why: Refusal, top: Top, m: &[u8]) -> Plan
    ensures { plan_in result (behind_in m.now) ≡ p.fail_plan (full s (behind_in m.now)) why top }
{
    closing::stop(
        Core {
            failure: Failure::By(why),
            ..s
        },
        top,
        m,
    )
}

// A command failed, and with it the opening.
pub fn fail_by(s: Core, r: CmdResult, top: Top, m: &[u8]) -> Plan
    ensures { plan_in result (behind_in m.now) ≡ p.fail_by_plan (full s (behind_in m.now)) r top }
{
    fail(s.broken_by(r), session::failure_of(r), top, m)
}

fn list_at(s: Core, stage: Boot, y: Listed, m: &[u8]) -> Core
    ensures { WithSlots (behind_in m.now) (λ b. full result b ≡ p.lists_boot (full s b) y stage) }
{
    let slot = behind::slot_at(m, Slot::INBOX);
    let rest = y.rest;
    match stage {
        Boot::QueryFw => s,
        Boot::Make(_) => s,
        Boot::Map(a, _) => s.send(
            Stage::Boot(Boot::Map(a, rest)),
            session::with_in(slot.dev, op_for(a), (y.entries % 0x1_0000_0000) as u32),
        ),
        Boot::RunFw => s,
        Boot::ModStat => s,
        Boot::DevCap => s,
        Boot::Port(_) => s,
        Boot::IcmSize => s,
        Boot::InitHca => s,
        Boot::Func => s,
        Boot::Adapter => s,
    }
}

// The command that posts a page list: its number of entries, and what is left of the area.
pub fn lists(s: Core, y: Listed, m: &[u8]) -> Core
    ensures { WithSlots (behind_in m.now) (λ b. full result b ≡ p.lists (full s b) y) }
{
    let stage = s.stage;
    match stage {
        Stage::Fresh => s,
        Stage::Open(_) => s,
        Stage::Ended => s,
        Stage::Prepare(_) => s,
        Stage::Boot(b) => list_at(s, b, y, m),
        Stage::Client(_) => s,
        Stage::Close(_) => s,
    }
}
