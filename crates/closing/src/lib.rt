// Closing and quiesce: what follows when one of their tasks has ended. Each function begins the next task, or passes on to the step behind it. Both send the same
// commands; then a closing gives everything back, by a reset where one is needed, and a quiesce leaves the card to itself.
#![tactic(auto)]

ghost use Rattle.std.specs.Prelude.{◌≡◌, suc, ◌-◌, ◌<◌};
ghost use Rattle.work.specs.declared.End.TheVariants.{Cmd};
ghost use Rattle.session.specs.Core.{full, plan_in, PlanIs};
ghost use Rattle.session.specs.Session.{icm_at};
ghost use Rattle.behind.specs.Behind.{behind_in};
ghost use Rattle.session.specs.declared.Close.TheVariants.{Undo, CloseHca, Unmap, UnmapAux, UnmapFa};
ghost use Rattle.closing_plan.specs.Plan.{stopped_plan, send_plan, unmap_fa_plan, unmap_aux_plan, unmap_plan, close_hca_plan};
ghost use Rattle.closing_plan.specs.Plan.{undo_send, undo_plan, stop_plan, was_reset, frees_plan, close_plan, quiet_plan, failed_plan, quiesce_plan};

use command::CmdEnd;
use hcr::Op;
use reset::ResetEnd;
use session::{Close, Closing, Core, Gave, Plan, Slot, Stage, Top};
use tasks::Parting;
use work::{End, Task};

// How many undo records a closing sends at most.
const UNDOS: u32 = 0xffff_ffff;

// A quiesce ends: the session is broken, and the card is left to itself.
fn quiet(s: Core, undo: usize) -> Plan
    ensures { PlanIs result (λ b. quiet_plan (full s b) undo) }
{
    let u = giving::closes(s.breaks(), Closing::Clean);
    Plan::new(
        u.start(Stage::Close(Close::Quiesce), Task::Part(Parting::Owner)),
        undo,
    )
}

// A command failed: a closing resets, a quiesce ends.
fn failed(s: Core, undo: usize) -> Plan
    ensures { PlanIs result (λ b. failed_plan (full s b) undo) }
{
    let wire = s.wire;
    if wire.silent {
        return quiet(s, undo);
    }
    giving::reset(s, undo)
}

// All commands were good: everything goes back, unless a command may still run. A quiesce ends.
fn stopped(s: Core, undo: usize, m: &[u8]) -> Plan
    ensures { plan_in result (behind_in m.now) ≡ stopped_plan (full s (behind_in m.now)) undo }
{
    let wire = s.wire;
    if wire.silent {
        return quiet(s, undo);
    }
    if wire.running {
        return giving::reset(s, undo);
    }
    giving::give(s, Closing::Clean, undo, m)
}

fn send(s: Core, stage: Close, op: u16, in_mod: u32, in_param: u64, undo: usize) -> Plan
    ensures { PlanIs result (λ b. send_plan (full s b) stage op in_mod in_param undo) }
{
    Plan::new(
        s.send(Stage::Close(stage), session::imm(op, 0, in_mod, in_param)),
        undo,
    )
}

fn unmap_fa(s: Core, undo: usize, m: &[u8]) -> Plan
    ensures { plan_in result (behind_in m.now) ≡ unmap_fa_plan (full s (behind_in m.now)) undo }
{
    if giving::is_held(behind::slot_at(m, Slot::FA)) {
        return send(s, Close::UnmapFa, Op::UNMAP_FA, 0, 0, undo);
    }
    stopped(s, undo, m)
}

fn unmap_aux(s: Core, undo: usize, m: &[u8]) -> Plan
    ensures { plan_in result (behind_in m.now) ≡ unmap_aux_plan (full s (behind_in m.now)) undo }
{
    if giving::is_held(behind::slot_at(m, Slot::AUX)) {
        return send(s, Close::UnmapAux, Op::UNMAP_ICM_AUX, 0, 0, undo);
    }
    unmap_fa(s, undo, m)
}

// The slot of range i; behind the last slot there is none.
fn icm_at(m: &[u8], i: usize) -> Slot
    ensures { result ≡ icm_at (behind_in m.now).slots i }
{
    if i < Slot::COUNT {
        return behind::slot_at(m, Slot::LENT + i);
    }
    behind::slot_at(m, i)
}

// The ranges below i, newest first.
fn unmap(s: Core, i: usize, undo: usize, m: &[u8]) -> Plan
    ensures { plan_in result (behind_in m.now) ≡ unmap_plan (full s (behind_in m.now)) i undo }
{
    if i == 0 {
        return unmap_aux(s, undo, m);
    }
    let range = icm_at(m, i - 1);
    send(
        s,
        Close::Unmap(i - 1),
        Op::UNMAP_ICM,
        (range.pages % 0x1_0000_0000) as u32,
        range.virt,
        undo,
    )
}

fn close_hca(s: Core, undo: usize, m: &[u8]) -> Plan
    ensures { plan_in result (behind_in m.now) ≡ close_hca_plan (full s (behind_in m.now)) undo }
{
    if s.started {
        return send(s, Close::CloseHca, Op::CLOSE_HCA, 0, 0, undo);
    }
    unmap(s, s.ranges, undo, m)
}

// The newest undo record is taken off and sent; one under 22 counts as failed.
fn undo_one(s: Core, more: u32, top: Top) -> Plan
    requires { 0 < top.count }
    ensures { PlanIs result (λ b. undo_send (full s b) more top) }
{
    if more == 0 {
        return failed(s, top.count);
    }
    if hcr::reserved(top.op) {
        return failed(s, top.count);
    }
    Plan::new(
        s.send(
            Stage::Close(Close::Undo(more - 1)),
            session::imm(top.op, top.op_mod, top.in_mod, top.in_param),
        ),
        top.count - 1,
    )
}

// The undo records, newest first, as many as are lent.
fn undo(s: Core, more: u32, top: Top, m: &[u8]) -> Plan
    ensures { plan_in result (behind_in m.now) ≡ undo_plan (full s (behind_in m.now)) more top }
{
    if top.count == 0 {
        return close_hca(s, top.count, m);
    }
    undo_one(s, more, top)
}

// A closing begins.
pub fn stop(s: Core, top: Top, m: &[u8]) -> Plan
    ensures { plan_in result (behind_in m.now) ≡ stop_plan (full s (behind_in m.now)) top }
{
    let wire = s.wire;
    if wire.broken {
        return giving::reset(s, top.count);
    }
    undo(s, UNDOS, top, m)
}

// A quiesce begins.
pub fn quiesce(s: Core, top: Top, m: &[u8]) -> Plan
    ensures { plan_in result (behind_in m.now) ≡ quiesce_plan (full s (behind_in m.now)) top }
{
    let wire = s.wire;
    if wire.broken {
        return quiet(s.silenced(), top.count);
    }
    undo(s.silenced(), UNDOS, top, m)
}

// What follows a reset: everything goes back, or is kept.
fn was_reset(s: Core, end: ResetEnd, undo: usize, m: &[u8]) -> Plan
    ensures { plan_in result (behind_in m.now) ≡ was_reset (full s (behind_in m.now)) end undo }
{
    if end.is_good() {
        return giving::give(s, Closing::Reset, undo, m);
    }
    giving::release(giving::closes(s, Closing::Kept), undo)
}

// A command has ended: the next step follows a good one.
fn undone(s: Core, more: u32, x: CmdEnd, top: Top, m: &[u8]) -> Plan
    ensures { plan_in result (behind_in m.now)
        ≡ close_plan (full s (behind_in m.now)) (Undo more) (Cmd x) top }
{
    let t = s.took(x);
    let result = x.result;
    if giving::is_done(result) {
        return undo(t, more, top, m);
    }
    failed(t, top.count)
}

fn hca_closed(s: Core, x: CmdEnd, top: Top, m: &[u8]) -> Plan
    ensures { plan_in result (behind_in m.now)
        ≡ close_plan (full s (behind_in m.now)) CloseHca (Cmd x) top }
{
    let t = s.took(x);
    let result = x.result;
    if giving::is_done(result) {
        return unmap(t, t.ranges, top.count, m);
    }
    failed(t, top.count)
}

fn unmapped(s: Core, i: usize, x: CmdEnd, top: Top, m: &[u8]) -> Plan
    ensures { plan_in result (behind_in m.now)
        ≡ close_plan (full s (behind_in m.now)) (Unmap i) (Cmd x) top }
{
    let t = s.took(x);
    let result = x.result;
    if giving::is_done(result) {
        return unmap(t, i, top.count, m);
    }
    failed(t, top.count)
}

fn aux_unmapped(s: Core, x: CmdEnd, top: Top, m: &[u8]) -> Plan
    ensures { plan_in result (behind_in m.now)
        ≡ close_plan (full s (behind_in m.now)) UnmapAux (Cmd x) top }
{
    let t = s.took(x);
    let result = x.result;
    if giving::is_done(result) {
        return unmap_fa(t, top.count, m);
    }
    failed(t, top.count)
}

fn fa_unmapped(s: Core, x: CmdEnd, top: Top, m: &[u8]) -> Plan
    ensures { plan_in result (behind_in m.now)
        ≡ close_plan (full s (behind_in m.now)) UnmapFa (Cmd x) top }
{
    let t = s.took(x);
    let result = x.result;
    if giving::is_done(result) {
        return stopped(t, top.count, m);
    }
    failed(t, top.count)
}

// The buffer of slot i is freed: those behind it follow.
fn freed(s: Core, i: usize, undo: usize, m: &[u8]) -> Plan
    ensures { plan_in result (behind_in m.now)
        ≡ frees_plan (81 - i) (suc i) (full s (behind_in m.now)) undo }
{
    if i < Slot::COUNT {
        return giving::free_from(s, i + 1, undo, m);
    }
    giving::release(s, undo)
}

// What follows when a task of a closing or of a quiesce has ended.
pub fn closed(s: Core, stage: Close, end: End, top: Top, m: &[u8]) -> Plan
    ensures { plan_in result (behind_in m.now)
        ≡ close_plan (full s (behind_in m.now)) stage end top }
{
    match stage {
        Close::Undo(more) => undone(s, more, giving::cmd_in(end), top, m),
        Close::CloseHca => hca_closed(s, giving::cmd_in(end), top, m),
        Close::Unmap(i) => unmapped(s, i, giving::cmd_in(end), top, m),
        Close::UnmapAux => aux_unmapped(s, giving::cmd_in(end), top, m),
        Close::UnmapFa => fa_unmapped(s, giving::cmd_in(end), top, m),
        Close::Quiesce => Plan::new(giving::rests(s, Gave::Nothing), top.count),
        Close::Reset => was_reset(s, giving::reset_in(end), top.count, m),
        Close::Free(i) => freed(s, i, top.count, m),
        Close::Release => giving::restore(s, top.count),
        Close::Restore => Plan::new(giving::ends(s), top.count),
    }
}
