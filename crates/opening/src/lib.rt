// Bring-up: what follows when one of its tasks has ended. Each function begins the next task, or passes on to the step behind it. What a reply leaves behind the head is
// noted there before.
#![tactic(auto)]

ghost use Rattle.std.specs.Prelude.{◌≡◌, ◌*◌};
ghost use Rattle.reply.specs.Capability.{capability_of};
ghost use Rattle.reply.specs.Replies.{query_fw, fw_in, query_func, query_port_of};
ghost use Rattle.work.specs.declared.End.TheVariants.{Cmd};
ghost use Rattle.session.specs.declared.Area.TheVariants.{Aux};
ghost use Rattle.session.specs.declared.Boot.TheVariants.{DevCap, Port};
ghost use Rattle.session.specs.declared.Note.TheVariants as o;
ghost use Rattle.session.specs.Core.{full, plan_in, PlanIs};
ghost use Rattle.behind.specs.Behind.{behind_in};
ghost use Rattle.opening_plan.specs.Plan as p;
ghost use Rattle.opening.specs.Notes as n;

use command::CmdEnd;
use fields::Short;
use hcr::Op;
use pci::Refusal;
use reply::{FuncInfo, FwInfo, FwRefusal};
use session::{Area, Boot, Closing, Core, Failure, Fill, Gave, Note, Plan, Stage, Top};
use work::{End, Task};

// The note of a reply with capabilities, of one on a port; nothing of a reply that is refused.
fn cap_value(outbox: &[u8], size: Option<u64>) -> Note
    ensures { result ≡ n.value_note o.Cap (capability_of outbox.now size) }
{
    if reply::dev_cap(outbox, size).is_ok() {
        Note::Cap
    } else {
        Note::Nothing
    }
}

fn port_value(outbox: &[u8], i: u8) -> Note
    ensures { result ≡ n.value_note (o.Port i) (query_port_of outbox.now i) }
{
    if reply::query_port(outbox, i).is_ok() {
        Note::Port(i)
    } else {
        Note::Nothing
    }
}

// Nothing of a command that was not good.
fn cap_note(end: End, outbox: &[u8], size: Option<u64>) -> Note
    ensures { result ≡ n.cap_note size end outbox.now }
{
    let x = giving::cmd_in(end);
    let result = x.result;
    if giving::is_done(result) {
        return cap_value(outbox, size);
    }
    Note::Nothing
}

fn port_note(end: End, outbox: &[u8], i: u8) -> Note
    ensures { result ≡ n.port_note i end outbox.now }
{
    let x = giving::cmd_in(end);
    let result = x.result;
    if giving::is_done(result) {
        return port_value(outbox, i);
    }
    Note::Nothing
}

fn boot_note(stage: Boot, end: End, outbox: &[u8], size: Option<u64>) -> Note
    ensures { result ≡ n.boot_note size stage end outbox.now }
{
    match stage {
        Boot::QueryFw => Note::Nothing,
        Boot::Make(_) => Note::Nothing,
        Boot::Map(_, _) => Note::Nothing,
        Boot::RunFw => Note::Nothing,
        Boot::ModStat => Note::Nothing,
        Boot::DevCap => cap_note(end, outbox, size),
        Boot::Port(i) => port_note(end, outbox, i),
        Boot::IcmSize => Note::Nothing,
        Boot::InitHca => Note::Nothing,
        Boot::Func => Note::Nothing,
        Boot::Adapter => Note::Nothing,
    }
}

// What the reply in the outbox leaves behind the head, by what the task that has ended was for.
pub fn note_of(stage: Stage, end: End, outbox: &[u8], size: Option<u64>) -> Note
    ensures { result ≡ n.note_at size stage end outbox.now }
{
    match stage {
        Stage::Fresh => Note::Nothing,
        Stage::Open(_) => Note::Nothing,
        Stage::Ended => Note::Nothing,
        Stage::Prepare(_) => Note::Nothing,
        Stage::Boot(b) => boot_note(b, end, outbox, size),
        Stage::Client(_) => Note::Nothing,
        Stage::Close(_) => Note::Nothing,
    }
}

// The session is open.
fn opened(s: Core, top: Top) -> Plan
    ensures { PlanIs result (λ b. p.opened_plan (full s b) top) }
{
    let t = Core {
        failure: Failure::Nothing,
        closing: Closing::Clean,
        ..s
    };
    Plan::new(giving::rests(t, Gave::Nothing), top.count)
}

// QUERY_FUNC on a card with system EQs, then QUERY_ADAPTER.
fn query_func(s: Core, top: Top, m: &[u8]) -> Plan
    ensures { plan_in result (behind_in m.now) ≡ p.func_plan (full s (behind_in m.now)) top }
{
    let cap = behind::cap_at(m);
    if cap.num_sys_eqs == 0 {
        return opening_values::ask(s, Boot::Adapter, Op::QUERY_ADAPTER, 0, top, m);
    }
    opening_values::ask(s, Boot::Func, Op::QUERY_FUNC, 0, top, m)
}

// The replies. The catastrophic buffer is known from QUERY_FW's on, whatever the revision.
fn fw_refused(s: Core, why: FwRefusal, top: Top, m: &[u8]) -> Plan
    ensures { plan_in result (behind_in m.now) ≡ p.fw_replied (full s (behind_in m.now)) (query_fw (Err why)) (fw_in (Err why)) top }
{
    match why {
        FwRefusal::Short => opening_values::fail(
            opening_values::with_catas(s, FwInfo::none()),
            Refusal::Short,
            top,
            m,
        ),
        FwRefusal::Revision(i) => opening_values::fail(
            opening_values::with_catas(s, i),
            Refusal::Revision(i.rev),
            top,
            m,
        ),
    }
}

fn fw_replied(s: Core, y: Result<FwInfo, FwRefusal>, top: Top, m: &[u8]) -> Plan
    ensures { plan_in result (behind_in m.now) ≡ p.fw_replied (full s (behind_in m.now)) (query_fw y) (fw_in y) top }
{
    match y {
        Ok(i) => areas::make(
            opening_values::with_revision(opening_values::with_catas(s, i), i.rev),
            Area::Fa,
            (i.pages as u64) * dma::PAGE,
            top,
            m,
        ),
        Err(why) => fw_refused(s, why, top, m),
    }
}

fn func_replied(s: Core, y: Result<FuncInfo, Short>, top: Top, m: &[u8]) -> Plan
    ensures { plan_in result (behind_in m.now) ≡ p.func_replied (full s (behind_in m.now)) (query_func y) top }
{
    match y {
        Ok(func) => opening_values::ask(
            Core { func, ..s },
            Boot::Adapter,
            Op::QUERY_ADAPTER,
            0,
            top,
            m,
        ),
        Err(Short) => opening_values::fail(s, Refusal::Short, top, m),
    }
}

// What follows each command of bring-up: the next step behind a good one, closing behind any other.
fn fw_ended(s: Core, x: CmdEnd, outbox: &[u8], top: Top, m: &[u8]) -> Plan
    ensures { plan_in result (behind_in m.now) ≡ p.fw_plan (full s (behind_in m.now)) x outbox.now top }
{
    let result = x.result;
    let uar = s.uar;
    let t = s.took(x);
    if giving::is_done(result) {
        return fw_replied(t, reply::query_fw(outbox, uar.index), top, m);
    }
    opening_values::fail(
        t.broken_by(result),
        opening_values::fw_failure_of(result),
        top,
        m,
    )
}

fn run_ended(s: Core, x: CmdEnd, top: Top, m: &[u8]) -> Plan
    ensures { plan_in result (behind_in m.now) ≡ p.run_ended (full s (behind_in m.now)) x top }
{
    let result = x.result;
    let t = s.took(x);
    if giving::is_done(result) {
        return opening_values::give(t, Boot::ModStat, Op::MOD_STAT_CFG, Fill::ModStat, top, m);
    }
    opening_values::fail_by(t, result, top, m)
}

// A status is passed over.
fn stat_ended(s: Core, x: CmdEnd, top: Top, m: &[u8]) -> Plan
    ensures { plan_in result (behind_in m.now) ≡ p.stat_plan (full s (behind_in m.now)) x top }
{
    let result = x.result;
    let t = s.took(x);
    if session::needs_reset(result) {
        return opening_values::fail_by(t, result, top, m);
    }
    opening_values::ask(t, Boot::DevCap, Op::QUERY_DEV_CAP, 0, top, m)
}

fn cap_ended(s: Core, x: CmdEnd, outbox: &[u8], top: Top, m: &[u8]) -> Plan
    ensures { n.Found result (n.cap_note s.uar.size (Cmd x) outbox.now) s outbox.now
        (λ d. p.cap_ended d x outbox.now top) (behind_in m.now) }
{
    let result = x.result;
    let uar = s.uar;
    let size = uar.size;
    let t = s.took(x);
    if giving::is_done(result) {
        return ports::cap_replied(t, reply::dev_cap(outbox, size), top, m);
    }
    opening_values::fail_by(t, result, top, m)
}

fn port_ended(s: Core, i: u8, x: CmdEnd, outbox: &[u8], top: Top, m: &[u8]) -> Plan
    ensures { n.Found result (n.port_note i (Cmd x) outbox.now) s outbox.now
        (λ d. p.port_ended d i x outbox.now top) (behind_in m.now) }
{
    let result = x.result;
    let t = s.took(x);
    if giving::is_done(result) {
        return ports::port_replied(t, i, reply::query_port(outbox, i), top, m);
    }
    opening_values::fail_by(t, result, top, m)
}

// The auxiliary area has as many pages as the immediate says; 2^52 or more are 18.
fn aux(s: Core, pages: u64, top: Top, m: &[u8]) -> Plan
    ensures { plan_in result (behind_in m.now) ≡ p.make_plan (full s (behind_in m.now)) Aux (pages * 4096) top }
{
    if pages < 0x10_0000_0000_0000 {
        return areas::make(s, Area::Aux, pages * dma::PAGE, top, m);
    }
    opening_values::fail(s, Refusal::Address, top, m)
}

fn size_ended(s: Core, x: CmdEnd, top: Top, m: &[u8]) -> Plan
    ensures { plan_in result (behind_in m.now) ≡ p.size_ended (full s (behind_in m.now)) x top }
{
    let result = x.result;
    let t = s.took(x);
    if giving::is_done(result) {
        return aux(t, session::immediate(result), top, m);
    }
    opening_values::fail_by(t, result, top, m)
}

fn init_ended(s: Core, x: CmdEnd, top: Top, m: &[u8]) -> Plan
    ensures { plan_in result (behind_in m.now) ≡ p.init_ended (full s (behind_in m.now)) x top }
{
    let result = x.result;
    let t = s.took(x);
    if giving::is_done(result) {
        return query_func(opening_values::now_started(t), top, m);
    }
    opening_values::fail_by(t, result, top, m)
}

fn func_ended(s: Core, x: CmdEnd, outbox: &[u8], top: Top, m: &[u8]) -> Plan
    ensures { plan_in result (behind_in m.now) ≡ p.func_ended (full s (behind_in m.now)) x outbox.now top }
{
    let result = x.result;
    let t = s.took(x);
    if giving::is_done(result) {
        return func_replied(t, reply::query_func(outbox), top, m);
    }
    opening_values::fail_by(t, result, top, m)
}

// What follows when a task of bring-up has ended; a reply is read from the outbox as it is lent now, and what it leaves behind the head is noted there.
pub fn booted(s: Core, stage: Boot, end: End, outbox: &[u8], top: Top, m: &[u8]) -> Plan
    ensures { n.Found result (n.boot_note s.uar.size stage end outbox.now) s outbox.now
        (λ d. p.boot_plan d stage end outbox.now top) (behind_in m.now) }
{
    match stage {
        Boot::QueryFw => fw_ended(s, giving::cmd_in(end), outbox, top, m),
        Boot::Make(a) => areas::made(s, a, session::made_in(end), top, m),
        Boot::Map(a, rest) => areas::map_ended(s, a, rest, giving::cmd_in(end), top, m),
        Boot::RunFw => run_ended(s, giving::cmd_in(end), top, m),
        Boot::ModStat => stat_ended(s, giving::cmd_in(end), top, m),
        Boot::DevCap => cap_ended(s, giving::cmd_in(end), outbox, top, m),
        Boot::Port(i) => port_ended(s, i, giving::cmd_in(end), outbox, top, m),
        Boot::IcmSize => size_ended(s, giving::cmd_in(end), top, m),
        Boot::InitHca => init_ended(s, giving::cmd_in(end), top, m),
        Boot::Func => func_ended(s, giving::cmd_in(end), outbox, top, m),
        Boot::Adapter => opened(s.took(giving::cmd_in(end)), top),
    }
}
