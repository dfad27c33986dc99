// The memory that bring-up hands to the card, area after area: a buffer is made in its slot, and is mapped by one command for each mailbox of its page list.
#![tactic(auto)]

ghost use Rattle.std.specs.Prelude.{◌≡◌};
ghost use Rattle.session.specs.Core.{full, plan_in};
ghost use Rattle.behind.specs.Behind.{behind_in};
ghost use Rattle.opening_plan.specs.Plan as p;

use buffer::{Made, MakeStep, Making};
use command::CmdEnd;
use dma::Cutter;
use hcr::Op;
use pci::Refusal;
use session::{Area, Boot, Core, Fill, Plan, Stage, Top};
use work::Task;

// A buffer for an area.
pub fn make(s: Core, a: Area, bytes: u64, top: Top, m: &[u8]) -> Plan
    ensures { plan_in result (behind_in m.now) ≡ p.make_plan (full s (behind_in m.now)) a bytes top }
{
    match Making::start(bytes) {
        MakeStep::More(k) => Plan::new(
            s.start(Stage::Boot(Boot::Make(a)), Task::Make(k)),
            top.count,
        ),
        MakeStep::Ended(_) => opening_values::fail(s, Refusal::Address, top, m),
    }
}

fn make_range(s: Core, i: usize, top: Top, m: &[u8]) -> Plan
    ensures { plan_in result (behind_in m.now) ≡ p.range_plan (full s (behind_in m.now)) i top }
{
    let range = opening_values::range_at(i, m);
    make(s, Area::Range(i), range.bytes, top, m)
}

// The range after range i, or INIT_HCA.
fn next_range(s: Core, i: usize, top: Top, m: &[u8]) -> Plan
    ensures { plan_in result (behind_in m.now) ≡ p.next_range (full s (behind_in m.now)) i top }
{
    if i < 13 {
        return make_range(s, i + 1, top, m);
    }
    opening_values::give(s, Boot::InitHca, Op::INIT_HCA, Fill::InitHca, top, m)
}

// What follows an area that is mapped.
fn mapped(s: Core, a: Area, top: Top, m: &[u8]) -> Plan
    ensures { plan_in result (behind_in m.now) ≡ p.mapped_plan (full s (behind_in m.now)) a top }
{
    match a {
        Area::Fa => opening_values::imm(s, Boot::RunFw, Op::RUN_FW, 0, top),
        Area::Aux => make_range(s, 0, top, m),
        Area::Range(i) => next_range(s, i, top, m),
    }
}

// The next mailbox of an area, or what follows the area.
fn map(s: Core, a: Area, rest: Cutter, top: Top, m: &[u8]) -> Plan
    ensures { plan_in result (behind_in m.now) ≡ p.map_plan (full s (behind_in m.now)) a rest top }
{
    if rest.left == 0 {
        return mapped(s, a, top, m);
    }
    opening_values::plan(
        s.start(Stage::Boot(Boot::Map(a, rest)), Task::Rest),
        Fill::List(rest),
        top.count,
    )
}

// A buffer for an area was made, or not.
pub fn made(s: Core, a: Area, y: Made, top: Top, m: &[u8]) -> Plan
    ensures { plan_in result (behind_in m.now) ≡ p.area_plan (full s (behind_in m.now)) a y top }
{
    match y {
        Made::Ready(_) => map(
            opening_values::enters(s, a),
            a,
            opening_values::cut_in(a, m),
            top,
            m,
        ),
        Made::Refused(f) => opening_values::fail(s, session::fault_of(f), top, m),
    }
}

pub fn map_ended(s: Core, a: Area, rest: Cutter, x: CmdEnd, top: Top, m: &[u8]) -> Plan
    ensures { plan_in result (behind_in m.now) ≡ p.map_ended (full s (behind_in m.now)) a rest x top }
{
    let result = x.result;
    let t = s.took(x);
    if giving::is_done(result) {
        return map(t, a, rest, top, m);
    }
    opening_values::fail_by(t, result, top, m)
}
