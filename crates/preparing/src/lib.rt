// Before bring-up: what follows when a task has ended, from the attributes to the first look at the command register. Each function begins the next task, or passes on to
// the step behind it.
#![tactic(auto)]

ghost use Rattle.std.specs.Prelude.{◌≡◌};
ghost use Rattle.session.specs.declared.Failure.TheVariants.{By};
ghost use Rattle.session.specs.declared.Closing.TheVariants.{Clean};
ghost use Rattle.session.specs.declared.Fill.TheVariants.{Nothing};
ghost use Rattle.session.specs.Session.{planned};
ghost use Rattle.session.specs.Core.{full, plan_in, PlanIs, ends_as};
ghost use Rattle.behind.specs.Behind.{behind_in};
ghost use Rattle.opening_plan.specs.Plan as p;

use bars::Pick;
use buffer::{Fault, Made, MakePhase, Making};
use hcr::Op;
use pci::Refusal;
use reset::ResetEnd;
use session::{Boot, Closing, Core, Failure, Plan, Prepare, Stage, Top};
use tasks::{Attr, Attributes, Claim, Claimed};
use uar::NotFound;
use work::{End, Task};

// Nothing is to be torn down: the session says why, and the result of closing is clean.
fn gives_up(s: Core, why: Refusal) -> Core
    ensures { result ≡ ends_as s (By why) Clean }
{
    Core {
        failure: Failure::By(why),
        closing: Closing::Clean,
        ..s
    }
}

// The card is given up.
fn part(s: Core, why: Refusal, top: Top) -> Plan
    ensures { PlanIs result (λ b. p.part_plan (full s b) why (full s b).books top) }
{
    giving::release(gives_up(s, why), top.count)
}

// A mailbox's buffer.
fn box_plan(s: Core, stage: Prepare, top: Top) -> Plan
    ensures { PlanIs result (λ b. p.box_plan (full s b) stage top) }
{
    Plan::new(
        s.start(
            Stage::Prepare(stage),
            Task::Make(Making {
                bytes: dma::PAGE,
                phase: MakePhase::Allocate,
            }),
        ),
        top.count,
    )
}

fn enabled(s: Core, y: Attributes, top: Top) -> Plan
    ensures { PlanIs result (λ b. p.attr_plan (full s b) y top) }
{
    match y {
        Attributes::Enabled(before) => {
            let t = opening_values::with_original(s, before);
            Plan::new(
                t.start(Stage::Prepare(Prepare::Claim), Task::Claim(Claim::Command)),
                top.count,
            )
        }
        Attributes::Refused => Plan::new(giving::ends(gives_up(s, Refusal::Attributes)), top.count),
    }
}

fn claimed(s: Core, y: Claimed, top: Top) -> Plan
    ensures { PlanIs result (λ b. p.claim_plan (full s b) y top) }
{
    match y {
        Claimed::Good => Plan::new(
            s.start(Stage::Prepare(Prepare::Reset), Task::Reset),
            top.count,
        ),
        Claimed::Refused => giving::restore(gives_up(s, Refusal::Owner), top.count),
    }
}

// The search for the UAR BAR begins.
fn find(s: Core, top: Top) -> Plan
    ensures { PlanIs result (λ b. planned (p.finds_of (full s b)) Nothing top.count) }
{
    Plan::new(s.start(Stage::Prepare(Prepare::Bar), Task::Bar), top.count)
}

fn was_reset(s: Core, y: ResetEnd, top: Top) -> Plan
    ensures { PlanIs result (λ b. p.reset_plan (full s b) y top) }
{
    if y.is_good() {
        return find(s, top);
    }
    part(s, Refusal::Reset, top)
}

fn found(s: Core, y: Result<Pick, NotFound>, top: Top) -> Plan
    ensures { PlanIs result (λ b. p.bar_plan (full s b) y top) }
{
    match y {
        Ok(uar) => box_plan(Core { uar, ..s }, Prepare::Inbox, top),
        Err(why) => match why {
            NotFound::Refused => part(s, Refusal::Bar, top),
            NotFound::BadList => part(s, Refusal::List, top),
        },
    }
}

fn got_inbox(s: Core, y: Made, top: Top) -> Plan
    ensures { PlanIs result (λ b. p.inbox_plan (full s b) y top) }
{
    match y {
        Made::Ready(_) => box_plan(s, Prepare::Outbox, top),
        Made::Refused(f) => part(s, session::fault_of(f), top),
    }
}

// The outbox was not to be had: the inbox is freed, and the card given up.
fn gives_inbox(s: Core, f: Fault, top: Top, m: &[u8]) -> Plan
    ensures { plan_in result (behind_in m.now) ≡ p.gives_inbox (full s (behind_in m.now)) f top }
{
    giving::free_from(gives_up(s, session::fault_of(f)), 0, top.count, m)
}

fn got_outbox(s: Core, y: Made, top: Top, m: &[u8]) -> Plan
    ensures { plan_in result (behind_in m.now) ≡ p.outbox_plan (full s (behind_in m.now)) y top }
{
    match y {
        Made::Ready(_) => Plan::new(
            s.start(Stage::Prepare(Prepare::Look), Task::Look),
            top.count,
        ),
        Made::Refused(f) => gives_inbox(s, f, top, m),
    }
}

// The first command.
fn looked(s: Core, toggle: bool, top: Top, m: &[u8]) -> Plan
    ensures { plan_in result (behind_in m.now) ≡ p.looked_plan (full s (behind_in m.now)) toggle top }
{
    opening_values::ask(
        opening_values::with_toggle(s, toggle),
        Boot::QueryFw,
        Op::QUERY_FW,
        0,
        top,
        m,
    )
}

// What follows when a task before bring-up has ended.
pub fn prepared(s: Core, stage: Prepare, end: End, top: Top, m: &[u8]) -> Plan
    ensures { plan_in result (behind_in m.now) ≡ p.prepare_plan (full s (behind_in m.now)) stage end top }
{
    match stage {
        Prepare::Attributes => enabled(s, opening_values::attr_in(end), top),
        Prepare::Claim => claimed(s, opening_values::claim_in(end), top),
        Prepare::Reset => was_reset(s, giving::reset_in(end), top),
        Prepare::Bar => found(s, opening_values::bar_in(end), top),
        Prepare::Inbox => got_inbox(s, session::made_in(end), top),
        Prepare::Outbox => got_outbox(s, session::made_in(end), top, m),
        Prepare::Look => looked(s, opening_values::toggle_in(end), top, m),
    }
}

// An opening begins.
pub fn open(s: Core, top: Top) -> Plan
    ensures { PlanIs result (λ b. p.open_plan (full s b) top) }
{
    Plan::new(
        s.start(Stage::Prepare(Prepare::Attributes), Task::Attr(Attr::Get)),
        top.count,
    )
}
