// What closing gives back, in its order, and how a session ends; how a task has ended is read here too. Each function begins the next task, or passes on to the step
// behind it.
#![tactic(auto)]

ghost use Rattle.std.specs.Prelude.{◌≡◌, true, ◌-◌};
ghost use Rattle.work.specs.declared.Task.TheVariants.{Rest};
ghost use Rattle.session.specs.declared.Stage.TheVariants.{Open, Ended};
ghost use Rattle.session.specs.declared.Close.TheVariants.{Free};
ghost use Rattle.session.specs.Core.{full, plan_in, PlanIs, start_of, close_as};
ghost use Rattle.behind.specs.Behind.{behind_in};
ghost use Rattle.command.specs.declared.CmdResult.TheVariants.{Bus};
ghost use Rattle.session.specs.Session.{is_held};
ghost use Rattle.closing_plan.specs.Closing.{is_done};
ghost use Rattle.closing_plan.specs.Plan.{cmd_in, reset_in, reset_plan, restore_plan, release_plan, free_plan, frees_plan, give_plan};

use buffer::Freeing;
use command::{CmdEnd, CmdResult};
use dma::Buffer;
use reset::ResetEnd;
use session::{Close, Closing, Core, Gave, Plan, Slot, Stage};
use tasks::Parting;
use work::{End, Task};

fn failed_command() -> CmdEnd
    ensures { result ≡ record { result = Bus 0; toggle = true } }
{
    CmdEnd {
        result: CmdResult::Bus(0),
        toggle: true,
    }
}

// How a command has ended; a plan's own tasks end in their own kind, and any other counts as failed.
pub fn cmd_in(end: End) -> CmdEnd
    ensures { result ≡ cmd_in end }
{
    match end {
        End::Cmd(x) => x,
        End::Attr(_) => failed_command(),
        End::Claim(_) => failed_command(),
        End::Reset(_) => failed_command(),
        End::Bar(_) => failed_command(),
        End::Made(_) => failed_command(),
        End::Freed => failed_command(),
        End::Looked(_) => failed_command(),
        End::Parted => failed_command(),
    }
}

// How a reset has ended.
pub fn reset_in(end: End) -> ResetEnd
    ensures { result ≡ reset_in end }
{
    match end {
        End::Reset(x) => x,
        End::Attr(_) => ResetEnd::Save,
        End::Claim(_) => ResetEnd::Save,
        End::Bar(_) => ResetEnd::Save,
        End::Made(_) => ResetEnd::Save,
        End::Freed => ResetEnd::Save,
        End::Looked(_) => ResetEnd::Save,
        End::Cmd(_) => ResetEnd::Save,
        End::Parted => ResetEnd::Save,
    }
}

// A command was good.
pub fn is_done(r: CmdResult) -> bool
    ensures { result ≡ is_done r }
{
    match r {
        CmdResult::Done(_, _) => true,
        CmdResult::Status(_, _) => false,
        CmdResult::Timeout(_) => false,
        CmdResult::Busy => false,
        CmdResult::Bus(_) => false,
    }
}

// There is a buffer in the slot.
pub fn is_held(x: Slot) -> bool
    ensures { result ≡ is_held x }
{
    x.runs != 0
}

// The session ends, with nothing under way.
pub fn ends(s: Core) -> Core
    ensures { result ≡ start_of s Ended Rest }
{
    s.start(Stage::Ended, Task::Rest)
}

// The session is open, with nothing under way.
pub fn rests(s: Core, gave: Gave) -> Core
    ensures { result ≡ start_of s (Open gave) Rest }
{
    s.start(Stage::Open(gave), Task::Rest)
}

pub fn closes(s: Core, closing: Closing) -> Core
    ensures { result ≡ close_as s closing }
{
    Core { closing, ..s }
}

// A reset begins.
pub fn reset(s: Core, undo: usize) -> Plan
    ensures { PlanIs result (λ b. reset_plan (full s b) undo) }
{
    Plan::new(s.start(Stage::Close(Close::Reset), Task::Reset), undo)
}

// The attributes are set to what they were.
pub fn restore(s: Core, undo: usize) -> Plan
    ensures { PlanIs result (λ b. restore_plan (full s b) undo) }
{
    Plan::new(
        s.start(
            Stage::Close(Close::Restore),
            Task::Part(Parting::Restore(s.original)),
        ),
        undo,
    )
}

// The card is given up.
pub fn release(s: Core, undo: usize) -> Plan
    ensures { PlanIs result (λ b. release_plan (full s b) undo) }
{
    Plan::new(
        s.start(Stage::Close(Close::Release), Task::Part(Parting::Disown)),
        undo,
    )
}

fn free(s: Core, i: usize, b: Buffer, undo: usize) -> Plan
    ensures { PlanIs result (λ y. free_plan (full s y) (Free i) b undo) }
{
    Plan::new(
        s.start(Stage::Close(Close::Free(i)), Task::Free(Freeing::start(b))),
        undo,
    )
}

// The next slot from i on that has a buffer is freed; behind the last the card is given up.
pub fn free_from(s: Core, i: usize, undo: usize, m: &[u8]) -> Plan
    ensures { plan_in result (behind_in m.now) ≡ frees_plan (82 - i) i (full s (behind_in m.now)) undo }
{
    for k in i..Slot::COUNT {
        let slot = behind::slot_at(m, k);
        if is_held(slot) {
            return free(s, k, session::buffer_of(slot), undo);
        }
    }
    release(s, undo)
}

// Everything goes back.
pub fn give(s: Core, closing: Closing, undo: usize, m: &[u8]) -> Plan
    ensures { plan_in result (behind_in m.now) ≡ give_plan (full s (behind_in m.now)) closing undo }
{
    free_from(closes(s, closing), 0, undo, m)
}
