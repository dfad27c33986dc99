// The machines side by side: the one that a record names is the one that runs.
use buffer::{FreeStep, Freeing, Made, MakeStep, Making};
use command::{Cmd, CmdEnd, CmdResult, CmdStep};
use pci::{Answer, Question};
use reset::{Ending, Reset, ResetEnd};
use std::fmt;
use tasks::{Attr, AttrStep, Attributes, Claim, ClaimStep, Claimed, Parting, PartingStep};
use uar::{FindBar, NotFound};

// How a machine ended: document 01's number, or 0, and values.
#[derive(Clone, Copy)]
pub(crate) struct End {
    pub number: u32,
    pub a: u64,
    pub b: u64,
    pub c: u64,
    pub d: u64,
}

impl fmt::Display for End {
    fn fmt<W: fmt::Write>(&self, f: &mut fmt::Formatter<W>) -> fmt::Result {
        let End { number, a, b, c, d } = *self;
        write!(f, "ended {number:x} {a:x} {b:x} {c:x} {d:x}")
    }
}

// The task that runs. A reset and the search for a BAR hold arrays, and stand beside it.
#[derive(Clone, Copy)]
pub(crate) enum Task {
    Command(Cmd),
    Reset,
    Making(Making),
    Freeing(Freeing),
    Attr(Attr),
    Claim(Claim),
    Parting(Parting),
    Find,
    Over(End),
}

#[derive(Clone, Copy)]
pub(crate) struct Machine {
    pub task: Task,
    // Whether the immediate of a command is told.
    pub told: bool,
    pub reset: Reset,
    pub find: FindBar,
}

pub(crate) fn end_with(number: u32, a: u64, b: u64, c: u64, d: u64) -> End {
    End { number, a, b, c, d }
}

pub(crate) fn asks(m: Machine) -> Question {
    let task = m.task;
    match task {
        Task::Command(t) => t.asks(),
        Task::Reset => m.reset.asks(),
        Task::Making(t) => t.asks(),
        Task::Freeing(t) => t.asks(),
        Task::Attr(t) => t.asks(),
        Task::Claim(t) => t.asks(),
        Task::Parting(t) => t.asks(),
        Task::Find => m.find.asks(),
        Task::Over(_) => Question::Finished,
    }
}

pub(crate) fn step(m: Machine, a: Answer, list: &[u8]) -> Machine {
    let task = m.task;
    match task {
        Task::Reset => reset_on(m, a),
        Task::Find => found(m, a, list),
        _ => on(m, stepped(task, m.told, a)),
    }
}

fn on(m: Machine, task: Task) -> Machine {
    Machine { task, ..m }
}

// A task that stands alone.
fn stepped(task: Task, told: bool, a: Answer) -> Task {
    match task {
        Task::Command(t) => commanded(told, t.step(a)),
        Task::Reset => task,
        Task::Making(t) => made(t.step(a)),
        Task::Freeing(t) => freed(t.step(a)),
        Task::Attr(t) => enabled(t.step(a)),
        Task::Claim(t) => claimed(t.step(a)),
        Task::Parting(t) => parted(t.step(a)),
        Task::Find => task,
        Task::Over(_) => task,
    }
}

// The number, then value, microseconds and toggle.
fn command_end(told: bool, e: CmdEnd) -> End {
    let result = e.result;
    let toggle = u64::from(e.toggle);
    match result {
        CmdResult::Done(v, us) => { end_with(0, if told { v } else { 0 }, us, toggle, 0) }
        CmdResult::Status(s, us) => end_with(6, s as u64, us, toggle, 0),
        CmdResult::Timeout(us) => end_with(7, 0, us, toggle, 0),
        CmdResult::Busy => end_with(8, 0, 0, toggle, 0),
        CmdResult::Bus(us) => end_with(9, 0, us, toggle, 0),
    }
}

fn commanded(told: bool, s: CmdStep) -> Task {
    match s {
        CmdStep::More(t) => Task::Command(t),
        CmdStep::Ended(e) => Task::Over(command_end(told, e)),
    }
}

// 3, the part that failed, and the semaphore's value.
fn reset_end(e: ResetEnd) -> End {
    match e {
        ResetEnd::Good => end_with(0, 0, 0, 0, 0),
        ResetEnd::Save => end_with(3, 1, 0, 0, 0),
        ResetEnd::Semaphore(v) => end_with(3, 2, v as u64, 0, 0),
        ResetEnd::Write => end_with(3, 3, 0, 0, 0),
        ResetEnd::Vendor => end_with(3, 4, 0, 0, 0),
    }
}

fn reset_on(m: Machine, a: Answer) -> Machine {
    let s = m.reset.step(a);
    let reset = s.reset;
    let ending = s.ending;
    match ending {
        Ending::Going => Machine { reset, ..m },
        Ending::Ended(e) => on(m, Task::Over(reset_end(e))),
    }
}

// Handle, device address and pages.
fn made_end(made: Made) -> End {
    match made {
        Made::Ready(b) => end_with(0, b.handle, b.dev, b.pages, 0),
        Made::Refused(f) => end_with(f.refusal().number(), 0, 0, 0, 0),
    }
}

pub(crate) fn made(s: MakeStep) -> Task {
    match s {
        MakeStep::More(t) => Task::Making(t),
        MakeStep::Ended(e) => Task::Over(made_end(e)),
    }
}

fn freed(s: FreeStep) -> Task {
    match s {
        FreeStep::More(t) => Task::Freeing(t),
        FreeStep::Freed => Task::Over(end_with(0, 0, 0, 0, 0)),
    }
}

// The attributes that were there before.
fn attr_end(e: Attributes) -> End {
    match e {
        Attributes::Enabled(before) => end_with(0, before, 0, 0, 0),
        Attributes::Refused => end_with(1, 0, 0, 0, 0),
    }
}

fn enabled(s: AttrStep) -> Task {
    match s {
        AttrStep::More(t) => Task::Attr(t),
        AttrStep::Ended(e) => Task::Over(attr_end(e)),
    }
}

fn claim_end(e: Claimed) -> End {
    match e {
        Claimed::Good => end_with(0, 0, 0, 0, 0),
        Claimed::Refused => end_with(2, 0, 0, 0, 0),
    }
}

fn claimed(s: ClaimStep) -> Task {
    match s {
        ClaimStep::More(t) => Task::Claim(t),
        ClaimStep::Ended(e) => Task::Over(claim_end(e)),
    }
}

fn parted(s: PartingStep) -> Task {
    match s {
        PartingStep::More(t) => Task::Parting(t),
        PartingStep::Ended => Task::Over(end_with(0, 0, 0, 0, 0)),
    }
}

// The index, whether its size is known, the size, and how it was chosen.
fn picked(p: bars::Pick) -> End {
    let size = p.size;
    let how = p.how;
    end_with(
        0,
        p.index as u64,
        answers::bar::size_known(size),
        answers::bar::size_in(size),
        answers::bar::how_number(how),
    )
}

fn bar_end(e: Result<bars::Pick, NotFound>) -> End {
    match e {
        Ok(p) => picked(p),
        Err(NotFound::Refused) => end_with(4, 0, 0, 0, 0),
        Err(NotFound::BadList) => end_with(27, 0, 0, 0, 0),
    }
}

fn found(m: Machine, a: Answer, list: &[u8]) -> Machine {
    let s = m.find.step(a, list);
    match s.ending {
        None => Machine { find: s.find, ..m },
        Some(e) => on(m, Task::Over(bar_end(e))),
    }
}
