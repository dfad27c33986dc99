// What a session has under way: one of its tasks, behind one question and one step.
#![tactic(auto)]

ghost use Rattle.std.specs.Prelude.{◌≡◌};
ghost use Rattle.work.specs.Work.{resting, on_task, end_task, look_step, work_asks, work_step_of};
ghost use Rattle.work.specs.Work.{attr_work, claim_work, make_work, free_work, cmd_work, part_work, reset_work, bar_work};

use bars::Pick;
use buffer::{FreeStep, Freeing, Made, MakeStep, Making};
use command::{Cmd, CmdEnd, CmdStep};
use hcr::Hcr;
use pci::{Answer, NoReply, Question};
use reset::{Reset, ResetEnd};
use tasks::{Attr, AttrStep, Attributes, Claim, ClaimStep, Claimed, Parting, PartingStep};
use uar::{FindBar, NotFound};

// The task that is under way. A reset and a search for the UAR BAR hold arrays and stand beside it. `Look` reads the status dword before the first command.
#[derive(Clone, Copy)]
pub enum Task {
    Rest,
    Attr(Attr),
    Claim(Claim),
    Reset,
    Bar,
    Make(Making),
    Free(Freeing),
    Look,
    Cmd(Cmd),
    Part(Parting),
}

#[derive(Clone, Copy)]
pub struct Work {
    pub task: Task,
    pub reset: Reset,
    pub find: FindBar,
}

// How a task has ended.
#[derive(Clone, Copy)]
pub enum End {
    Attr(Attributes),
    Claim(Claimed),
    Reset(ResetEnd),
    Bar(Result<Pick, NotFound>),
    Made(Made),
    Freed,
    // The toggle of the first command.
    Looked(bool),
    Cmd(CmdEnd),
    Parted,
}

// Where a step leads.
#[derive(Clone, Copy)]
pub enum Ending {
    Going,
    Ended(End),
}

#[derive(Clone, Copy)]
pub struct WorkStep {
    pub work: Work,
    pub ending: Ending,
}

impl Work {
    // Nothing is under way.
    pub fn rest() -> Work
        ensures { result ≡ resting }
    {
        Work {
            task: Task::Rest,
            reset: Reset::start(),
            find: FindBar::start(),
        }
    }

    // The open question; none where nothing is under way.
    pub fn asks(self) -> Question
        ensures { result ≡ work_asks self }
    {
        let task = self.task;
        let reset = self.reset;
        let find = self.find;
        match task {
            Task::Rest => Question::Finished,
            Task::Attr(k) => k.asks(),
            Task::Claim(k) => k.asks(),
            Task::Reset => reset.asks(),
            Task::Bar => find.asks(),
            Task::Make(k) => k.asks(),
            Task::Free(k) => k.asks(),
            Task::Look => Question::RegRead(Hcr::BAR, Cmd::STATUS),
            Task::Cmd(k) => k.asks(),
            Task::Part(k) => k.asks(),
        }
    }

    fn on(self, task: Task) -> WorkStep
        ensures { result ≡ on_task self task }
    {
        WorkStep {
            work: Work { task, ..self },
            ending: Ending::Going,
        }
    }

    fn end(self, end: End) -> WorkStep
        ensures { result ≡ end_task self end }
    {
        WorkStep {
            work: Work {
                task: Task::Rest,
                ..self
            },
            ending: Ending::Ended(end),
        }
    }

    fn attr(self, st: AttrStep) -> WorkStep
        ensures { result ≡ attr_work self st }
    {
        match st {
            AttrStep::More(k) => self.on(Task::Attr(k)),
            AttrStep::Ended(x) => self.end(End::Attr(x)),
        }
    }

    fn claim(self, st: ClaimStep) -> WorkStep
        ensures { result ≡ claim_work self st }
    {
        match st {
            ClaimStep::More(k) => self.on(Task::Claim(k)),
            ClaimStep::Ended(x) => self.end(End::Claim(x)),
        }
    }

    fn make(self, st: MakeStep) -> WorkStep
        ensures { result ≡ make_work self st }
    {
        match st {
            MakeStep::More(k) => self.on(Task::Make(k)),
            MakeStep::Ended(x) => self.end(End::Made(x)),
        }
    }

    fn free(self, st: FreeStep) -> WorkStep
        ensures { result ≡ free_work self st }
    {
        match st {
            FreeStep::More(k) => self.on(Task::Free(k)),
            FreeStep::Freed => self.end(End::Freed),
        }
    }

    fn cmd(self, st: CmdStep) -> WorkStep
        ensures { result ≡ cmd_work self st }
    {
        match st {
            CmdStep::More(k) => self.on(Task::Cmd(k)),
            CmdStep::Ended(x) => self.end(End::Cmd(x)),
        }
    }

    fn part(self, st: PartingStep) -> WorkStep
        ensures { result ≡ part_work self st }
    {
        match st {
            PartingStep::More(k) => self.on(Task::Part(k)),
            PartingStep::Ended => self.end(End::Parted),
        }
    }

    // The toggle from the status dword, or 1 where that cannot be read.
    fn look(self, r: Result<u32, NoReply>) -> WorkStep
        ensures { result ≡ look_step self r }
    {
        match r {
            Ok(v) => self.end(End::Looked(hcr::first_toggle(hcr::swap(v)))),
            Err(NoReply::Failed) => self.end(End::Looked(true)),
            Err(NoReply::Wrong) => self.on(Task::Look),
        }
    }

    fn reset_on(self, a: Answer) -> WorkStep
        ensures { result ≡ reset_work self a }
    {
        let machine = self.reset;
        let st = machine.step(a);
        let reset = st.reset;
        let ending = st.ending;
        match ending {
            reset::Ending::Going => WorkStep {
                work: Work {
                    task: Task::Reset,
                    reset,
                    ..self
                },
                ending: Ending::Going,
            },
            reset::Ending::Ended(x) => WorkStep {
                work: Work {
                    task: Task::Rest,
                    reset,
                    ..self
                },
                ending: Ending::Ended(End::Reset(x)),
            },
        }
    }

    fn bar_on(self, a: Answer, bytes: &[u8]) -> WorkStep
        ensures { result ≡ bar_work self a bytes.now }
    {
        let machine = self.find;
        let st = machine.step(a, bytes);
        let find = st.find;
        let ending = st.ending;
        match ending {
            None => WorkStep {
                work: Work {
                    task: Task::Bar,
                    find,
                    ..self
                },
                ending: Ending::Going,
            },
            Some(x) => WorkStep {
                work: Work {
                    task: Task::Rest,
                    find,
                    ..self
                },
                ending: Ending::Ended(End::Bar(x)),
            },
        }
    }

    // The task takes the answer to its open question, with a resource list's bytes lent beside it; an answer of another kind leaves it as it is.
    pub fn step(self, a: Answer, bytes: &[u8]) -> WorkStep
        ensures { result ≡ work_step_of self a bytes.now }
    {
        let task = self.task;
        match task {
            Task::Rest => self.on(Task::Rest),
            Task::Attr(k) => self.attr(k.step(a)),
            Task::Claim(k) => self.claim(k.step(a)),
            Task::Reset => self.reset_on(a),
            Task::Bar => self.bar_on(a, bytes),
            Task::Make(k) => self.make(k.step(a)),
            Task::Free(k) => self.free(k.step(a)),
            Task::Look => self.look(pci::as_dword(a)),
            Task::Cmd(k) => self.cmd(k.step(a)),
            Task::Part(k) => self.part(k.step(a)),
        }
    }
}
