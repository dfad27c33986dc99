// The task under way, in the bytes of a session: its question, and what an answer makes of it. A reset and the search for the UAR BAR are read and written in
// place, in their own words; every other task is by value.
#![tactic(auto)]

ghost use Rattle.std.specs.Prelude.{◌≡◌};
ghost use Rattle.work.specs.Work.{working, work_asks, work_step_of};
ghost use Rattle.work.specs.declared.Task.TheVariants.{Reset as resetTask, Bar as barTask};
ghost use Rattle.reset.specs.Steps.{started as noReset};
ghost use Rattle.uar.specs.Steps.{started as noFind};
ghost use Rattle.words_laws.specs.Kept.{Rewrites};
ghost use Rattle.intask.specs.InTask.{work_in, going_of, beside_in, stepped_in};

use pci::{Answer, Question};
use reset::Reset;
use uar::FindBar;
use work::{Ending, Task, Work};

// The task after an answer, and how it ended.
#[derive(Clone, Copy)]
pub struct Going {
    pub task: Task,
    pub ending: Ending,
}

fn value_asks(task: Task) -> Question
    ensures { result ≡ work_asks (working task noReset noFind) }
{
    let w = Work {
        task,
        reset: Reset::start(),
        find: FindBar::start(),
    };
    w.asks()
}

fn reset_asks(m: &[u8]) -> Question
    ensures { result ≡ work_asks (work_in resetTask m.now) }
{
    let w = Work {
        task: Task::Reset,
        reset: behind::reset_at(m),
        find: FindBar::start(),
    };
    w.asks()
}

fn find_asks(m: &[u8]) -> Question
    ensures { result ≡ work_asks (work_in barTask m.now) }
{
    let w = Work {
        task: Task::Bar,
        reset: Reset::start(),
        find: behind::find_at(m),
    };
    w.asks()
}

// The question of the task.
pub fn asks(task: Task, m: &[u8]) -> Question
    ensures { result ≡ work_asks (work_in task m.now) }
{
    match task {
        Task::Rest => value_asks(task),
        Task::Attr(_) => value_asks(task),
        Task::Claim(_) => value_asks(task),
        Task::Reset => reset_asks(m),
        Task::Bar => find_asks(m),
        Task::Make(_) => value_asks(task),
        Task::Free(_) => value_asks(task),
        Task::Look => value_asks(task),
        Task::Cmd(_) => value_asks(task),
        Task::Part(_) => value_asks(task),
    }
}

fn step_value(task: Task, a: Answer, resource: &[u8]) -> Going
    ensures { result ≡ going_of (work_step_of (working task noReset noFind) a resource.now) }
{
    let w = Work {
        task,
        reset: Reset::start(),
        find: FindBar::start(),
    };
    let st = w.step(a, resource);
    let after = st.work;
    let task = after.task;
    let ending = st.ending;
    Going { task, ending }
}

fn step_reset(m: &mut [u8], a: Answer, resource: &[u8]) -> Going
    ensures value { result ≡ going_of (work_step_of (work_in resetTask m.old) a resource.now) }
    ensures m_after { m.new ≡ beside_in resetTask (work_step_of (work_in resetTask m.old) a resource.now) m.old }
    ensures rewrites { Rewrites m.old m.new (stepped_in resetTask a resource.now m.old) }
{
    let w = Work {
        task: Task::Reset,
        reset: behind::reset_at(m),
        find: FindBar::start(),
    };
    let st = w.step(a, resource);
    let after = st.work;
    let task = after.task;
    let reset = after.reset;
    let ending = st.ending;
    behind::put_reset(m, reset);
    Going { task, ending }
}

fn step_find(m: &mut [u8], a: Answer, resource: &[u8]) -> Going
    ensures value { result ≡ going_of (work_step_of (work_in barTask m.old) a resource.now) }
    ensures m_after { m.new ≡ beside_in barTask (work_step_of (work_in barTask m.old) a resource.now) m.old }
    ensures rewrites { Rewrites m.old m.new (stepped_in barTask a resource.now m.old) }
{
    let w = Work {
        task: Task::Bar,
        reset: Reset::start(),
        find: behind::find_at(m),
    };
    let st = w.step(a, resource);
    let after = st.work;
    let task = after.task;
    let find = after.find;
    let ending = st.ending;
    behind::put_find(m, find);
    Going { task, ending }
}

// What an answer makes of the task; a reset's words and a search's are written.
pub fn step(task: Task, m: &mut [u8], a: Answer, resource: &[u8]) -> Going
    ensures value { result ≡ going_of (work_step_of (work_in task m.old) a resource.now) }
    ensures m_after { m.new ≡ beside_in task (work_step_of (work_in task m.old) a resource.now) m.old }
    ensures rewrites { Rewrites m.old m.new (stepped_in task a resource.now m.old) }
{
    match task {
        Task::Rest => step_value(task, a, resource),
        Task::Attr(_) => step_value(task, a, resource),
        Task::Claim(_) => step_value(task, a, resource),
        Task::Reset => step_reset(m, a, resource),
        Task::Bar => step_find(m, a, resource),
        Task::Make(_) => step_value(task, a, resource),
        Task::Free(_) => step_value(task, a, resource),
        Task::Look => step_value(task, a, resource),
        Task::Cmd(_) => step_value(task, a, resource),
        Task::Part(_) => step_value(task, a, resource),
    }
}
