// One command, from the first status read to the immediate, as a machine of questions and answers.
#![tactic(auto)]

ghost use Rattle.std.specs.Prelude.{◌≡◌, ◌+◌, ◌*◌, ◌<◌, ◌≤◌};
ghost use Rattle.hcr.specs.Words.{status_in, waited_of};
ghost use Rattle.pci.specs.Views.{dword_of, done_of, told_of};
ghost use Rattle.pci.specs.declared.Question.TheVariants.{RegRead};
ghost use Rattle.command.specs.Machine.{first, posted, stalled_by, end_of, go_on, word_no, write_at, catas_bar_value, catas_offset_value, cmd_asks, cmd_step_of};
ghost use Rattle.command.specs.Machine.{on_dword, on_done, on_told, on_either, timeout_of, polled_of, status_of, first_of, written_of, done_with, bump};
ghost use Rattle.command.specs.declared.CmdStep.TheVariants.{More};
ghost use Rattle.command.specs.declared.CmdResult.TheVariants.{Timeout};
ghost use Rattle.command.specs.declared.Phase.TheVariants.{Low};

use hcr::{Hcr, Post};
use pci::{Answer, NoReply, Question};

// Where the catastrophic error buffer is; unknown also where nothing is to be read after a Timeout.
#[derive(Clone, Copy)]
pub enum Catas {
    Known(u8, u64),
    Unknown,
}

// What a command comes to, with the microseconds waited.
#[derive(Clone, Copy)]
pub enum CmdResult {
    // The immediate.
    Done(u64, u64),
    Status(u8, u64),
    Timeout(u64),
    // Nothing was posted.
    Busy,
    // A bus call failed.
    Bus(u64),
}

// The result, and the toggle for the next command.
#[derive(Clone, Copy)]
pub struct CmdEnd {
    pub result: CmdResult,
    pub toggle: bool,
}

// The question that is open.
#[derive(Clone, Copy)]
pub enum Phase {
    // The status, before posting.
    First,
    // Word i of the six before the last.
    Writing(u8),
    Fence,
    // The last word: it posts the command.
    Go,
    // The status, while waiting.
    Poll,
    Wait,
    Fenced,
    // The status, once the command has ended.
    Status,
    // The halves of the immediate.
    High,
    Low(u32),
    // The catastrophic buffer, after a Timeout.
    Catas,
}

#[derive(Clone, Copy)]
pub struct Cmd {
    pub phase: Phase,
    pub post: Post,
    pub toggle: bool,
    pub stalls: u32,
    pub catas: Catas,
}

#[derive(Clone, Copy)]
pub enum CmdStep {
    More(Cmd),
    Ended(CmdEnd),
}

// The word that is written in phase `Writing(i)`.
fn word_no(i: u8) -> usize
    ensures { (result ≡ word_no i) × (result ≤ 5) }
{
    let k = i as usize;
    if k < 5 {
        return k;
    }
    5
}

// The question for write number k of a command.
fn write_no(toggle: bool, post: Post, k: usize) -> Question
    requires { k < 7 }
    ensures { result ≡ write_at toggle post k }
{
    let writes = hcr::writes(toggle, post);
    let write = writes[k];
    Question::RegWrite(Hcr::BAR, write.offset, write.value)
}

fn catas_read(catas: Catas) -> Question
    ensures { result ≡ RegRead (catas_bar_value catas) (catas_offset_value catas) }
{
    match catas {
        Catas::Known(bar, offset) => Question::RegRead(bar, offset),
        Catas::Unknown => Question::RegRead(0, 0),
    }
}

impl Cmd {
    pub const STATUS: u64 = 0x80698;

    pub const HIGH: u64 = 0x8068c;

    pub const LOW: u64 = 0x80690;

    pub const STALLS: u32 = 600_990;

    pub fn new(post: Post, toggle: bool, catas: Catas) -> Self
        ensures { result ≡ first post toggle catas }
    {
        Self {
            phase: Phase::First,
            post,
            toggle,
            stalls: 0,
            catas,
        }
    }

    // The question that is open.
    pub fn asks(self) -> Question
        ensures { result ≡ cmd_asks self }
    {
        let phase = self.phase;
        let post = self.post;
        let catas = self.catas;
        match phase {
            Phase::First => Question::RegRead(Hcr::BAR, Self::STATUS),
            Phase::Writing(i) => write_no(self.toggle, post, word_no(i)),
            Phase::Fence => Question::Fence,
            Phase::Go => write_no(self.toggle, post, 6),
            Phase::Poll => Question::RegRead(Hcr::BAR, Self::STATUS),
            Phase::Wait => Question::Stall(hcr::stall(self.stalls)),
            Phase::Fenced => Question::Fence,
            Phase::Status => Question::RegRead(Hcr::BAR, Self::STATUS),
            Phase::High => Question::RegRead(Hcr::BAR, Self::HIGH),
            Phase::Low(_) => Question::RegRead(Hcr::BAR, Self::LOW),
            Phase::Catas => catas_read(catas),
        }
    }

    fn go_on(self, phase: Phase) -> CmdStep
        ensures { result ≡ go_on self phase }
    {
        CmdStep::More(Cmd { phase, ..self })
    }

    fn end(self, res: CmdResult) -> CmdStep
        ensures { result ≡ end_of self res }
    {
        CmdStep::Ended(CmdEnd {
            result: res,
            toggle: self.toggle,
        })
    }

    // The status before posting: pending is Busy.
    fn first(self, a: Answer) -> CmdStep
        ensures { result ≡ on_dword self 0 (first_of self) (dword_of a) }
    {
        match pci::as_dword(a) {
            Ok(v) => {
                if hcr::pending(hcr::swap(v), self.toggle) {
                    return self.end(CmdResult::Busy);
                }
                self.go_on(Phase::Writing(0))
            }
            Err(NoReply::Failed) => self.end(CmdResult::Bus(0)),
            Err(NoReply::Wrong) => CmdStep::More(self),
        }
    }

    // A word was written: the next, or the fence before the last.
    fn written(self, i: u8, a: Answer) -> CmdStep
        ensures { result ≡ on_done self (written_of self i) (done_of a) }
    {
        match pci::as_done(a) {
            Ok(()) => {
                if i < 5 {
                    return self.go_on(Phase::Writing(i + 1));
                }
                self.go_on(Phase::Fence)
            }
            Err(NoReply::Failed) => self.end(CmdResult::Bus(0)),
            Err(NoReply::Wrong) => CmdStep::More(self),
        }
    }

    // A fence was made.
    fn told(self, phase: Phase, a: Answer) -> CmdStep
        ensures { result ≡ on_told self (go_on self phase) (told_of a) }
    {
        if pci::as_told(a) {
            return self.go_on(phase);
        }
        CmdStep::More(self)
    }

    // The last word was written: the command is posted, and the toggle flips.
    fn went(self, a: Answer) -> CmdStep
        ensures { result ≡ on_done self (More (posted self)) (done_of a) }
    {
        match pci::as_done(a) {
            Ok(()) => CmdStep::More(Cmd {
                phase: Phase::Poll,
                toggle: !self.toggle,
                stalls: 0,
                ..self
            }),
            Err(NoReply::Failed) => self.end(CmdResult::Bus(0)),
            Err(NoReply::Wrong) => CmdStep::More(self),
        }
    }

    fn timed_out(self) -> CmdStep
        ensures { result ≡ timeout_of self self.catas }
    {
        let catas = self.catas;
        match catas {
            Catas::Known(_, _) => self.go_on(Phase::Catas),
            Catas::Unknown => self.end(CmdResult::Timeout(hcr::waited(self.stalls))),
        }
    }

    // The status while waiting.
    fn seen(self, status: u32) -> CmdStep
        ensures { result ≡ polled_of self status }
    {
        if hcr::pending(status, self.toggle) {
            if Hcr::TIMEOUT_US <= hcr::waited(self.stalls) {
                return self.timed_out();
            }
            return self.go_on(Phase::Wait);
        }
        self.go_on(Phase::Fenced)
    }

    fn polled(self, a: Answer) -> CmdStep
        ensures { result ≡ on_dword self (waited_of self.stalls) (polled_of self) (dword_of a) }
    {
        match pci::as_dword(a) {
            Ok(v) => self.seen(hcr::swap(v)),
            Err(NoReply::Failed) => self.end(CmdResult::Bus(hcr::waited(self.stalls))),
            Err(NoReply::Wrong) => CmdStep::More(self),
        }
    }

    // A stall was made.
    fn waited(self, a: Answer) -> CmdStep
        ensures { result ≡ on_told self (More (stalled_by self (bump self.stalls))) (told_of a) }
    {
        if pci::as_told(a) {
            return CmdStep::More(Cmd {
                phase: Phase::Poll,
                stalls: one_more(self.stalls),
                ..self
            });
        }
        CmdStep::More(self)
    }

    // The status of a command that has ended.
    fn judged(self, a: Answer) -> CmdStep
        ensures { result ≡ on_dword self (waited_of self.stalls) (λ v. status_of self (status_in v)) (dword_of a) }
    {
        match pci::as_dword(a) {
            Ok(v) => {
                let status = hcr::status(hcr::swap(v));
                if status == 0 {
                    return self.go_on(Phase::High);
                }
                self.end(CmdResult::Status(status, hcr::waited(self.stalls)))
            }
            Err(NoReply::Failed) => self.end(CmdResult::Bus(hcr::waited(self.stalls))),
            Err(NoReply::Wrong) => CmdStep::More(self),
        }
    }

    // The high half of the immediate.
    fn high(self, a: Answer) -> CmdStep
        ensures { result ≡ on_dword self (waited_of self.stalls) (λ v. go_on self (Low v)) (dword_of a) }
    {
        match pci::as_dword(a) {
            Ok(v) => self.go_on(Phase::Low(hcr::swap(v))),
            Err(NoReply::Failed) => self.end(CmdResult::Bus(hcr::waited(self.stalls))),
            Err(NoReply::Wrong) => CmdStep::More(self),
        }
    }

    // The low half: the command is done.
    fn low(self, high: u32, a: Answer) -> CmdStep
        ensures { result ≡ on_dword self (waited_of self.stalls) (done_with self high) (dword_of a) }
    {
        match pci::as_dword(a) {
            Ok(v) => self.end(CmdResult::Done(join(high, hcr::swap(v)), hcr::waited(self.stalls))),
            Err(NoReply::Failed) => self.end(CmdResult::Bus(hcr::waited(self.stalls))),
            Err(NoReply::Wrong) => CmdStep::More(self),
        }
    }

    // The catastrophic buffer was read, or not: the command has timed out.
    fn looked(self, a: Answer) -> CmdStep
        ensures { result ≡ on_either self (end_of self (Timeout (waited_of self.stalls))) (dword_of a) }
    {
        match pci::as_dword(a) {
            Ok(_) | Err(NoReply::Failed) => self.end(CmdResult::Timeout(hcr::waited(self.stalls))),
            Err(NoReply::Wrong) => CmdStep::More(self),
        }
    }

    // Takes the answer to the open question. One of the wrong kind leaves the command as it is.
    pub fn step(self, a: Answer) -> CmdStep
        ensures { result ≡ cmd_step_of self a }
    {
        let phase = self.phase;
        match phase {
            Phase::First => self.first(a),
            Phase::Writing(i) => self.written(i, a),
            Phase::Fence => self.told(Phase::Go, a),
            Phase::Go => self.went(a),
            Phase::Poll => self.polled(a),
            Phase::Wait => self.waited(a),
            Phase::Fenced => self.told(Phase::Status, a),
            Phase::Status => self.judged(a),
            Phase::High => self.high(a),
            Phase::Low(high) => self.low(high, a),
            Phase::Catas => self.looked(a),
        }
    }
}

fn one_more(n: u32) -> u32
    ensures { result ≡ bump n }
{
    if n < Cmd::STALLS {
        return n + 1;
    }
    n
}

fn join(high: u32, low: u32) -> u64
    ensures { result ≡ high * 4294967296 + low }
{
    (high as u64) * 0x1_0000_0000 + (low as u64)
}
