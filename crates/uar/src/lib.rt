// The UAR BAR is found: the six BAR dwords are read, and the index that PCI I/O has for register 2 is chosen.
#![tactic(auto)]

ghost use Rattle.std.specs.Prelude.{◌≡◌, ◌≤◌};
ghost use Rattle.bars.specs.Resource.{resource_at};
ghost use Rattle.uar.specs.Uar.{dword_at};
ghost use Rattle.uar.specs.Steps.{started, index_of, bar_asks, read_move, led_of, list_move, choice_move};
ghost use Rattle.uar.specs.Steps.{move_at, begins, read_on, moved_of, bar_step_of};

use bars::{Asking, Choice, Pick};
use pci::{Answer, NoReply, Question};

// Why no index was picked: 4; or 27, a resource list that is damaged or cut.
#[derive(Clone, Copy)]
pub enum NotFound {
    Refused,
    BadList,
}

// The open question: a BAR dword, and how many are left after it; or an index that the choice asks about.
#[derive(Clone, Copy)]
pub enum BarPhase {
    Reading(u8),
    Choosing(Choice),
}

// A search under way, and the dwords that were read.
#[derive(Clone, Copy)]
pub struct FindBar {
    pub phase: BarPhase,
    pub dwords: [u32; 6],
}

impl FindBar {
    // The register of the UAR BAR, where the first BAR dword stands, and how many stand after it.
    pub const REGISTER: usize = 2;

    pub const FIRST: u16 = 0x10;

    pub const MORE: u8 = 5;
}

// Where a step leads: the search goes on, or has ended.
#[derive(Clone, Copy)]
pub struct BarStep {
    pub find: FindBar,
    pub ending: Option<Result<Pick, NotFound>>,
}

// What an answer does to a search: nothing; a dword was read, with so many left; the choice goes on; the end.
#[derive(Clone, Copy)]
pub enum BarMove {
    Stay,
    Save(u8, u32),
    To(Choice),
    End(Result<Pick, NotFound>),
}

// The number of the BAR dword that is read when n are left after it.
fn dword_at(n: u8) -> u8
    ensures { (result ≡ dword_at n) × (result ≤ 5) }
{
    5u8.saturating_sub(n)
}

// The index that a choice asks about.
fn index_of(c: Choice) -> u8
    ensures { result ≡ index_of c }
{
    match c.asking {
        Asking::First => c.first.index,
        Asking::Second => c.second.index,
        Asking::Other(i) => i,
    }
}

// A BAR dword.
fn read(n: u8, r: Result<u32, NoReply>) -> BarMove
    ensures { result ≡ read_move n r }
{
    match r {
        Ok(x) => BarMove::Save(n, x),
        Err(NoReply::Failed) => BarMove::End(Err(NotFound::Refused)),
        Err(NoReply::Wrong) => BarMove::Stay,
    }
}

// The choice asks on, or has picked.
fn led(next: bars::Next) -> BarMove
    ensures { result ≡ led_of next }
{
    match next {
        bars::Next::Ask(_, c) => BarMove::To(c),
        bars::Next::Picked(p) => BarMove::End(Ok(p)),
    }
}

// What a resource list says about an index; a bad one ends the search at once, whatever was said
// before.
fn listed(c: Choice, bytes: &[u8]) -> BarMove
    ensures { result ≡ list_move c (resource_at bytes.now) }
{
    match bars::resource(bytes) {
        Ok(answer) => led(bars::step(c, answer)),
        Err(_) => BarMove::End(Err(NotFound::BadList)),
    }
}

// What is said about an index, with the resource list beside it.
fn choice(c: Choice, r: Result<(), NoReply>, bytes: &[u8]) -> BarMove
    ensures { result ≡ choice_move c bytes.now r }
{
    match r {
        Ok(()) => listed(c, bytes),
        Err(NoReply::Failed) => led(bars::step(c, None)),
        Err(NoReply::Wrong) => BarMove::Stay,
    }
}

// What an answer does, by the open question.
fn moves(phase: BarPhase, a: Answer, bytes: &[u8]) -> BarMove
    ensures { result ≡ move_at a bytes.now phase }
{
    match phase {
        BarPhase::Reading(n) => read(n, pci::as_dword(a)),
        BarPhase::Choosing(c) => choice(c, pci::as_list(a), bytes),
    }
}

// All dwords are there: the choice begins.
fn begin(dwords: [u32; 6]) -> BarStep
    ensures { result ≡ begins dwords }
{
    match bars::choose(dwords, FindBar::REGISTER) {
        Ok((_, c)) => BarStep {
            find: FindBar {
                phase: BarPhase::Choosing(c),
                dwords,
            },
            ending: None,
        },
        Err(_) => BarStep {
            find: FindBar {
                phase: BarPhase::Reading(0),
                dwords,
            },
            ending: Some(Err(NotFound::Refused)),
        },
    }
}

// The next dword is read, or none is left.
fn reads_on(dwords: [u32; 6], n: u8) -> BarStep
    ensures { result ≡ read_on dwords n }
{
    if n == 0 {
        return begin(dwords);
    }
    BarStep {
        find: FindBar {
            phase: BarPhase::Reading(n - 1),
            dwords,
        },
        ending: None,
    }
}

impl FindBar {
    // A search begins.
    pub fn start() -> FindBar
        ensures { result ≡ started }
    {
        FindBar {
            phase: BarPhase::Reading(FindBar::MORE),
            dwords: [0u32; 6],
        }
    }

    // The open question.
    pub fn asks(self) -> Question
        ensures { result ≡ bar_asks self }
    {
        match self.phase {
            BarPhase::Reading(n) => Question::ConfigRead32(FindBar::FIRST + dword_at(n) as u16 * 4),
            BarPhase::Choosing(c) => Question::Resource(index_of(c)),
        }
    }

    fn moved(self, m: BarMove) -> BarStep
        ensures { result ≡ moved_of self m }
    {
        match m {
            BarMove::Stay => BarStep {
                find: self,
                ending: None,
            },
            BarMove::Save(n, value) => {
                let mut dwords = self.dwords;
                dwords[dword_at(n) as usize] = value;
                reads_on(dwords, n)
            }
            BarMove::To(c) => BarStep {
                find: FindBar {
                    phase: BarPhase::Choosing(c),
                    ..self
                },
                ending: None,
            },
            BarMove::End(end) => BarStep {
                find: self,
                ending: Some(end),
            },
        }
    }

    // The search takes the answer to its open question, with a resource list's bytes lent beside it; an answer of another kind leaves it as it is.
    pub fn step(self, a: Answer, bytes: &[u8]) -> BarStep
        ensures { result ≡ bar_step_of self a bytes.now }
    {
        self.moved(moves(self.phase, a, bytes))
    }
}
