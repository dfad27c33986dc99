// The reset of the card, as a small machine: config saved, semaphore taken, the reset written, the card back, config restored.
#![tactic(auto)]

ghost use Rattle.std.specs.Prelude.{◌≡◌, ◌≤◌, ◌+◌};
ghost use Rattle.reset.specs.declared.Phase.TheVariants.{Back};
ghost use Rattle.reset.specs.Reset.{is_good, dword_at, restored_at, pointer};
ghost use Rattle.reset.specs.Steps.{started, restoring, walk_move, saving_move, pointer_move, header_move, device_move, link_move};
ghost use Rattle.reset.specs.Steps.{held_move, semaphore_move, write_move, told_move, vendor_move, gone_move, back_next, back_on};
ghost use Rattle.reset.specs.Steps.{saves, moved_of, move_at, reset_step_of, reset_asks, asks_at};

use pci::{Answer, NoReply, Question};

// How a reset ends: good, or in which part of it. At the semaphore with its last value, or 0 where it could not be read.
#[derive(Clone, Copy)]
pub enum ResetEnd {
    Good,
    Save,
    Semaphore(u32),
    Write,
    Vendor,
}

impl ResetEnd {
    // The card took the reset, and is there again.
    pub fn is_good(self) -> bool
        ensures { result ≡ is_good self }
    {
        match self {
            ResetEnd::Good => true,
            ResetEnd::Save => false,
            ResetEnd::Semaphore(_) => false,
            ResetEnd::Write => false,
            ResetEnd::Vendor => false,
        }
    }
}

// The control words of the PCI Express capability: where it stands, device control and link control; or none that was read.
#[derive(Clone, Copy)]
pub enum Control {
    Absent,
    Saved(u8, u16, u16),
}

// The open question of a reset.
#[derive(Clone, Copy)]
pub enum Phase {
    // A config dword is read, and how many are left after it.
    Saving(u8),
    // The pointer to the first capability.
    Pointer,
    // How many headers may be read after this one, and where it stands.
    Header(u8, u8),
    // The control words of the capability that stands there.
    Device(u8),
    Link(u8, u16),
    // How often the semaphore may be read after this time; and the stall before it.
    Semaphore(u16),
    Hold(u16),
    // The reset is written, and waited for.
    Writing,
    Settle,
    // How often the vendor may be read after this time; and the stall after it.
    Vendor(u16),
    Gone(u16),
    // The control words are written back.
    BackDevice(u8, u16, u16),
    BackLink(u8, u16),
    // A config dword is written back, and how many are left after it.
    Back(u8),
}

// A reset under way: its open question, the saved config dwords, and the saved control words.
#[derive(Clone, Copy)]
pub struct Reset {
    pub phase: Phase,
    pub dwords: [u32; 16],
    pub control: Control,
}

impl Reset {
    // The registers' BAR, the semaphore, and the reset register with what is written to it.
    pub const BAR: u8 = 0;

    pub const SEMAPHORE: u64 = 0xf03fc;

    pub const REGISTER: u64 = 0xf0010;

    pub const GO: u32 = 1;

    // The first capability's pointer, the id of PCI Express, and its two control words.
    pub const POINTER: u16 = 0x34;

    pub const EXPRESS: u16 = 0x10;

    pub const DEVICE: u16 = 0x08;

    pub const LINK: u16 = 0x10;

    // At most so many headers; reads after the first of the semaphore, and of the vendor.
    pub const HEADERS: u8 = 48;

    pub const SEMAPHORE_MORE: u16 = 10_000;

    pub const VENDOR_MORE: u16 = 1_999;

    // Dwords after the first.
    pub const DWORDS_MORE: u8 = 15;

    // Microseconds between two reads, and after the reset.
    pub const WAIT_US: u32 = 1_000;

    pub const SETTLE_US: u32 = 1_000_000;

    pub const NO_VENDOR: u16 = 0xffff;
}

// Where a step leads: it goes on, or has ended.
#[derive(Clone, Copy)]
pub enum Ending {
    Going,
    Ended(ResetEnd),
}

#[derive(Clone, Copy)]
pub struct ResetStep {
    pub reset: Reset,
    pub ending: Ending,
}

// What an answer does to a reset: nothing; another question; a config dword was read, with so many left; the control words are known; the end.
#[derive(Clone, Copy)]
pub enum Move {
    Stay,
    To(Phase),
    Save(u8, u32),
    Known(Control),
    End(ResetEnd),
}

// The number of the config dword that is read when n are left after it.
fn dword_at(n: u8) -> u8
    ensures { (result ≡ dword_at n) × (result ≤ 15) }
{
    if n < 15 {
        return 15 - n;
    }
    0
}

// The number of the config dword that is written back when n are left after it.
fn restored_at(n: u8) -> u8
    ensures { (result ≡ restored_at n) × (result ≤ 15) }
{
    if n == 0 {
        return 1;
    }
    if n < 15 {
        return 16 - n;
    }
    0
}

// The place that a pointer's byte gives.
fn pointer_in(byte: u8) -> u8
    ensures { result ≡ pointer byte }
{
    byte / 4 * 4
}

// The next header, where one may still be read and there is one.
fn walk(left: u8, at: u8) -> Move
    ensures { result ≡ walk_move left at }
{
    if left == 0 {
        return Move::Known(Control::Absent);
    }
    if at == 0 {
        return Move::Known(Control::Absent);
    }
    Move::To(Phase::Header(left - 1, at))
}

// A config dword.
fn saving(n: u8, r: Result<u32, NoReply>) -> Move
    ensures { result ≡ saving_move n r }
{
    match r {
        Ok(x) => Move::Save(n, x),
        Err(NoReply::Failed) => Move::End(ResetEnd::Save),
        Err(NoReply::Wrong) => Move::Stay,
    }
}

// The pointer to the first capability.
fn pointed(r: Result<u32, NoReply>) -> Move
    ensures { result ≡ pointer_move r }
{
    match r {
        Ok(x) => walk(Reset::HEADERS, pointer_in((x % 0x100) as u8)),
        Err(NoReply::Failed) => Move::Known(Control::Absent),
        Err(NoReply::Wrong) => Move::Stay,
    }
}

// A header, which is the capability's, or points to the next.
fn header(n: u8, at: u8, r: Result<u16, NoReply>) -> Move
    ensures { result ≡ header_move n at r }
{
    match r {
        Ok(x) => {
            if x % 0x100 == Reset::EXPRESS {
                return Move::To(Phase::Device(at));
            }
            walk(n, pointer_in((x / 0x100) as u8))
        }
        Err(NoReply::Failed) => Move::Known(Control::Absent),
        Err(NoReply::Wrong) => Move::Stay,
    }
}

// Device control.
fn device(at: u8, r: Result<u16, NoReply>) -> Move
    ensures { result ≡ device_move at r }
{
    match r {
        Ok(x) => Move::To(Phase::Link(at, x)),
        Err(NoReply::Failed) => Move::Known(Control::Absent),
        Err(NoReply::Wrong) => Move::Stay,
    }
}

// Link control.
fn link(at: u8, device: u16, r: Result<u16, NoReply>) -> Move
    ensures { result ≡ link_move at device r }
{
    match r {
        Ok(x) => Move::Known(Control::Saved(at, device, x)),
        Err(NoReply::Failed) => Move::Known(Control::Absent),
        Err(NoReply::Wrong) => Move::Stay,
    }
}

// The semaphore is held by another: it is waited for, or given up.
fn held(n: u16, value: u32) -> Move
    ensures { result ≡ held_move n value }
{
    if n == 0 {
        return Move::End(ResetEnd::Semaphore(value));
    }
    Move::To(Phase::Hold(n - 1))
}

// The semaphore.
fn semaphore(n: u16, r: Result<u32, NoReply>) -> Move
    ensures { result ≡ semaphore_move n r }
{
    match r {
        Ok(x) => {
            let value = hcr::swap(x);
            if value == 0 {
                return Move::To(Phase::Writing);
            }
            held(n, value)
        }
        Err(NoReply::Failed) => Move::End(ResetEnd::Semaphore(0)),
        Err(NoReply::Wrong) => Move::Stay,
    }
}

// The reset register was written.
fn wrote(r: Result<(), NoReply>) -> Move
    ensures { result ≡ write_move r }
{
    match r {
        Ok(()) => Move::To(Phase::Settle),
        Err(NoReply::Failed) => Move::End(ResetEnd::Write),
        Err(NoReply::Wrong) => Move::Stay,
    }
}

// A stall that another question follows.
fn told(next: Phase, told: bool) -> Move
    ensures { result ≡ told_move next told }
{
    if told {
        return Move::To(next);
    }
    Move::Stay
}

// The first thing to be restored.
fn restores(control: Control) -> Phase
    ensures { result ≡ restoring control }
{
    match control {
        Control::Absent => Phase::Back(Reset::DWORDS_MORE),
        Control::Saved(at, device, link) => Phase::BackDevice(at, device, link),
    }
}

// The vendor: the card is there, or not yet.
fn vendor(n: u16, control: Control, r: Result<u16, NoReply>) -> Move
    ensures { result ≡ vendor_move n control r }
{
    match r {
        Ok(x) => {
            if x == Reset::NO_VENDOR {
                return Move::To(Phase::Gone(n));
            }
            Move::To(restores(control))
        }
        Err(NoReply::Failed) => Move::To(Phase::Gone(n)),
        Err(NoReply::Wrong) => Move::Stay,
    }
}

// The stall after a vendor that was not there.
fn gone(n: u16, told: bool) -> Move
    ensures { result ≡ gone_move n told }
{
    if !told {
        return Move::Stay;
    }
    if n == 0 {
        return Move::End(ResetEnd::Vendor);
    }
    Move::To(Phase::Vendor(n - 1))
}

// What follows when a config dword was written back.
fn onward(n: u8) -> Move
    ensures { result ≡ back_next n }
{
    if n == 0 {
        return Move::End(ResetEnd::Good);
    }
    Move::To(Phase::Back(n - 1))
}

// A write whose failure is passed over.
fn back(next: Move, r: Result<(), NoReply>) -> Move
    ensures { result ≡ back_on next r }
{
    match r {
        Ok(()) | Err(NoReply::Failed) => next,
        Err(NoReply::Wrong) => Move::Stay,
    }
}

// What an answer does, by the open question.
fn moves(phase: Phase, control: Control, a: Answer) -> Move
    ensures { result ≡ move_at control a phase }
{
    match phase {
        Phase::Saving(n) => saving(n, pci::as_dword(a)),
        Phase::Pointer => pointed(pci::as_dword(a)),
        Phase::Header(n, at) => header(n, at, pci::as_word(a)),
        Phase::Device(at) => device(at, pci::as_word(a)),
        Phase::Link(at, word) => link(at, word, pci::as_word(a)),
        Phase::Semaphore(n) => semaphore(n, pci::as_dword(a)),
        Phase::Hold(n) => told(Phase::Semaphore(n), pci::as_told(a)),
        Phase::Writing => wrote(pci::as_done(a)),
        Phase::Settle => told(Phase::Vendor(Reset::VENDOR_MORE), pci::as_told(a)),
        Phase::Vendor(n) => vendor(n, control, pci::as_word(a)),
        Phase::Gone(n) => gone(n, pci::as_told(a)),
        Phase::BackDevice(at, _, word) => back(
            Move::To(Phase::BackLink(at, word)),
            pci::as_done(a),
        ),
        Phase::BackLink(_, _) => back(Move::To(Phase::Back(Reset::DWORDS_MORE)), pci::as_done(a)),
        Phase::Back(n) => back(onward(n), pci::as_done(a)),
    }
}

// A word of the capability that stands at a place.
fn word_at(at: u8, off: u16) -> u16
    requires { off ≤ 16 }
    ensures { result ≡ at + off }
{
    at as u16 + off
}

impl Reset {
    // A reset begins.
    pub fn start() -> Reset
        ensures { result ≡ started }
    {
        Reset {
            phase: Phase::Saving(Reset::DWORDS_MORE),
            dwords: [0u32; 16],
            control: Control::Absent,
        }
    }

    // The open question.
    pub fn asks(self) -> Question
        ensures { result ≡ reset_asks self }
    {
        let phase = self.phase;
        let dwords = self.dwords;
        match phase {
            Phase::Saving(n) => Question::ConfigRead32(dword_at(n) as u16 * 4),
            Phase::Pointer => Question::ConfigRead32(Reset::POINTER),
            Phase::Header(_, at) => Question::ConfigRead16(at as u16),
            Phase::Device(at) => Question::ConfigRead16(word_at(at, Reset::DEVICE)),
            Phase::Link(at, _) => Question::ConfigRead16(word_at(at, Reset::LINK)),
            Phase::Semaphore(_) => Question::RegRead(Reset::BAR, Reset::SEMAPHORE),
            Phase::Hold(_) => Question::Stall(Reset::WAIT_US),
            Phase::Writing => Question::RegWrite(Reset::BAR, Reset::REGISTER, hcr::swap(Reset::GO)),
            Phase::Settle => Question::Stall(Reset::SETTLE_US),
            Phase::Vendor(_) => Question::ConfigRead16(0),
            Phase::Gone(_) => Question::Stall(Reset::WAIT_US),
            Phase::BackDevice(at, word, _) => Question::ConfigWrite16(
                word_at(at, Reset::DEVICE),
                word,
            ),
            Phase::BackLink(at, word) => Question::ConfigWrite16(word_at(at, Reset::LINK), word),
            Phase::Back(n) => writes_back(n, dwords),
        }
    }

    // The state after a config dword.
    fn saved(self, n: u8, value: u32) -> ResetStep
        ensures { result ≡ saves self n value }
    {
        let at = dword_at(n) as usize;
        let mut dwords = self.dwords;
        dwords[at] = value;
        if n == 0 {
            return ResetStep {
                reset: Reset {
                    phase: Phase::Pointer,
                    dwords,
                    ..self
                },
                ending: Ending::Going,
            };
        }
        ResetStep {
            reset: Reset {
                phase: Phase::Saving(n - 1),
                dwords,
                ..self
            },
            ending: Ending::Going,
        }
    }

    fn moved(self, m: Move) -> ResetStep
        ensures { result ≡ moved_of self m }
    {
        match m {
            Move::Stay => ResetStep {
                reset: self,
                ending: Ending::Going,
            },
            Move::To(phase) => ResetStep {
                reset: Reset { phase, ..self },
                ending: Ending::Going,
            },
            Move::Save(n, value) => self.saved(n, value),
            Move::Known(control) => ResetStep {
                reset: Reset {
                    phase: Phase::Semaphore(Reset::SEMAPHORE_MORE),
                    control,
                    ..self
                },
                ending: Ending::Going,
            },
            Move::End(end) => ResetStep {
                reset: self,
                ending: Ending::Ended(end),
            },
        }
    }

    // The reset takes the answer to its open question; an answer of another kind leaves it as it is.
    pub fn step(self, a: Answer) -> ResetStep
        ensures { result ≡ reset_step_of self a }
    {
        let phase = self.phase;
        let control = self.control;
        let m = moves(phase, control, a);
        self.moved(m)
    }
}

// The question that writes a config dword back.
fn writes_back(n: u8, dwords: [u32; 16]) -> Question
    ensures { result ≡ asks_at dwords (Back n) }
{
    let i = restored_at(n);
    Question::ConfigWrite32(i as u16 * 4, dwords[i as usize])
}
