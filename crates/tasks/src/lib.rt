// The small tasks of an opening and a closing: attributes, claim, release, restore, and the tail of quiesce.
#![tactic(auto)]

ghost use Rattle.std.specs.Prelude.{◌≡◌};
ghost use Rattle.tasks.specs.Attributes.{wanted, got_step, supported_step, enable_step, attr_asks, attr_step_of};
ghost use Rattle.tasks.specs.Claim.{without_intx, command_step, wrote_step, owner_step, claim_asks, claim_step_of};
ghost use Rattle.tasks.specs.Parting.{without_master, disown_step, settle_step, restore_step, part_asks, part_step_of};
ghost use Rattle.tasks.specs.Parting as e;

use pci::{Answer, NoReply, Question};

// The attributes are enabled, with those that were there before; or 1.
#[derive(Clone, Copy)]
pub enum Attributes {
    Enabled(u64),
    Refused,
}

// The open question of the attributes: get, supported, or enable, with the value that get gave and the one to enable.
#[derive(Clone, Copy)]
pub enum Attr {
    Get,
    Supported(u64),
    Enable(u64, u64),
}

#[derive(Clone, Copy)]
pub enum AttrStep {
    More(Attr),
    Ended(Attributes),
}

impl Attr {
    // The operations of an attribute call.
    pub const GET: u8 = 0;

    pub const SET: u8 = 1;

    pub const ENABLE: u8 = 2;

    pub const SUPPORTED: u8 = 4;

    // What is enabled: memory and bus master; and, where it is supported, the dual address cycle.
    pub const BASIC: u64 = 0x600;

    pub const DUAL: u64 = 0x8000;
}

// The device is claimed, or 2.
#[derive(Clone, Copy)]
pub enum Claimed {
    Good,
    Refused,
}

// The open question of a claim: the command word is read, written with INTx disabled, and the owner read.
#[derive(Clone, Copy)]
pub enum Claim {
    Command,
    Write(u16),
    Owner,
}

#[derive(Clone, Copy)]
pub enum ClaimStep {
    More(Claim),
    Ended(Claimed),
}

impl Claim {
    // The owner register's BAR and place, the command word's, and its bit that disables INTx.
    pub const BAR: u8 = 0;

    pub const OWNER: u64 = 0x8069c;

    pub const COMMAND: u16 = 0x04;

    pub const NO_INTX: u16 = 0x400;
}

// The open question of a parting, whose failures are passed over. Release: the owner is written, then a stall. Restore: the attributes are set again. The
// tail of quiesce: the owner is written, the command word read, and written with bus master off.
#[derive(Clone, Copy)]
pub enum Parting {
    Disown,
    Settle,
    Restore(u64),
    Owner,
    Command,
    Write(u16),
}

#[derive(Clone, Copy)]
pub enum PartingStep {
    More(Parting),
    Ended,
}

impl Parting {
    pub const SETTLE_US: u32 = 1_000_000;

    // The bit of the command word that lets the device be bus master.
    pub const MASTER: u16 = 0x4;
}

// What is enabled, by what is supported.
fn wants(supported: u64) -> u64
    ensures { result ≡ wanted supported }
{
    if supported / Attr::DUAL % 2 == 1 {
        return Attr::BASIC + Attr::DUAL;
    }
    Attr::BASIC
}

// The attributes that were there before.
fn got(r: Result<u64, NoReply>) -> AttrStep
    ensures { result ≡ got_step r }
{
    match r {
        Ok(v) => AttrStep::More(Attr::Supported(v)),
        Err(NoReply::Failed) => AttrStep::Ended(Attributes::Refused),
        Err(NoReply::Wrong) => AttrStep::More(Attr::Get),
    }
}

// Those that the device supports; none where it does not say.
fn supports(before: u64, r: Result<u64, NoReply>) -> AttrStep
    ensures { result ≡ supported_step before r }
{
    match r {
        Ok(v) => AttrStep::More(Attr::Enable(before, wants(v))),
        Err(NoReply::Failed) => AttrStep::More(Attr::Enable(before, wants(0))),
        Err(NoReply::Wrong) => AttrStep::More(Attr::Supported(before)),
    }
}

// The attributes were enabled, or not.
fn enables(before: u64, value: u64, r: Result<u64, NoReply>) -> AttrStep
    ensures { result ≡ enable_step before value r }
{
    match r {
        Ok(_) => AttrStep::Ended(Attributes::Enabled(before)),
        Err(NoReply::Failed) => AttrStep::Ended(Attributes::Refused),
        Err(NoReply::Wrong) => AttrStep::More(Attr::Enable(before, value)),
    }
}

impl Attr {
    // The open question.
    pub fn asks(self) -> Question
        ensures { result ≡ attr_asks self }
    {
        match self {
            Attr::Get => Question::Attributes(Attr::GET, 0),
            Attr::Supported(_) => Question::Attributes(Attr::SUPPORTED, 0),
            Attr::Enable(_, value) => Question::Attributes(Attr::ENABLE, value),
        }
    }

    // The task takes the answer to its open question; an answer of another kind leaves it as it is.
    pub fn step(self, a: Answer) -> AttrStep
        ensures { result ≡ attr_step_of self a }
    {
        match self {
            Attr::Get => got(pci::as_qword(a)),
            Attr::Supported(before) => supports(before, pci::as_qword(a)),
            Attr::Enable(before, value) => enables(before, value, pci::as_qword(a)),
        }
    }
}

// The command word with INTx disabled.
fn no_intx(v: u16) -> u16
    ensures { result ≡ without_intx v }
{
    if v / Claim::NO_INTX % 2 == 1 {
        return v;
    }
    v + Claim::NO_INTX
}

// The command word was read, or not.
fn command(r: Result<u16, NoReply>) -> ClaimStep
    ensures { result ≡ command_step r }
{
    match r {
        Ok(v) => ClaimStep::More(Claim::Write(no_intx(v))),
        Err(NoReply::Failed) => ClaimStep::More(Claim::Owner),
        Err(NoReply::Wrong) => ClaimStep::More(Claim::Command),
    }
}

// The command word was written, or not.
fn wrote(v: u16, r: Result<(), NoReply>) -> ClaimStep
    ensures { result ≡ wrote_step v r }
{
    match r {
        Ok(()) | Err(NoReply::Failed) => ClaimStep::More(Claim::Owner),
        Err(NoReply::Wrong) => ClaimStep::More(Claim::Write(v)),
    }
}

// The owner register: 0 is nobody.
fn owner(r: Result<u32, NoReply>) -> ClaimStep
    ensures { result ≡ owner_step r }
{
    match r {
        Ok(x) => {
            if hcr::swap(x) == 0 {
                return ClaimStep::Ended(Claimed::Good);
            }
            ClaimStep::Ended(Claimed::Refused)
        }
        Err(NoReply::Failed) => ClaimStep::Ended(Claimed::Refused),
        Err(NoReply::Wrong) => ClaimStep::More(Claim::Owner),
    }
}

impl Claim {
    // The open question.
    pub fn asks(self) -> Question
        ensures { result ≡ claim_asks self }
    {
        match self {
            Claim::Command => Question::ConfigRead16(Claim::COMMAND),
            Claim::Write(v) => Question::ConfigWrite16(Claim::COMMAND, v),
            Claim::Owner => Question::RegRead(Claim::BAR, Claim::OWNER),
        }
    }

    // The task takes the answer to its open question; an answer of another kind leaves it as it is.
    pub fn step(self, a: Answer) -> ClaimStep
        ensures { result ≡ claim_step_of self a }
    {
        match self {
            Claim::Command => command(pci::as_word(a)),
            Claim::Write(v) => wrote(v, pci::as_done(a)),
            Claim::Owner => owner(pci::as_dword(a)),
        }
    }
}

// The command word with bus master off.
fn no_master(v: u16) -> u16
    ensures { result ≡ without_master v }
{
    if v / Parting::MASTER % 2 == 1 {
        return v - Parting::MASTER;
    }
    v
}

// The owner was written on release, or not.
fn disowned(r: Result<(), NoReply>) -> PartingStep
    ensures { result ≡ disown_step r }
{
    match r {
        Ok(()) => PartingStep::More(Parting::Settle),
        Err(NoReply::Failed) => PartingStep::Ended,
        Err(NoReply::Wrong) => PartingStep::More(Parting::Disown),
    }
}

fn settled(told: bool) -> PartingStep
    ensures { result ≡ settle_step told }
{
    if told {
        return PartingStep::Ended;
    }
    PartingStep::More(Parting::Settle)
}

fn restored(before: u64, r: Result<u64, NoReply>) -> PartingStep
    ensures { result ≡ restore_step before r }
{
    match r {
        Ok(_) | Err(NoReply::Failed) => PartingStep::Ended,
        Err(NoReply::Wrong) => PartingStep::More(Parting::Restore(before)),
    }
}

// The command word was read at the end of quiesce, or not.
fn commanded(r: Result<u16, NoReply>) -> PartingStep
    ensures { result ≡ e.command_step r }
{
    match r {
        Ok(v) => PartingStep::More(Parting::Write(no_master(v))),
        Err(NoReply::Failed) => PartingStep::Ended,
        Err(NoReply::Wrong) => PartingStep::More(Parting::Command),
    }
}

// A write whose failure is passed over.
fn passed(k: Parting, next: PartingStep, r: Result<(), NoReply>) -> PartingStep
    ensures { result ≡ e.wrote_step k next r }
{
    match r {
        Ok(()) | Err(NoReply::Failed) => next,
        Err(NoReply::Wrong) => PartingStep::More(k),
    }
}

impl Parting {
    // The open question.
    pub fn asks(self) -> Question
        ensures { result ≡ part_asks self }
    {
        match self {
            Parting::Disown => Question::RegWrite(Claim::BAR, Claim::OWNER, 0),
            Parting::Settle => Question::Stall(Parting::SETTLE_US),
            Parting::Restore(before) => Question::Attributes(Attr::SET, before),
            Parting::Owner => Question::RegWrite(Claim::BAR, Claim::OWNER, 0),
            Parting::Command => Question::ConfigRead16(Claim::COMMAND),
            Parting::Write(v) => Question::ConfigWrite16(Claim::COMMAND, v),
        }
    }

    // The task takes the answer to its open question; an answer of another kind leaves it as it is.
    pub fn step(self, a: Answer) -> PartingStep
        ensures { result ≡ part_step_of self a }
    {
        match self {
            Parting::Disown => disowned(pci::as_done(a)),
            Parting::Settle => settled(pci::as_told(a)),
            Parting::Restore(before) => restored(before, pci::as_qword(a)),
            Parting::Owner => passed(self, PartingStep::More(Parting::Command), pci::as_done(a)),
            Parting::Command => commanded(pci::as_word(a)),
            Parting::Write(_) => passed(self, PartingStep::Ended, pci::as_done(a)),
        }
    }
}
