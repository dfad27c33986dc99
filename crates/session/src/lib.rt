// The session by value: how far it has come, the task under way, its books, and what the card has said.
#![tactic(auto)]

ghost use Rattle.std.specs.Prelude.{◌≡◌, ◌+◌, ◌*◌, ◌%◌, ◌<◌};
ghost use Rattle.session.specs.declared.Fill.TheVariants.{Nothing};
ghost use Rattle.session.specs.Session.{fresh, bookkeeps, catas_for, end_seen};
ghost use Rattle.session.specs.Core.{full, none_behind, FullIs, leads, start_of, send_of, took_by, break_of, silence_of};
ghost use Rattle.session.specs.Session.{imm_of, names_in, names_out, buffer_of, slot_at, bytes_in, lent_to};
ghost use Rattle.session.specs.Failures.{fault_of, failure_of, needs_reset, immediate_of, no_memory, made_in, broken_by};

use bars::{How, Pick};
use buffer::{Fault, Made};
use command::{Catas, Cmd, CmdEnd, CmdResult};
use dma::{Buffer, Cutter};
use hcr::Post;
use pci::Refusal;
use reply::{DevCap, FuncInfo, PortInfo};
use work::{End, Task, Work};

// A slot of the books: how many runs of pages it has, none or one; the card address, of a range; the run's handle, device address and pages, and whether it is mapped.
#[derive(Clone, Copy)]
pub struct Slot {
    pub runs: u64,
    pub virt: u64,
    pub handle: u64,
    pub dev: u64,
    pub pages: u64,
    pub mapped: bool,
}

impl Slot {
    pub const LENT: usize = 64;

    pub const RANGES: usize = 14;

    pub const AUX: usize = 78;

    pub const FA: usize = 79;

    pub const INBOX: usize = 80;

    pub const OUTBOX: usize = 81;

    pub const COUNT: usize = 82;
}

// How the command register stands: the toggle of the next command; whether a command may still run, its end not seen; whether the card can no longer be trusted
// with commands; whether a quiesce has begun, from which on a Timeout is looked into no more; and where the catastrophic buffer is.
#[derive(Clone, Copy)]
pub struct Wire {
    pub toggle: bool,
    pub running: bool,
    pub broken: bool,
    pub silent: bool,
    pub catas: Catas,
}

// The buffers in the order in which a closing frees them: 0 to 63 lent, in lending order; 64 to 77 the ranges, in mapping order; 78 the auxiliary area; 79 the firmware
// area; 80 the inbox; 81 the outbox. And how many were lent and mapped.
#[derive(Clone, Copy)]
pub struct Lists {
    pub slots: [Slot; 82],
    pub ranges: usize,
    pub lends: usize,
}

// What the session holds; whether INIT_HCA was seen good; the attributes before the opening.
#[derive(Clone, Copy)]
pub struct Books {
    pub wire: Wire,
    pub lists: Lists,
    pub started: bool,
    pub original: u64,
}

// What the card and the host have said: the UAR BAR, the capabilities, what QUERY_FUNC replaces of them, the ports, and whether the command interface has
// revision 3.
#[derive(Clone, Copy)]
pub struct Info {
    pub uar: Pick,
    pub cap: DevCap,
    pub func: FuncInfo,
    pub port1: PortInfo,
    pub port2: PortInfo,
    pub rev3: bool,
}

// The newest record of the caller's undo list, and how many there are.
#[derive(Clone, Copy)]
pub struct Top {
    pub count: usize,
    pub op: u16,
    pub op_mod: u8,
    pub in_mod: u32,
    pub in_param: u64,
}

// What a buffer is for: the firmware area, the auxiliary area, or range i of the layout.
#[derive(Clone, Copy)]
pub enum Area {
    Fa,
    Aux,
    Range(usize),
}

// What the task under way is for, before the first command.
#[derive(Clone, Copy)]
pub enum Prepare {
    Attributes,
    Claim,
    Reset,
    Bar,
    Inbox,
    Outbox,
    Look,
}

// What the command or the buffer under way is for, in bring-up. A page list has what is left of its area behind the mailbox that is posted.
#[derive(Clone, Copy)]
pub enum Boot {
    QueryFw,
    Make(Area),
    Map(Area, Cutter),
    RunFw,
    ModStat,
    DevCap,
    Port(u8),
    IcmSize,
    InitHca,
    Func,
    Adapter,
}

// What the task under way is for, in a closing. `Undo` has how many more may be sent; the ranges below `Unmap` are still to be unmapped; the slots from that of `Free` on are still to be freed. A quiesce sends the same commands, and ends with `Quiesce`.
#[derive(Clone, Copy)]
pub enum Close {
    Undo(u32),
    CloseHca,
    Unmap(usize),
    UnmapAux,
    UnmapFa,
    Quiesce,
    Reset,
    Free(usize),
    Release,
    Restore,
}

// The five forms of a client's command: which mailboxes it names, and whether it gives an immediate.
#[derive(Clone, Copy)]
pub enum Form {
    Imm,
    WithIn,
    WithOut,
    InImm,
    InOut,
}

// What the task under way is for, in a client's call on an open session: a command; a buffer to be lent, in this slot; the newest undo record, while more than so many are on the
// list, with how many more may be sent.
#[derive(Clone, Copy)]
pub enum Client {
    Command(Form),
    Lend(usize),
    UndoTo(usize, u32),
}

// What the last call on an open session gave: nothing; a command's immediate and the microseconds waited; the slot of the buffer that was lent; or why it failed.
#[derive(Clone, Copy)]
pub enum Gave {
    Nothing,
    Command(u64, u64),
    Lent(usize),
    Failed(Refusal),
}

// Before the opening, between calls, and after the end nothing is under way.
#[derive(Clone, Copy)]
pub enum Stage {
    Fresh,
    Open(Gave),
    Ended,
    Prepare(Prepare),
    Boot(Boot),
    Client(Client),
    Close(Close),
}

// Why the opening failed; `Nothing` in a close.
#[derive(Clone, Copy)]
pub enum Failure {
    Nothing,
    By(Refusal),
}

// How a closing went: by commands alone, by a reset, or not at all, and everything is kept.
#[derive(Clone, Copy)]
pub enum Closing {
    Clean,
    Reset,
    Kept,
}

#[derive(Clone, Copy)]
pub struct Session {
    pub stage: Stage,
    pub work: Work,
    pub books: Books,
    pub info: Info,
    pub failure: Failure,
    pub closing: Closing,
}

// What is to be written to the mailboxes before the next question: nothing; the outbox zeroed; the next page list, the MOD_STAT_CFG or the INIT_HCA fields in
// the inbox.
#[derive(Clone, Copy)]
pub enum Fill {
    Nothing,
    Outbox,
    List(Cutter),
    ModStat,
    InitHca,
}

// Where a plan leads: the session, what is to be written, and how many undo records are left on the list.
#[derive(Clone, Copy)]
pub struct Planned {
    pub session: Session,
    pub fill: Fill,
    pub undo: usize,
}

// The head of a session by value: all of it but the parts that stand behind the head in the session's bytes, which are read and written there: the reset and the
// search for the UAR BAR, the capabilities, the ports, and the slots.
#[derive(Clone, Copy)]
pub struct Core {
    pub stage: Stage,
    pub task: Task,
    pub wire: Wire,
    pub ranges: usize,
    pub lends: usize,
    pub started: bool,
    pub original: u64,
    pub uar: Pick,
    pub func: FuncInfo,
    pub rev3: bool,
    pub failure: Failure,
    pub closing: Closing,
}

// What a reply in the outbox leaves behind the head: nothing, the capabilities, or what it says of a port.
#[derive(Clone, Copy)]
pub enum Note {
    Nothing,
    Cap,
    Port(u8),
}

// Where a plan leads, as the code has it: the head, what is to be written to the mailboxes, and how many undo records are left. A reset or a search for the UAR BAR that begins
// with it begins anew.
#[derive(Clone, Copy)]
pub struct Plan {
    pub core: Core,
    pub fill: Fill,
    pub undo: usize,
}

// A command without mailboxes.
pub fn imm(op: u16, op_mod: u8, in_mod: u32, in_param: u64) -> Post
    ensures { result ≡ imm_of op op_mod in_mod in_param }
{
    Post {
        op,
        op_mod,
        in_mod,
        in_param,
        out_param: 0,
    }
}

// A command that names the inbox, which is at this address.
pub fn with_in(inbox: u64, op: u16, in_mod: u32) -> Post
    ensures { result ≡ names_in inbox op in_mod }
{
    Post {
        op,
        op_mod: 0,
        in_mod,
        in_param: inbox,
        out_param: 0,
    }
}

// A command that names the outbox.
pub fn with_out(outbox: u64, op: u16, in_mod: u32) -> Post
    ensures { result ≡ names_out outbox op in_mod }
{
    Post {
        op,
        op_mod: 0,
        in_mod,
        in_param: 0,
        out_param: outbox,
    }
}

// The catastrophic buffer that a Timeout reads: none on a silent session.
pub fn catas_for(wire: Wire) -> Catas
    ensures { result ≡ catas_for wire }
{
    if wire.silent {
        return Catas::Unknown;
    }
    wire.catas
}

// The end of the command was seen: it has a status.
pub fn end_seen(r: CmdResult) -> bool
    ensures { result ≡ end_seen r }
{
    match r {
        CmdResult::Done(_, _) => true,
        CmdResult::Status(_, _) => true,
        CmdResult::Timeout(_) => false,
        CmdResult::Busy => false,
        CmdResult::Bus(_) => false,
    }
}

// The bytes of a buffer, modulo 2^64: one that was made has no more.
pub fn bytes(b: Buffer) -> u64
    ensures { result ≡ bytes_in b }
{
    b.pages % 0x10_0000_0000_0000 * dma::PAGE
}

// The refusal of a buffer that was not to be had: 5 or 18.
pub fn fault_of(f: Fault) -> Refusal
    ensures { result ≡ fault_of f }
{
    match f {
        Fault::Memory => Refusal::Memory,
        Fault::Address => Refusal::Address,
    }
}

// The refusal of a command that was not good: 6 to 9.
pub fn failure_of(r: CmdResult) -> Refusal
    ensures { result ≡ failure_of r }
{
    match r {
        CmdResult::Done(_, us) => Refusal::Bus(us),
        CmdResult::Status(s, us) => Refusal::Status(s, us),
        CmdResult::Timeout(us) => Refusal::Timeout(us),
        CmdResult::Busy => Refusal::Busy,
        CmdResult::Bus(us) => Refusal::Bus(us),
    }
}

// After every failure but a status the card needs a reset.
pub fn needs_reset(r: CmdResult) -> bool
    ensures { result ≡ needs_reset r }
{
    match r {
        CmdResult::Done(_, _) => false,
        CmdResult::Status(_, _) => false,
        CmdResult::Timeout(_) => true,
        CmdResult::Busy => true,
        CmdResult::Bus(_) => true,
    }
}

// The immediate of a good command.
pub fn immediate(r: CmdResult) -> u64
    ensures { result ≡ immediate_of r }
{
    match r {
        CmdResult::Done(x, _) => x,
        CmdResult::Status(_, _) => 0,
        CmdResult::Timeout(_) => 0,
        CmdResult::Busy => 0,
        CmdResult::Bus(_) => 0,
    }
}

fn no_memory() -> Made
    ensures { result ≡ no_memory }
{
    Made::Refused(Fault::Memory)
}

// How the making of a buffer has ended; a plan's own tasks end in their own kind, and any other counts as failed.
pub fn made_in(end: End) -> Made
    ensures { result ≡ made_in end }
{
    match end {
        End::Made(x) => x,
        End::Attr(_) => no_memory(),
        End::Claim(_) => no_memory(),
        End::Reset(_) => no_memory(),
        End::Bar(_) => no_memory(),
        End::Freed => no_memory(),
        End::Looked(_) => no_memory(),
        End::Cmd(_) => no_memory(),
        End::Parted => no_memory(),
    }
}

// The buffer of a slot.
pub fn buffer_of(x: Slot) -> Buffer
    ensures { result ≡ buffer_of x }
{
    Buffer {
        handle: x.handle,
        dev: x.dev,
        pages: x.pages,
    }
}

impl Core {
    // The head of a session that was not opened yet.
    pub fn fresh() -> Core
        ensures { full result none_behind ≡ fresh }
    {
        Core {
            stage: Stage::Fresh,
            task: Task::Rest,
            wire: Wire {
                toggle: true,
                running: false,
                broken: false,
                silent: false,
                catas: Catas::Unknown,
            },
            ranges: 0,
            lends: 0,
            started: false,
            original: 0,
            uar: Pick {
                index: 0,
                size: None,
                how: How::NoMatch,
            },
            func: FuncInfo {
                rsvd_eqs: 0,
                max_eqs: 0,
                rsvd_uars: 0,
            },
            rev3: false,
            failure: Failure::Nothing,
            closing: Closing::Clean,
        }
    }

    // A task is under way, and what it is for.
    pub fn start(self, stage: Stage, task: Task) -> Core
        ensures { result ≡ start_of self stage task }
    {
        Core {
            stage,
            task,
            ..self
        }
    }

    // A command begins.
    pub fn send(self, stage: Stage, post: Post) -> Core
        ensures { result ≡ send_of self stage post }
    {
        let wire = self.wire;
        self.start(
            stage,
            Task::Cmd(Cmd::new(post, wire.toggle, catas_for(wire))),
        )
    }

    // A command has ended: the toggle is its own, and it may still run where its end was not seen.
    pub fn took(self, end: CmdEnd) -> Core
        ensures { result ≡ took_by self end }
    {
        let was = self.wire;
        let result = end.result;
        let wire = Wire {
            toggle: end.toggle,
            running: !end_seen(result),
            ..was
        };
        Core { wire, ..self }
    }

    // The card can no longer be trusted with commands.
    pub fn breaks(self) -> Core
        ensures { result ≡ break_of self }
    {
        let was = self.wire;
        let wire = Wire {
            broken: true,
            ..was
        };
        Core { wire, ..self }
    }

    // But for a status, a command that failed breaks the session.
    pub fn broken_by(self, r: CmdResult) -> Core
        ensures { FullIs result (λ b. bookkeeps (full self b) (broken_by r (full self b).books)) }
    {
        if needs_reset(r) {
            return self.breaks();
        }
        self
    }

    // A quiesce has begun.
    pub fn silenced(self) -> Core
        ensures { result ≡ silence_of self }
    {
        let was = self.wire;
        let wire = Wire {
            silent: true,
            ..was
        };
        Core { wire, ..self }
    }

    // One lent buffer more, which is in its slot; a full list stays as it is.
    pub fn lend(self) -> Core
        ensures { FullIs result (λ b. bookkeeps (full self b) (lent_to (full self b).books)) }
    {
        let n = self.lends;
        if n < Slot::LENT {
            return Core {
                lends: n + 1,
                ..self
            };
        }
        self
    }
}

impl Plan {
    // Nothing is written to the mailboxes.
    pub fn new(core: Core, undo: usize) -> Plan
        ensures { result ≡ leads core Nothing undo }
    {
        Plan {
            core,
            fill: Fill::Nothing,
            undo,
        }
    }
}
