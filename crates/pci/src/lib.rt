// The questions that a session asks and the answers it takes. A session touches no bus: the shell does what a question says and hands in the answer.
#![tactic(auto)]

ghost use Rattle.std.specs.Prelude.{◌≡◌};
ghost use Rattle.fields.specs.Outcome.{number_of};
ghost use Rattle.pci.specs.Refusals.{refusal};
ghost use Rattle.pci.specs.Views.{word_of, dword_of, qword_of, done_of, told_of, granted_of, mapped_of, list_of};
ghost use Rattle.pci.specs.Suits.{is_kind, suits_of};

// One kind for each bus call, a fence, and finished. Registers carry their value as the bus does.
#[derive(Clone, Copy)]
pub enum Question {
    ConfigRead16(u16),
    ConfigRead32(u16),
    ConfigWrite16(u16, u16),
    ConfigWrite32(u16, u32),
    // BAR and offset.
    RegRead(u8, u64),
    RegWrite(u8, u64, u32),
    // Operation (0 get, 1 set, 2 enable, 4 supported) and value.
    Attributes(u8, u64),
    // The resource list of a BAR index; its bytes are lent beside the answer.
    Resource(u8),
    // Microseconds.
    Stall(u32),
    // Pages, to be zeroed.
    Allocate(u64),
    // Handle and bytes.
    Map(u64, u64),
    Unmap(u64),
    // Handle and pages.
    Free(u64, u64),
    // The mailboxes are copied to the device, and back.
    Fence,
    // Nothing is asked: the call has its result.
    Finished,
}

// What the shell says: one kind for each kind of reply.
#[derive(Clone, Copy)]
pub enum Answer {
    Word(u16),
    Dword(u32),
    Qword(u64),
    // A call that gives no value was good.
    Done,
    Failed,
    Handle(u64),
    // The device address and the bytes that were mapped.
    Mapped(u64, u64),
    // The resource list is lent beside the answer.
    List,
}

// What stops a session, with the values beside it; microseconds are the last value.
#[derive(Clone, Copy)]
pub enum Refusal {
    Attributes,
    Owner,
    Reset,
    Bar,
    Memory,
    Status(u8, u64),
    Timeout(u64),
    Busy,
    Bus(u64),
    NotPrimary,
    Revision(u16),
    MinPage(u8),
    Ports(u8),
    Uar(u8),
    UarArea(u64),
    Entry(usize),
    Total(u64),
    Address,
    Full,
    Wrong,
    Short,
    Opcode,
    Undo,
    List,
}

impl Refusal {
    // Document 01's number.
    pub fn number(self) -> u32
        ensures { result ≡ number_of {A = Unit {0}} (refusal self) }
    {
        match self {
            Refusal::Attributes => 1,
            Refusal::Owner => 2,
            Refusal::Reset => 3,
            Refusal::Bar => 4,
            Refusal::Memory => 5,
            Refusal::Status(_, _) => 6,
            Refusal::Timeout(_) => 7,
            Refusal::Busy => 8,
            Refusal::Bus(_) => 9,
            Refusal::NotPrimary => 10,
            Refusal::Revision(_) => 11,
            Refusal::MinPage(_) => 12,
            Refusal::Ports(_) => 13,
            Refusal::Uar(_) => 14,
            Refusal::UarArea(_) => 15,
            Refusal::Entry(_) => 16,
            Refusal::Total(_) => 17,
            Refusal::Address => 18,
            Refusal::Full => 19,
            Refusal::Wrong => 20,
            Refusal::Short => 21,
            Refusal::Opcode => 22,
            Refusal::Undo => 23,
            Refusal::List => 27,
        }
    }
}

// Why an answer gives no reply: the call failed, or the answer is of another kind than the question, which is 20.
#[derive(Clone, Copy)]
pub enum NoReply {
    Failed,
    Wrong,
}

// What an answer says to a question of each kind. These are one function a kind: each takes another variant out, which no parameter of a generic one can name.

// To a config read of 16 bits.
pub fn as_word(a: Answer) -> Result<u16, NoReply>
    ensures { result ≡ word_of a }
{
    match a {
        Answer::Word(x) => Ok(x),
        Answer::Failed => Err(NoReply::Failed),
        _ => Err(NoReply::Wrong),
    }
}

// To a config read of 32 bits, or a register read.
pub fn as_dword(a: Answer) -> Result<u32, NoReply>
    ensures { result ≡ dword_of a }
{
    match a {
        Answer::Dword(x) => Ok(x),
        Answer::Failed => Err(NoReply::Failed),
        _ => Err(NoReply::Wrong),
    }
}

// To an attribute call.
pub fn as_qword(a: Answer) -> Result<u64, NoReply>
    ensures { result ≡ qword_of a }
{
    match a {
        Answer::Qword(x) => Ok(x),
        Answer::Failed => Err(NoReply::Failed),
        _ => Err(NoReply::Wrong),
    }
}

// To a write, an unmap or a free.
pub fn as_done(a: Answer) -> Result<(), NoReply>
    ensures { result ≡ done_of a }
{
    match a {
        Answer::Done => Ok(()),
        Answer::Failed => Err(NoReply::Failed),
        _ => Err(NoReply::Wrong),
    }
}

// To a stall or a fence, which cannot fail: false where the answer is of another kind.
pub fn as_told(a: Answer) -> bool
    ensures { result ≡ told_of a }
{
    matches!(a, Answer::Done)
}

// To an allocation.
pub fn as_handle(a: Answer) -> Result<u64, NoReply>
    ensures { result ≡ granted_of a }
{
    match a {
        Answer::Handle(x) => Ok(x),
        Answer::Failed => Err(NoReply::Failed),
        _ => Err(NoReply::Wrong),
    }
}

// To a map: the device address and the bytes that were mapped.
pub fn as_map(a: Answer) -> Result<(u64, u64), NoReply>
    ensures { result ≡ mapped_of a }
{
    match a {
        Answer::Mapped(x, y) => Ok((x, y)),
        Answer::Failed => Err(NoReply::Failed),
        _ => Err(NoReply::Wrong),
    }
}

// To a question for a BAR resource.
pub fn as_list(a: Answer) -> Result<(), NoReply>
    ensures { result ≡ list_of a }
{
    match a {
        Answer::List => Ok(()),
        Answer::Failed => Err(NoReply::Failed),
        _ => Err(NoReply::Wrong),
    }
}

// The answer was of the right kind, good or failed.
fn is_kind<T: Copy>(r: Result<T, NoReply>) -> bool
    ensures { result ≡ is_kind r }
{
    !matches!(r, Err(NoReply::Wrong))
}

// The answer is of the right kind for the question; else it is 20.
pub fn suits(q: Question, a: Answer) -> bool
    ensures { result ≡ suits_of q a }
{
    match q {
        Question::ConfigRead16(_) => is_kind(as_word(a)),
        Question::ConfigRead32(_) | Question::RegRead(..) => is_kind(as_dword(a)),
        Question::ConfigWrite16(..) | Question::ConfigWrite32(..) | Question::RegWrite(..) =>
            is_kind(as_done(a)),
        Question::Unmap(_) | Question::Free(..) => is_kind(as_done(a)),
        Question::Attributes(..) => is_kind(as_qword(a)),
        Question::Resource(_) => is_kind(as_list(a)),
        Question::Stall(_) | Question::Fence => as_told(a),
        Question::Allocate(_) => is_kind(as_handle(a)),
        Question::Map(..) => is_kind(as_map(a)),
        Question::Finished => false,
    }
}
