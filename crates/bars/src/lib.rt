// PCI base address registers: the address in one, the firmware's resource list of one, the two indices
// that PCI I/O may know it by, and the choice between them as steps by value.
#![tactic(auto)]

ghost use Rattle.std.specs.Prelude.{◌≡◌, ◌<◌, ◌≤◌, length};
ghost use Rattle.fields.specs.Outcome.{value_or};
ghost use Rattle.fields.specs.Fields.{field_at};
ghost use Rattle.fields.specs.declared.Order.TheVariants.{Little};
ghost use Rattle.bars.specs.Bars.{is64, low_part, high_part, base_of, base_at, address, count_of, candidates_at, indices};
ghost use Rattle.bars.specs.Resource.{resource_at, memory_in, length_in, listed};
ghost use Rattle.bars.specs.Choose.{has_base, is_other, others_from};
ghost use Rattle.bars.specs.Steps.{size_from, pick_of, settled_of, onward_of, judged_of, step_at, step_of, choose_at, begun};
ghost use Rattle.bars.specs.declared.Asking.TheVariants.{First, Other};

// The last BAR register, and how many indices PCI I/O has.
pub const LAST: usize = 5;

const INDICES: u8 = 6;

// A register above 5: 4.
#[derive(Clone, Copy)]
pub struct BadRegister;

// A resource list that is damaged or cut: 27.
#[derive(Clone, Copy)]
pub struct BadList;

// The two indices that a BAR may have.
#[derive(Clone, Copy)]
pub struct Indices {
    pub first: u8,
    pub second: u8,
}

// The range of a BAR.
#[derive(Clone, Copy)]
pub struct BarRange {
    pub base: u64,
    pub length: u64,
}

impl BarRange {
    // A QWORD address space descriptor: its tag, the bytes of its header, where its type stands, and
    // the type of a memory range.
    pub const TAG: u8 = 0x8a;

    pub const HEADER: usize = 3;

    pub const TYPE: usize = 3;

    pub const MEMORY: u8 = 0;

    // The bytes that a range has behind the header at least, and where its fields stand.
    pub const LEAST: usize = 43;

    pub const MINIMUM: usize = 14;

    pub const OFFSET: usize = 30;

    pub const LENGTH: usize = 38;
}

// How an index was chosen: a candidate's base matches, or that of another index; only this candidate answered; both did, and neither base
// matches; none did.
#[derive(Clone, Copy)]
pub enum How {
    BaseMatches,
    Scan,
    OnlyAnswer,
    NoMatch,
    NoAnswer,
}

// The chosen index, and the length that PCI I/O gave for it, if it gave one.
#[derive(Clone, Copy)]
pub struct Pick {
    pub index: u8,
    pub size: Option<u64>,
    pub how: How,
}

// One of the two indices that a BAR may have, and what was said about it: the range of the BAR, or no answer.
#[derive(Clone, Copy)]
pub struct Candidate {
    pub index: u8,
    pub answer: Option<BarRange>,
}

// The question that is open: the first candidate, the second, or another index.
#[derive(Clone, Copy)]
pub enum Asking {
    First,
    Second,
    Other(u8),
}

// A choice under way: the base in the registers, the candidates, and the open question.
#[derive(Clone, Copy)]
pub struct Choice {
    pub base: u64,
    pub first: Candidate,
    pub second: Candidate,
    pub asking: Asking,
}

// What an answer leads to: the next index to ask about, or the pick.
#[derive(Clone, Copy)]
pub enum Next {
    Ask(u8, Choice),
    Picked(Pick),
}

// A BAR dword is 64-bit.
pub fn is_64bit(dword: u32) -> bool
    ensures { result ≡ is64 dword }
{
    dword % 8 == 4
}

// The address bits of a dword: all but the two low ones of an I/O BAR, all but the four low ones of a memory BAR.
fn low(dword: u32) -> u32
    ensures { result ≡ low_part dword }
{
    if dword % 2 == 1 {
        dword / 4 * 4
    } else {
        dword / 16 * 16
    }
}

// The high half of the address: the next dword of a 64-bit BAR, which register 5 does not have.
fn high(regs: [u32; 6], reg: usize) -> u32
    requires { reg ≤ 5 }
    ensures { result ≡ high_part regs reg }
{
    if reg < LAST && is_64bit(regs[reg]) {
        regs[reg + 1]
    } else {
        0
    }
}

// The address in the BAR that starts at register reg.
fn whole(regs: [u32; 6], reg: usize) -> u64
    requires { reg ≤ 5 }
    ensures { result ≡ base_of regs reg }
{
    high(regs, reg) as u64 * 4294967296 + low(regs[reg]) as u64
}

// The address in a BAR; 4 for a register above 5.
pub fn base(regs: [u32; 6], reg: usize) -> Result<u64, BadRegister>
    ensures { address result ≡ base_at regs reg }
{
    if LAST < reg {
        return Err(BadRegister);
    }
    Ok(whole(regs, reg))
}

// How many BARs start before register reg: each dword starts one, unless it is the high half of a 64-bit one.
fn count(regs: [u32; 6], reg: usize) -> u8
    requires { reg ≤ 5 }
    ensures { result ≡ count_of regs reg }
{
    let mut n: u8 = 0;
    let mut half = false;
    for dword in &regs[..reg] {
        if half {
            half = false;
        } else {
            n += 1;
            half = is_64bit(*dword);
        }
    }
    n
}

// The indices that the BAR at register reg may have: its register number, or the count of BARs before it; 4 for a register above 5.
pub fn candidates(regs: [u32; 6], reg: usize) -> Result<Indices, BadRegister>
    ensures { indices result ≡ candidates_at regs reg }
{
    if LAST < reg {
        return Err(BadRegister);
    }
    Ok(Indices {
        first: reg as u8,
        second: count(regs, reg),
    })
}

// The little-endian 64 bits at off, or 0 where they pass the end.
fn number(bytes: &[u8], off: usize) -> u64
    ensures { result ≡ value_or 0 (field_at Little bytes.now off 8) }
{
    fields::le64(bytes, off).unwrap_or(0)
}

// How many bytes a descriptor has behind its header.
fn length_of(descriptor: &[u8]) -> usize
    requires { 3 ≤ length descriptor.now }
    ensures { (result ≡ length_in descriptor.now) × (result < 65536) }
{
    usize::from(fields::le16(descriptor, 1).unwrap_or(0))
}

// The range that a memory descriptor gives; 27 where it is too short for one, or not whole.
fn memory(descriptor: &[u8]) -> Result<Option<BarRange>, BadList>
    requires { 3 ≤ length descriptor.now }
    ensures { listed result ≡ memory_in descriptor.now }
{
    let n = length_of(descriptor);
    if n < BarRange::LEAST || descriptor.len() < BarRange::HEADER + n {
        return Err(BadList);
    }
    let minimum = number(descriptor, BarRange::MINIMUM);
    let offset = number(descriptor, BarRange::OFFSET);
    Ok(Some(BarRange {
        base: std::num::wrapping_add_u64(minimum, offset),
        length: number(descriptor, BarRange::LENGTH),
    }))
}

// Walks a resource list to the first memory descriptor, and gives its range. The end tag and an unknown tag are no
// answer; what follows is not looked at. 27 where the list is damaged or cut.
pub fn resource(bytes: &[u8]) -> Result<Option<BarRange>, BadList>
    ensures { listed result ≡ resource_at bytes.now }
{
    let mut rest = bytes;
    // No index is counted: each descriptor says how far the next one is.
    while rest.len() > 0 {
        if rest[0] != BarRange::TAG {
            return Ok(None);
        }
        if rest.len() <= BarRange::TYPE {
            return Err(BadList);
        }
        if rest[BarRange::TYPE] == BarRange::MEMORY {
            return memory(rest);
        }
        let n = BarRange::HEADER + length_of(rest);
        if rest.len() < n {
            return Err(BadList);
        }
        rest = &rest[n..];
    }
    Err(BadList)
}

fn has_base(base: u64, answer: Option<BarRange>) -> bool
    ensures { result ≡ has_base base answer }
{
    answer.is_some_and(|r| r.base == base)
}

fn size_from(answer: Option<BarRange>) -> Option<u64>
    ensures { result ≡ size_from answer }
{
    answer.map(|r| r.length)
}

fn pick_of(c: Candidate, how: How) -> Pick
    ensures { result ≡ pick_of c how }
{
    Pick {
        index: c.index,
        size: size_from(c.answer),
        how,
    }
}

// The pick where no base matches: the only candidate that answered, or else the first.
fn settle(first: Candidate, second: Candidate) -> Pick
    ensures { result ≡ settled_of first second }
{
    match (first.answer, second.answer) {
        (Some(_), Some(_)) => pick_of(first, How::NoMatch),
        (Some(_), None) => pick_of(first, How::OnlyAnswer),
        (None, Some(_)) => pick_of(second, How::OnlyAnswer),
        (None, None) => pick_of(first, How::NoAnswer),
    }
}

// The index is neither candidate's.
fn is_other(first: u8, second: u8, index: u8) -> bool
    ensures { result ≡ is_other first second index }
{
    index != first && index != second
}

// Asks about the next index that is no candidate, starting at from, or settles where there is none below 6.
fn onward(c: Choice, from: u8) -> Next
    ensures { result ≡ onward_of c (others_from c.first.index c.second.index from) }
{
    for i in from..INDICES {
        if is_other(c.first.index, c.second.index, i) {
            return Next::Ask(
                i,
                Choice {
                    asking: Asking::Other(i),
                    ..c
                },
            );
        }
    }
    Next::Picked(settle(c.first, c.second))
}

// What follows when the candidates have been asked.
fn judge(c: Choice) -> Next
    ensures { result ≡ judged_of c }
{
    if c.base == 0 {
        Next::Picked(settle(c.first, c.second))
    } else if has_base(c.base, c.first.answer) {
        Next::Picked(pick_of(c.first, How::BaseMatches))
    } else if has_base(c.base, c.second.answer) {
        Next::Picked(pick_of(c.second, How::BaseMatches))
    } else {
        onward(c, 0)
    }
}

// The first candidate's answer: the second is asked only if it is another.
fn took_first(c: Choice, answer: Option<BarRange>) -> Next
    ensures { result ≡ step_at c answer First }
{
    let now = Choice {
        first: Candidate { answer, ..c.first },
        ..c
    };
    if c.first.index == c.second.index {
        return judge(now);
    }
    Next::Ask(
        c.second.index,
        Choice {
            asking: Asking::Second,
            ..now
        },
    )
}

// The answer about an index that is no candidate; one that PCI I/O does not have ends the scan.
fn took_other(c: Choice, index: u8, answer: Option<BarRange>) -> Next
    ensures { result ≡ step_at c answer (Other index) }
{
    if has_base(c.base, answer) {
        return Next::Picked(pick_of(Candidate { index, answer }, How::Scan));
    }
    if INDICES <= index {
        return Next::Picked(settle(c.first, c.second));
    }
    onward(c, index + 1)
}

// The choice takes the answer to its open question.
pub fn step(c: Choice, answer: Option<BarRange>) -> Next
    ensures { result ≡ step_of c answer }
{
    match c.asking {
        Asking::First => took_first(c, answer),
        Asking::Second => judge(Choice {
            second: Candidate { answer, ..c.second },
            ..c
        }),
        Asking::Other(index) => took_other(c, index, answer),
    }
}

// The choice for the BAR at register reg begins, with the first index to ask about; 4 for a register above 5.
pub fn choose(regs: [u32; 6], reg: usize) -> Result<(u8, Choice), BadRegister>
    ensures { begun result ≡ choose_at regs reg }
{
    if LAST < reg {
        return Err(BadRegister);
    }
    let first = reg as u8;
    Ok((
        first,
        Choice {
            base: whole(regs, reg),
            first: Candidate {
                index: first,
                answer: None,
            },
            second: Candidate {
                index: count(regs, reg),
                answer: None,
            },
            asking: Asking::First,
        },
    ))
}
