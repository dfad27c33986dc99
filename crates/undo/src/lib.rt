// The undo list: the caller's own slice of records, and how many of them count. `push_undo` and
// `pop_undo` are thin over the slice; what they do is decided by value. A pop reads: the slice is
// the caller's to write, and a record is off the list once he counts it no more. So a call says how
// many are left.
#![tactic(auto)]

ghost use Rattle.std.specs.Prelude.{◌≡◌, ◌-◌, length, get_or, take, drop};
ghost use Rattle.fields.specs.Outcome.{number_of};
ghost use Rattle.undo.specs.List.{none, taken, pop_by, pop_of, top_by, top_of, any_reserved};
ghost use Rattle.undo.specs.List.{outcome, push_of, pushed_in};

use session::Top;

// A command that takes back what a client did.
#[repr(C)]
#[derive(Clone, Copy)]
pub struct Undo {
    pub op: u16,
    pub op_mod: u8,
    pub in_mod: u32,
    pub in_param: u64,
}

// How many records a list holds at most.
pub const MOST: usize = 256;

// Why a record is not pushed: 21 where the count is above 256, or the slice has no place for the
// record; 22 for a reserved opcode; 19 where the list is full.
#[derive(Clone, Copy)]
pub enum PushError {
    Short,
    Opcode,
    Full,
}

// Why no record is popped: 21 where the count is above the slice or above 256.
#[derive(Clone, Copy)]
pub enum PopError {
    Short,
}

// Document 01's number of a push; 0 where the record was pushed.
pub fn number(pushed: Result<usize, PushError>) -> u32
    ensures { result ≡ number_of (outcome pushed) }
{
    match pushed {
        Ok(_) => 0,
        Err(PushError::Short) => 21,
        Err(PushError::Opcode) => 22,
        Err(PushError::Full) => 19,
    }
}

// The record at a place; one of zeros past the end.
fn record_at(list: &[Undo], i: usize) -> Undo
    ensures { result ≡ get_or list.now i none }
{
    list.get(i).copied().unwrap_or(Undo {
        op: 0,
        op_mod: 0,
        in_mod: 0,
        in_param: 0,
    })
}

// The place of the newest of so many records.
fn last_place(count: usize) -> usize
    ensures { result ≡ count - 1 }
{
    count.saturating_sub(1)
}

// A pop by value: `u` is the record at the last place. An empty list is looked for first: it is
// what most answers are lent.
fn pop_by(len: usize, count: usize, u: Undo) -> Result<Option<(Undo, usize)>, PopError>
    ensures { taken result ≡ pop_by len count u }
{
    if count == 0 {
        return Ok(None);
    }
    if len < count || MOST < count {
        return Err(PopError::Short);
    }
    Ok(Some((u, count - 1)))
}

// The newest record of the list, and how many are left once it is taken off; none of an empty list.
pub fn pop_undo(list: &[Undo], count: usize) -> Result<Option<(Undo, usize)>, PopError>
    ensures { taken result ≡ pop_of list.now count }
{
    let u = record_at(list, last_place(count));
    pop_by(list.len(), count, u)
}

// What a call takes of a pop: the count as it is lent, and the newest record. A list that is none
// counts 257, more than any list holds, so that every call refuses it with 21.
fn top_by(count: usize, p: Result<Option<(Undo, usize)>, PopError>) -> Top
    ensures { result ≡ top_by count (taken p) }
{
    match p {
        Ok(Some((u, _))) => Top {
            count,
            op: u.op,
            op_mod: u.op_mod,
            in_mod: u.in_mod,
            in_param: u.in_param,
        },
        Ok(None) => Top {
            count: 0,
            op: 0,
            op_mod: 0,
            in_mod: 0,
            in_param: 0,
        },
        Err(PopError::Short) => Top {
            count: MOST + 1,
            op: 0,
            op_mod: 0,
            in_mod: 0,
            in_param: 0,
        },
    }
}

// The count and the newest record, as a call takes them by value; whether it takes the record off
// is the call's to decide.
pub fn top(list: &[Undo], count: usize) -> Top
    ensures { result ≡ top_of list.now count }
{
    let p = pop_undo(list, count);
    top_by(count, p)
}

// Whether a record from the place `mark` on, and below the count, has a reserved opcode.
#[tactic(auto, unfolding(crate::specs::List::any_reserved))]
pub fn reserved_above(list: &[Undo], mark: usize, count: usize) -> bool
    ensures { result ≡ any_reserved (drop mark (take count list.now)) }
{
    list.iter()
        .take(count)
        .skip(mark)
        .any(|u| hcr::reserved(u.op))
}

// Where a record goes in a slice of this length. A full list asks for no place.
fn place(len: usize, count: usize, op: u16) -> Result<usize, PushError>
    ensures { outcome result ≡ push_of len count op }
{
    if MOST < count {
        return Err(PushError::Short);
    }
    if len < (count + 1).min(MOST) {
        return Err(PushError::Short);
    }
    if hcr::reserved(op) {
        return Err(PushError::Opcode);
    }
    if count == MOST {
        return Err(PushError::Full);
    }
    Ok(count + 1)
}

// Pushes a record, which gives the new count: it stands at the place `count`, or nothing is changed.
pub fn push_undo(list: &mut [Undo], count: usize, u: Undo) -> Result<usize, PushError>
    ensures { (outcome result ≡ push_of (length list.old) count u.op) × (list.new ≡ pushed_in list.old count u) }
{
    let n = place(list.len(), count, u.op)?;
    list[count] = u;
    Ok(n)
}
