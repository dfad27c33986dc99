// How a call begins: `specs/Calls.antt` says which course it has, and when it is refused; `proofs/Begins.antt` that its first question is that of the course.
#![tactic(auto)]

use client_plan::Request;

// A call. `UndoTo` has the mark, and whether a record that is wanted has a reserved opcode.
#[derive(Clone, Copy)]
pub enum Call {
    Open,
    Command(Request),
    Lend(u64),
    UndoTo(usize, bool),
    Quiesce,
    Close,
}
