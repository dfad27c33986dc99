// What a function over C linkage does to the bytes it is lent: `specs/Turns.antt` a call and an answer on the bytes of a session, `specs/Calls.antt` the same from numbers
// and from the caller's undo list, `specs/Readers.antt` what is read of a session; `proofs/` has that a call that is refused leaves everything, and that a command that
// goes on is answered from its own words as from the whole session.
#![tactic(auto)]

use calls_plan::Call;

// A call at the wrong time, bytes that are no session, an answer of the wrong kind.
pub const WRONG: u32 = 20;

// A slice is too short.
pub const SHORT: u32 = 21;

// A call as it is wanted; `Unknown` where its kind has no such number.
#[derive(Clone, Copy)]
pub enum Wanted {
    Known(Call),
    Unknown,
}
