// What a call and an answer on the bytes of a session share: the room for what it says, and a session that was never opened.
#![tactic(auto)]

ghost use Rattle.std.specs.Prelude.{◌≡◌};
ghost use Rattle.abi.specs.Turns as c;
ghost use Rattle.abi.specs.Kept as k;

use abi::SHORT;
use words::STATE_BYTES;

// The bytes of what a call says: the question in four words, and how many undo records are left.
pub const TURN: usize = 40;

// A session that was never opened.
pub fn fresh_bytes(state: &mut [u8]) -> u32
    ensures value { result ≡ c.fresh_code state.old }
    ensures state_after { state.new ≡ c.fresh_in state.old }
    ensures fresh { k.Fresh result state.new }
{
    if state.len() < STATE_BYTES {
        return SHORT;
    }
    words_session::put_fresh(state);
    0
}
