// An answer to the open question as its kind and its values: a command that goes on touches its own words alone; every other answer goes by the head.
#![tactic(auto)]

ghost use Rattle.std.specs.Prelude.{◌≡◌};
ghost use Rattle.words_calls.specs.Calls.{heard_of};
ghost use Rattle.abi.specs.Turns as t;
ghost use Rattle.abi.specs.Calls as c;
ghost use Rattle.abi.specs.Kept as k;

use abi::WRONG;
use session::Top;
use words_calls::Heard;

// An answer as its kind and two values, by the head.
fn answered_whole(
    state: &mut [u8],
    kind: u32,
    a: u64,
    b: u64,
    resource: &[u8],
    inbox: &mut [u8],
    outbox: &mut [u8],
    top: Top,
    out: &mut [u8],
) -> u32
    ensures out_after { t.after result state.new inbox.new outbox.new out.new ≡ c.whole_by (heard_of kind a b) resource.now top state.old inbox.old outbox.old out.old }
    ensures holds { k.Holds state.old state.new (k.heard_next (heard_of kind a b) resource.now top inbox.old outbox.old out.old) }
{
    match words_calls::answer_from(kind, a, b) {
        Heard::Told(x) => fw::answer(state, x, resource, inbox, outbox, top, out),
        Heard::Unknown => WRONG,
    }
}

// An answer as its kind and two values: a command that goes on touches its own words alone.
pub fn answered(
    state: &mut [u8],
    kind: u32,
    a: u64,
    b: u64,
    resource: &[u8],
    inbox: &mut [u8],
    outbox: &mut [u8],
    top: Top,
    out: &mut [u8],
) -> u32
    ensures { (t.after result state.new inbox.new outbox.new out.new ≡ c.told kind a b resource.now top state.old inbox.old outbox.old out.old) × k.Holds state.old state.new (k.heard_next (heard_of kind a b) resource.now top inbox.old outbox.old out.old) }
{
    if in_place::is_ready(state, inbox, outbox, top.count, out) {
        let next = in_place::next_at(state, kind, a);
        if in_place::goes_on(next) {
            return in_place::go_on(state, next, top.count, out);
        }
        return answered_whole(state, kind, a, b, resource, inbox, outbox, top, out);
    }
    answered_whole(state, kind, a, b, resource, inbox, outbox, top, out)
}
