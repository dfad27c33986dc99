// The session over C linkage: functions over numbers, byte slices and the caller's undo records. Between two calls the session is bytes that the caller keeps; a call
// reads them, and writes them again unless it is refused: where they held a session, they then hold what the call has made of it. Each function gives 0, or document
// 01's number.
#![tactic(auto)]

ghost use Rattle.std.specs.Prelude.{◌≡◌, length};
ghost use Rattle.fields.specs.Outcome.{number_of};
ghost use Rattle.undo.specs.List.{undo_of, top_of, push_of, pushed_in};
ghost use Rattle.abi.specs.Turns as t;
ghost use Rattle.abi.specs.Readers as r;
ghost use Rattle.abi.specs.Calls as c;
ghost use Rattle.abi.specs.Kept as k;

use undo::Undo;

// A session that was never opened.
#[unsafe(no_mangle)]
pub extern "C" fn hca_fresh(state: &mut [u8]) -> u32
    ensures value { result ≡ t.fresh_code state.old }
    ensures state_after { state.new ≡ t.fresh_in state.old }
    ensures fresh { k.Fresh result state.new }
{
    turns::fresh_bytes(state)
}

// Makes a call: its kind; the opcode, its modifier and the input modifier of a command; a value (a command's input parameter, the bytes to be lent, the mark that is
// undone to); the bytes of a command's input; and the undo list as it is lent now.
#[unsafe(no_mangle)]
pub extern "C" fn hca_call(
    state: &mut [u8],
    kind: u32,
    op: u16,
    op_mod: u8,
    in_mod: u32,
    value: u64,
    input: &[u8],
    inbox: &mut [u8],
    outbox: &mut [u8],
    list: &[Undo],
    count: usize,
    out: &mut [u8],
) -> u32
    ensures { (t.after result state.new inbox.new outbox.new out.new ≡ c.call kind op op_mod in_mod value input.now list.now count state.old inbox.old outbox.old out.old) × k.Holds state.old state.new (k.call_now kind op op_mod in_mod value input.now list.now count inbox.old outbox.old out.old) }
{
    let top = undo::top(list, count);
    let reserved = undo::reserved_above(list, turn_call::mark_of(value), count);
    turn_call::called(
        state, kind, op, op_mod, in_mod, value, reserved, input, inbox, outbox, top, out,
    )
}

// Answers the open question: the kind of the answer, two values, the bytes of a resource list, and the undo list as it is lent now.
#[unsafe(no_mangle)]
pub extern "C" fn hca_answer(
    state: &mut [u8],
    kind: u32,
    a: u64,
    b: u64,
    resource: &[u8],
    inbox: &mut [u8],
    outbox: &mut [u8],
    list: &[Undo],
    count: usize,
    out: &mut [u8],
) -> u32
    ensures { (t.after result state.new inbox.new outbox.new out.new ≡ c.told kind a b resource.now (top_of list.now count) state.old inbox.old outbox.old out.old) × k.Holds state.old state.new (k.answer_now kind a b resource.now list.now count inbox.old outbox.old out.old) }
{
    let top = undo::top(list, count);
    turn_answer::answered(state, kind, a, b, resource, inbox, outbox, top, out)
}

// Pushes an undo record on the caller's list: it stands at the place `count`, and the caller's count is then one more.
#[unsafe(no_mangle)]
pub extern "C" fn hca_push_undo(
    list: &mut [Undo],
    count: usize,
    op: u16,
    op_mod: u8,
    in_mod: u32,
    in_param: u64,
) -> u32
    ensures value { result ≡ number_of (push_of (length list.old) count op) }
    ensures list_after { list.new ≡ pushed_in list.old count (undo_of op op_mod in_mod in_param) }
{
    let u = Undo {
        op,
        op_mod,
        in_mod,
        in_param,
    };
    undo::number(undo::push_undo(list, count, u))
}

// The question that is open: its kind and three values.
#[unsafe(no_mangle)]
pub extern "C" fn hca_question(state: &[u8], out: &mut [u8]) -> u32
    ensures value { result ≡ (r.question state.now out.old).code }
    ensures out_after { out.new ≡ (r.question state.now out.old).out }
{
    readers::question_bytes(state, out)
}

// What has become of the session: its kind, the refusal and its two values, and how the closing went.
#[unsafe(no_mangle)]
pub extern "C" fn hca_result(state: &[u8], out: &mut [u8]) -> u32
    ensures value { result ≡ (r.result state.now out.old).code }
    ensures out_after { out.new ≡ (r.result state.now out.old).out }
{
    readers::result_bytes(state, out)
}

// What the opening has found out, of a session that is open.
#[unsafe(no_mangle)]
pub extern "C" fn hca_setup(state: &[u8], out: &mut [u8]) -> u32
    ensures value { result ≡ (r.setup state.now out.old).code }
    ensures out_after { out.new ≡ (r.setup state.now out.old).out }
{
    readers::setup_bytes(state, out)
}

// What the session holds: all of the books but the arrays in 32 words, then the ranges in four words each, then the lent buffers in three.
#[unsafe(no_mangle)]
pub extern "C" fn hca_books(state: &[u8], out: &mut [u8]) -> u32
    ensures value { result ≡ (r.books state.now out.old).code }
    ensures out_after { out.new ≡ (r.books state.now out.old).out }
{
    readers::books_bytes(state, out)
}
