// A call as its kind and its values, on the session that bytes hold.
#![tactic(auto)]

ghost use Rattle.std.specs.Prelude.{◌≡◌};
ghost use Rattle.abi.specs.Turns as t;
ghost use Rattle.abi.specs.Calls as c;
ghost use Rattle.abi.specs.Kept as k;

use abi::Wanted;
use calls_plan::Call;
use client_plan::Request;
use session::{Form, Top};

// The mark that a value stands for.
pub fn mark_of(value: u64) -> usize
    ensures { result ≡ value }
{
    value as usize
}

// A client's command.
fn command(form: Form, op: u16, op_mod: u8, in_mod: u32, in_param: u64) -> Wanted
    ensures { c.call_as result ≡ c.command_from form op op_mod in_mod in_param }
{
    let r = Request {
        form,
        op,
        op_mod,
        in_mod,
        in_param,
    };
    Wanted::Known(Call::Command(r))
}

// The call of a kind with its values; those that its kind has not are not looked at. `reserved` is whether an undo record above the mark has a reserved opcode.
fn call_from(kind: u32, op: u16, op_mod: u8, in_mod: u32, value: u64, reserved: bool) -> Wanted
    ensures { c.call_as result ≡ c.call_from kind op op_mod in_mod value reserved }
{
    match kind {
        0 => Wanted::Known(Call::Open),
        1 => command(Form::Imm, op, op_mod, in_mod, value),
        2 => command(Form::WithIn, op, op_mod, in_mod, value),
        3 => command(Form::WithOut, op, op_mod, in_mod, value),
        4 => command(Form::InImm, op, op_mod, in_mod, value),
        5 => command(Form::InOut, op, op_mod, in_mod, value),
        6 => Wanted::Known(Call::Lend(value)),
        7 => Wanted::Known(Call::UndoTo(mark_of(value), reserved)),
        8 => Wanted::Known(Call::Quiesce),
        9 => Wanted::Known(Call::Close),
        _ => Wanted::Unknown,
    }
}

// A call as its kind and its values, with what it takes of the undo list.
pub fn called(
    state: &mut [u8],
    kind: u32,
    op: u16,
    op_mod: u8,
    in_mod: u32,
    value: u64,
    reserved: bool,
    input: &[u8],
    inbox: &mut [u8],
    outbox: &mut [u8],
    top: Top,
    out: &mut [u8],
) -> u32
    ensures { (t.after result state.new inbox.new outbox.new out.new ≡ c.made kind op op_mod in_mod value reserved input.now top state.old inbox.old outbox.old out.old) × k.Holds state.old state.new (k.wanted_next (c.call_from kind op op_mod in_mod value reserved) input.now top inbox.old outbox.old out.old) }
{
    match call_from(kind, op, op_mod, in_mod, value, reserved) {
        Wanted::Known(x) => calls::make(state, x, input, inbox, outbox, top, out),
        Wanted::Unknown => abi::WRONG,
    }
}
