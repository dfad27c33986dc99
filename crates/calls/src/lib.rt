// The calls of a session: `open`, a client's command, `lend`, `undo_to`, `quiesce` and `close`. Each works on the head by value and on the bytes, and says which question
// is open now; or it is refused, which leaves everything as it was: 20, 21, 22, 19, 18 in this order.
#![tactic(auto)]

ghost use Rattle.std.specs.Prelude.{◌≡◌};
ghost use Rattle.session.specs.declared.Failure.TheVariants.{Nothing};
ghost use Rattle.session.specs.Core.{Behind, full, plan_in, ends_as};
ghost use Rattle.behind.specs.Behind.{behind_in};
ghost use Rattle.calls_plan.specs.Calls as c;
ghost use Rattle.bytes_plan.specs.Left.{cleared_in, call_left};
ghost use Rattle.fw_begin.specs.Begins.{said_of};
ghost use Rattle.abi.specs.Turns as t;
ghost use Rattle.abi.specs.Kept as k;
ghost use Rattle.calls.specs.Begins.{behind_for, admitted_as, admitted_next};

use abi::{SHORT, WRONG};
use calls_plan::Call;
use client_plan::Request;
use fw_begin::Said;
use fw_plan::Lent;
use pci::Refusal;
use session::{Core, Failure, Plan, Stage, Top};
use words_session::Kept;

fn is_fresh(stage: Stage) -> bool
    ensures { result ≡ c.is_fresh stage }
{
    match stage {
        Stage::Fresh => true,
        Stage::Open(_) => false,
        Stage::Ended => false,
        Stage::Prepare(_) => false,
        Stage::Boot(_) => false,
        Stage::Client(_) => false,
        Stage::Close(_) => false,
    }
}

fn is_open(stage: Stage) -> bool
    ensures { result ≡ c.is_open stage }
{
    match stage {
        Stage::Fresh => false,
        Stage::Open(_) => true,
        Stage::Ended => false,
        Stage::Prepare(_) => false,
        Stage::Boot(_) => false,
        Stage::Client(_) => false,
        Stage::Close(_) => false,
    }
}

// An opening takes a session that was never opened, every other call one that is open and idle.
fn is_time(stage: Stage, call: Call) -> bool
    ensures { result ≡ c.is_time stage call }
{
    match call {
        Call::Open => is_fresh(stage),
        Call::Command(_) => is_open(stage),
        Call::Lend(_) => is_open(stage),
        Call::UndoTo(_, _) => is_open(stage),
        Call::Quiesce => is_open(stage),
        Call::Close => is_open(stage),
    }
}

// It is the time for the call; else it is refused with 20.
pub fn callable(s: Core, call: Call) -> bool
    ensures { (b : Behind) → result ≡ c.callable (full s b) call }
{
    let stage = s.stage;
    if fw_begin::is_session(s) {
        return is_time(stage, call);
    }
    false
}

// The session is open and idle.
pub fn is_idle(s: Core) -> bool
    ensures { (b : Behind) → result ≡ c.is_idle (full s b) }
{
    let stage = s.stage;
    if fw_begin::is_session(s) {
        return is_open(stage);
    }
    false
}

fn fits_inbox(r: Request, input: &[u8]) -> bool
    ensures { result ≡ c.fits_inbox r input.now }
{
    let form = r.form;
    if client::takes_input(form) {
        return input.len() <= Lent::MAILBOX;
    }
    true
}

// The input of a command has room in the inbox; else it is refused with 21.
fn has_room(call: Call, input: &[u8]) -> bool
    ensures { result ≡ c.has_room call input.now }
{
    match call {
        Call::Open => true,
        Call::Command(r) => fits_inbox(r, input),
        Call::Lend(_) => true,
        Call::UndoTo(_, _) => true,
        Call::Quiesce => true,
        Call::Close => true,
    }
}

// 22 for a reserved opcode.
fn by_opcode(reserved: bool) -> Failure
    ensures { result ≡ c.by_opcode reserved }
{
    if reserved {
        return Failure::By(Refusal::Opcode);
    }
    Failure::Nothing
}

// 19 where the lent list is full, 18 for more bytes than pages can have.
fn by_list(lends: usize, bytes: u64) -> Failure
    ensures { result ≡ c.by_list lends bytes }
{
    if Lent::BUFFERS <= lends {
        return Failure::By(Refusal::Full);
    }
    match dma::pages_of(bytes) {
        Ok(_) => Failure::Nothing,
        Err(_) => Failure::By(Refusal::Address),
    }
}

// Why the call is refused before its first question, though it is the time for it and all is lent.
fn barred(s: Core, call: Call) -> Failure
    ensures { (b : Behind) → result ≡ c.barred (full s b) call }
{
    match call {
        Call::Open => Failure::Nothing,
        Call::Command(r) => by_opcode(hcr::reserved(r.op)),
        Call::Lend(bytes) => by_list(s.lends, bytes),
        Call::UndoTo(_, reserved) => by_opcode(reserved),
        Call::Quiesce => Failure::Nothing,
        Call::Close => Failure::Nothing,
    }
}

// The session without the failure of an earlier call.
fn without_failure(s: Core) -> Core
    ensures { result ≡ ends_as s Nothing s.closing }
{
    Core {
        failure: Failure::Nothing,
        ..s
    }
}

// How the call begins. Of an opening, what stands behind the head was cleared before.
fn plan(s: Core, call: Call, top: Top, m: &[u8]) -> Plan
    ensures { (b : Behind) → behind_in m.now ≡ behind_for call b
        → plan_in result (behind_in m.now) ≡ c.plan_for (full s b) call top }
{
    match call {
        Call::Open => preparing::open(Core::fresh(), top),
        Call::Command(r) => client::command(s, r, top.count, m),
        Call::Lend(bytes) => client::lend(s, bytes, top.count),
        Call::UndoTo(mark, _) => client::undo_to(s, mark, top),
        Call::Quiesce => closing::quiesce(s, top, m),
        Call::Close => closing::stop(without_failure(s), top, m),
    }
}

// A command's input stands at the start of a zeroed inbox.
fn write_input(r: Request, input: &[u8], inbox: &mut [u8])
    ensures { inbox.new ≡ c.input_for r input.now inbox.old }
{
    let form = r.form;
    if client::takes_input(form) {
        fields::zero(inbox);
        client::copy(inbox, input);
    }
}

fn ready(call: Call, input: &[u8], inbox: &mut [u8])
    ensures { inbox.new ≡ c.ready_in call input.now inbox.old }
{
    match call {
        Call::Open => {}
        Call::Command(r) => write_input(r, input, inbox),
        Call::Lend(_) => {}
        Call::UndoTo(_, _) => {}
        Call::Quiesce => {}
        Call::Close => {}
    }
}

// An opening begins on a fresh session; every other call leaves what stands there.
fn clear(call: Call, m: &mut [u8])
    ensures { m.new ≡ cleared_in call m.old }
{
    match call {
        Call::Open => words_session::put_fresh(m),
        Call::Command(_) => {}
        Call::Lend(_) => {}
        Call::UndoTo(_, _) => {}
        Call::Quiesce => {}
        Call::Close => {}
    }
}

// The call begins. Where the bytes held this session, they hold then the one that the call has made of it.
fn begin(
    s: Core,
    call: Call,
    input: &[u8],
    inbox: &mut [u8],
    outbox: &mut [u8],
    top: Top,
    m: &mut [u8],
) -> Said
    ensures value { result ≡ said_of (c.begun_turn (full s (behind_in m.old)) call input.now inbox.old top) }
    ensures inbox_after { inbox.new ≡ c.begun_inbox (full s (behind_in m.old)) call input.now inbox.old top }
    ensures outbox_after { outbox.new ≡ c.begun_outbox (full s (behind_in m.old)) call outbox.old top }
    ensures m_after { m.new ≡ call_left call (c.begun_turn (full s (behind_in m.old)) call input.now inbox.old top).session m.old }
    ensures keeps { k.Keeps m.old m.new (full s (behind_in m.old)) (c.begun_turn (full s (behind_in m.old)) call input.now inbox.old top).session }
{
    ready(call, input, inbox);
    clear(call, m);
    let p = plan(s, call, top, m);
    fw_begin::begin(p, inbox, outbox, m)
}

// A call in its time, with all that it must be lent: what it says is written, unless it is refused.
fn admit(
    s: Core,
    call: Call,
    input: &[u8],
    inbox: &mut [u8],
    outbox: &mut [u8],
    top: Top,
    m: &mut [u8],
    out: &mut [u8],
) -> u32
    ensures out_after { t.after result m.new inbox.new outbox.new out.new ≡ admitted_as (full s (behind_in m.old)) call input.now top m.old inbox.old outbox.old out.old }
    ensures keeps { k.Keeps m.old m.new (full s (behind_in m.old)) (admitted_next (full s (behind_in m.old)) call input.now inbox.old top) }
{
    let why = barred(s, call);
    match why {
        Failure::Nothing => {
            let said = begin(s, call, input, inbox, outbox, top, m);
            let question = said.question;
            words_calls::put_turn(out, question, said.undo);
            0
        }
        Failure::By(x) => x.number(),
    }
}

// What is lent is long enough: the mailboxes, the undo list, and the inbox for the input.
fn is_lent(call: Call, input: &[u8], inbox: &[u8], outbox: &[u8], top: Top) -> bool
    ensures { result ≡ c.lent_for call input.now inbox.now outbox.now top }
{
    if fw_begin::is_lent(inbox, outbox, top) {
        return has_room(call, input);
    }
    false
}

// A call on the session of a head: 20 where it is not the time for it, then 21 where there is no room for what it says, or where not enough is lent.
fn call_of(
    s: Core,
    call: Call,
    input: &[u8],
    inbox: &mut [u8],
    outbox: &mut [u8],
    top: Top,
    m: &mut [u8],
    out: &mut [u8],
) -> u32
    ensures out_after { t.after result m.new inbox.new outbox.new out.new ≡ t.call_known (full s (behind_in m.old)) call input.now top m.old inbox.old outbox.old out.old }
    ensures keeps { k.Keeps m.old m.new (full s (behind_in m.old)) (k.call_next call input.now top inbox.old outbox.old out.old (full s (behind_in m.old))) }
{
    if callable(s, call) {
        if out.len() < turns::TURN {
            return SHORT;
        }
        if is_lent(call, input, inbox, outbox, top) {
            return admit(s, call, input, inbox, outbox, top, m, out);
        }
        return SHORT;
    }
    WRONG
}

// Makes a call on the session that the bytes hold.
pub fn make(
    state: &mut [u8],
    call: Call,
    input: &[u8],
    inbox: &mut [u8],
    outbox: &mut [u8],
    top: Top,
    out: &mut [u8],
) -> u32
    ensures out_after { t.after result state.new inbox.new outbox.new out.new ≡ t.called call input.now top state.old inbox.old outbox.old out.old }
    ensures holds { k.Holds state.old state.new (k.call_next call input.now top inbox.old outbox.old out.old) }
{
    match words_session::keeps(state) {
        Kept::Good => {
            let s = words_session::head_at(state);
            call_of(s, call, input, inbox, outbox, top, state, out)
        }
        Kept::Short => SHORT,
        Kept::NoSession => WRONG,
    }
}
