// A client's calls on an open session: how each begins, and what follows when one of its tasks has ended.
#![tactic(auto)]

ghost use Rattle.std.specs.Prelude.{◌≡◌, ◌<◌};
ghost use Rattle.session.specs.declared.Core.{Core};
ghost use Rattle.session.specs.Core.{full, plan_in, PlanIs};
ghost use Rattle.session.specs.Session.{slot_at};
ghost use Rattle.behind.specs.Behind.{behind_in};
ghost use Rattle.client_plan.specs.Client.{takes_input, gives_output, gives_immediate, in_address, out_address, post_of, gave_by, over};
ghost use Rattle.client_plan.specs.Plan.{rest_plan, fill_for, command_plan, lend_plan, undo_send, undo_plan, undo_to_plan, command_ended, lend_ended, undo_ended, client_plan};

use buffer::{Made, MakeStep, Making};
use client_plan::Request;
use command::{CmdEnd, CmdResult};
use hcr::Post;
use pci::Refusal;
use session::{Client, Core, Fill, Form, Gave, Plan, Slot, Stage, Top};
use work::{End, Task};

// How many undo records one call sends at most.
const UNDOS: u32 = 0xffff_ffff;

// Whether a form has input in the inbox; output in the outbox; an immediate.
pub fn takes_input(form: Form) -> bool
    ensures { result ≡ takes_input form }
{
    match form {
        Form::Imm => false,
        Form::WithIn => true,
        Form::WithOut => false,
        Form::InImm => true,
        Form::InOut => true,
    }
}

fn gives_output(form: Form) -> bool
    ensures { result ≡ gives_output form }
{
    match form {
        Form::Imm => false,
        Form::WithIn => false,
        Form::WithOut => true,
        Form::InImm => false,
        Form::InOut => true,
    }
}

fn gives_immediate(form: Form) -> bool
    ensures { result ≡ gives_immediate form }
{
    match form {
        Form::Imm => true,
        Form::WithIn => false,
        Form::WithOut => false,
        Form::InImm => true,
        Form::InOut => false,
    }
}

// The device address of the buffer in a slot.
fn address(i: usize, m: &[u8]) -> u64
    ensures { result ≡ (slot_at (behind_in m.now).slots i).dev }
{
    let slot = behind::slot_at(m, i);
    slot.dev
}

// The input parameter, whatever the head: the client's own, the inbox's address, or none.
fn in_address(form: Form, in_param: u64, m: &[u8]) -> u64
    ensures { (s : Core) → result ≡ in_address (full s (behind_in m.now)).books form in_param }
{
    match form {
        Form::Imm => in_param,
        Form::WithIn => address(Slot::INBOX, m),
        Form::WithOut => 0,
        Form::InImm => address(Slot::INBOX, m),
        Form::InOut => address(Slot::INBOX, m),
    }
}

// The output parameter: the outbox's address, or none.
fn out_address(form: Form, m: &[u8]) -> u64
    ensures { (s : Core) → result ≡ out_address (full s (behind_in m.now)).books form }
{
    match form {
        Form::Imm => 0,
        Form::WithIn => 0,
        Form::WithOut => address(Slot::OUTBOX, m),
        Form::InImm => 0,
        Form::InOut => address(Slot::OUTBOX, m),
    }
}

// The command as it is posted.
fn post(r: Request, m: &[u8]) -> Post
    ensures { (s : Core) → result ≡ post_of (full s (behind_in m.now)).books r }
{
    let form = r.form;
    Post {
        op: r.op,
        op_mod: r.op_mod,
        in_mod: r.in_mod,
        in_param: in_address(form, r.in_param, m),
        out_param: out_address(form, m),
    }
}

// The bytes of the one stand at the start of the other; what does not fit is left out.
pub fn copy(to: &mut [u8], from: &[u8])
    ensures { to.new ≡ over from.now to.old }
{
    let n = to.len().min(from.len());
    // Std's copy_from_slice would ask the loader for memmove.
    for i in 0..n {
        to[i] = from[i];
    }
}

// The call is over, and this is what it gave.
fn rest(s: Core, gave: Gave, undo: usize) -> Plan
    ensures { PlanIs result (λ b. rest_plan (full s b) gave undo) }
{
    Plan::new(giving::rests(s, gave), undo)
}

// The outbox is zeroed before a command that names it.
fn fill_for(form: Form) -> Fill
    ensures { result ≡ fill_for form }
{
    if gives_output(form) {
        return Fill::Outbox;
    }
    Fill::Nothing
}

// A client's command begins; its input stands in the inbox.
pub fn command(s: Core, r: Request, undo: usize, m: &[u8]) -> Plan
    ensures { plan_in result (behind_in m.now)
        ≡ command_plan (full s (behind_in m.now)) r undo }
{
    let form = r.form;
    Plan {
        core: s.send(Stage::Client(Client::Command(form)), post(r, m)),
        fill: fill_for(form),
        undo,
    }
}

// A lending begins, in the next slot.
pub fn lend(s: Core, bytes: u64, undo: usize) -> Plan
    ensures { PlanIs result (λ b. lend_plan (full s b) bytes undo) }
{
    match Making::start(bytes) {
        MakeStep::More(k) => Plan::new(
            s.start(Stage::Client(Client::Lend(s.lends)), Task::Make(k)),
            undo,
        ),
        MakeStep::Ended(_) => rest(s, Gave::Failed(Refusal::Address), undo),
    }
}

// The newest undo record is wanted: it is taken off and sent, unless its opcode is reserved by now.
fn undo_one(s: Core, mark: usize, more: u32, top: Top) -> Plan
    requires { 0 < top.count }
    ensures { PlanIs result (λ b. undo_send (full s b) mark more top) }
{
    if more == 0 {
        return rest(s.breaks(), Gave::Failed(Refusal::Undo), top.count);
    }
    if hcr::reserved(top.op) {
        return rest(s, Gave::Failed(Refusal::Opcode), top.count);
    }
    Plan::new(
        s.send(
            Stage::Client(Client::UndoTo(mark, more - 1)),
            session::imm(top.op, top.op_mod, top.in_mod, top.in_param),
        ),
        top.count - 1,
    )
}

// The undo records while there are more than so many, newest first; none on a broken session.
fn undo(s: Core, mark: usize, more: u32, top: Top) -> Plan
    ensures { PlanIs result (λ b. undo_plan (full s b) mark more top) }
{
    let wire = s.wire;
    if top.count <= mark {
        return rest(s, Gave::Nothing, top.count);
    }
    if wire.broken {
        return rest(s, Gave::Failed(Refusal::Undo), top.count);
    }
    undo_one(s, mark, more, top)
}

// The undo records from this one on are to be sent.
pub fn undo_to(s: Core, mark: usize, top: Top) -> Plan
    ensures { PlanIs result (λ b. undo_to_plan (full s b) mark top) }
{
    undo(s, mark, UNDOS, top)
}

// What a command gave.
fn gave_by(form: Form, r: CmdResult) -> Gave
    ensures { result ≡ gave_by form r }
{
    match r {
        CmdResult::Done(x, us) => {
            if gives_immediate(form) {
                return Gave::Command(x, us);
            }
            Gave::Command(0, us)
        }
        CmdResult::Status(_, _) => Gave::Failed(session::failure_of(r)),
        CmdResult::Timeout(_) => Gave::Failed(session::failure_of(r)),
        CmdResult::Busy => Gave::Failed(session::failure_of(r)),
        CmdResult::Bus(_) => Gave::Failed(session::failure_of(r)),
    }
}

// A client's command has ended: but for a status, one that failed breaks the session.
fn commanded(s: Core, form: Form, x: CmdEnd, undo: usize) -> Plan
    ensures { PlanIs result (λ b. command_ended (full s b) form x undo) }
{
    let t = s.took(x);
    let result = x.result;
    rest(t.broken_by(result), gave_by(form, result), undo)
}

// The buffer of slot i is lent, or was not to be had.
fn lent(s: Core, i: usize, made: Made, undo: usize) -> Plan
    ensures { PlanIs result (λ b. lend_ended (full s b) i made undo) }
{
    match made {
        Made::Ready(_) => rest(s.lend(), Gave::Lent(i), undo),
        Made::Refused(why) => rest(s, Gave::Failed(session::fault_of(why)), undo),
    }
}

// An undo record was sent: any failure breaks the session and ends the call.
fn undone(s: Core, mark: usize, more: u32, x: CmdEnd, top: Top) -> Plan
    ensures { PlanIs result (λ b. undo_ended (full s b) mark more x top) }
{
    let t = s.took(x);
    let result = x.result;
    if giving::is_done(result) {
        return undo(t, mark, more, top);
    }
    rest(t.breaks(), Gave::Failed(Refusal::Undo), top.count)
}

// What follows when a task of a client's call has ended.
pub fn served(s: Core, client: Client, end: End, top: Top) -> Plan
    ensures { PlanIs result (λ b. client_plan (full s b) client end top) }
{
    match client {
        Client::Command(form) => commanded(s, form, giving::cmd_in(end), top.count),
        Client::Lend(i) => lent(s, i, session::made_in(end), top.count),
        Client::UndoTo(mark, more) => undone(s, mark, more, giving::cmd_in(end), top),
    }
}
