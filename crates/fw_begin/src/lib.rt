// What a call and an answer share: the tests behind 20 and 21, and how a plan is begun: the mailboxes are written, the head is, and the next question is open.
#![tactic(auto)]

ghost use Rattle.std.specs.Prelude.{◌≡◌};
ghost use Rattle.session.specs.Core.{Behind, full, plan_in};
ghost use Rattle.behind.specs.Behind.{behind_in};
ghost use Rattle.opening_values.specs.Heads.{WithSlots};
ghost use Rattle.fw_plan.specs.Calls as f;
ghost use Rattle.bytes_plan.specs.Left.{headed_in};
ghost use Rattle.abi.specs.Kept.{Writes};
ghost use Rattle.fw_begin.specs.Begins as b;

use dma::Listed;
use fw_plan::Lent;
use init::InitHca;
use layout::Layout;
use pci::{Answer, Question};
use session::{Core, Fill, Plan, Top};

// What a call says: the question that is open now, and how many undo records are left on the list.
#[derive(Clone, Copy)]
pub struct Said {
    pub question: Question,
    pub undo: usize,
}

// What INIT_HCA tells this card.
fn init_fields(m: &[u8]) -> InitHca
    ensures { (c : Core) → result ≡ f.init_in (full c (behind_in m.now)).info }
{
    let cap = behind::cap_at(m);
    let layout = layout::profile(cap).unwrap_or(Layout::none());
    let rows = layout.rows;
    init::init_hca(cap, rows)
}

// The inbox is filled for a page list, whose command then begins.
fn fill_list(s: Core, c: dma::Cutter, inbox: &mut [u8], m: &[u8]) -> Core
    ensures with_slots { WithSlots (behind_in m.now) (λ b. full result b ≡ f.filled_list c (full s b) inbox.old) }
    ensures inbox_after { inbox.new ≡ f.list_in c inbox.old }
{
    match dma::fill(inbox, 63, c, Listed::CAPACITY) {
        Ok(y) => opening_values::lists(s, y, m),
        Err(_) => s,
    }
}

fn fill_init(inbox: &mut [u8], m: &[u8])
    ensures { (c : Core) → b.WithCaps (behind_in m.now) (λ b. inbox.new ≡ f.init_box (full c b) inbox.old) }
{
    let _ = init::fill(inbox, init_fields(m));
}

// The mailboxes are written as the plan says.
fn fill(fill: Fill, s: Core, inbox: &mut [u8], outbox: &mut [u8], m: &[u8]) -> Core
    ensures with_slots { WithSlots (behind_in m.now) (λ b. full result b ≡ f.filled fill (full s b) inbox.old) }
    ensures with_caps { b.WithCaps (behind_in m.now) (λ b. inbox.new ≡ f.filled_in fill (full s b) inbox.old) }
    ensures outbox_after { outbox.new ≡ f.filled_out fill outbox.old }
{
    match fill {
        Fill::Nothing => s,
        Fill::Outbox => {
            fields::zero(outbox);
            s
        }
        Fill::List(c) => fill_list(s, c, inbox, m),
        Fill::ModStat => {
            let _ = init::mod_stat_cfg(inbox);
            s
        }
        Fill::InitHca => {
            fill_init(inbox, m);
            s
        }
    }
}

// A head's task begins: its question is open, and the head is written.
fn open_task(c: Core, m: &mut [u8]) -> Question
    ensures value { result ≡ f.asks_of (b.opens c (behind_in m.old)) }
    ensures m_after { m.new ≡ headed_in (b.opens c (behind_in m.old)) m.old }
    ensures writes { Writes m.old m.new (b.opens c (behind_in m.old)) }
{
    let stage = c.stage;
    let task = c.task;
    behind::begin(m, stage, task);
    let question = intask::asks(task, m);
    words_session::put_head(m, c);
    question
}

// A plan is begun: the mailboxes are written, the head is, and the next question is open.
pub fn begin(p: Plan, inbox: &mut [u8], outbox: &mut [u8], m: &mut [u8]) -> Said
    ensures value { result ≡ b.said_of (f.begun_of (plan_in p (behind_in m.old)) inbox.old) }
    ensures inbox_after { inbox.new ≡ f.begun_in (plan_in p (behind_in m.old)) inbox.old }
    ensures outbox_after { outbox.new ≡ f.begun_out (plan_in p (behind_in m.old)) outbox.old }
    ensures m_after { m.new ≡ headed_in (f.begun_of (plan_in p (behind_in m.old)) inbox.old).session m.old }
    ensures writes { Writes m.old m.new (f.begun_of (plan_in p (behind_in m.old)) inbox.old).session }
{
    let how = p.fill;
    let s = p.core;
    let c = fill(how, s, inbox, outbox, m);
    let question = open_task(c, m);
    Said {
        question,
        undo: p.undo,
    }
}

// The head is that of a session: its counts are within the slots.
pub fn is_session(s: Core) -> bool
    ensures { (b : Behind) → result ≡ f.is_session (full s b) }
{
    if Lent::RANGES < s.ranges {
        return false;
    }
    if Lent::BUFFERS < s.lends {
        return false;
    }
    true
}

// What is lent is long enough: both mailboxes, and the undo list not too long.
pub fn is_lent(inbox: &[u8], outbox: &[u8], top: Top) -> bool
    ensures { result ≡ f.is_lent inbox.now outbox.now top }
{
    if inbox.len() != Lent::MAILBOX {
        return false;
    }
    if outbox.len() != Lent::MAILBOX {
        return false;
    }
    if Lent::UNDO < top.count {
        return false;
    }
    true
}

// The answer is one to the open question; else it is refused with 20.
pub fn answerable(s: Core, a: Answer, m: &[u8]) -> bool
    ensures { result ≡ f.answerable (full s (behind_in m.now)) a }
{
    let task = s.task;
    if is_session(s) {
        return pci::suits(intask::asks(task, m), a);
    }
    false
}
