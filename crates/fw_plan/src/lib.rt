// What an answer leads to: `specs/Calls.antt` says it as functions on the session and on the mailboxes, `specs/Follows.antt` what it is for a session to follow the course of
// its call, and `proofs/Session.antt` shows that it does.
#![tactic(auto)]

use pci::{Question, Refusal};
use session::{Closing, Failure, Gave, Session};

// A call's outcome: the session, why the call was refused if it was, the question that is now open, and how many undo records are left on the list.
#[derive(Clone, Copy)]
pub struct Turn {
    pub session: Session,
    pub refusal: Failure,
    pub question: Question,
    pub undo: usize,
}

// Which mailbox is zeroed at an answer.
#[derive(Clone, Copy)]
pub enum Wipe {
    Neither,
    Inbox,
    Outbox,
}

// What has become of a session: not opened yet; a call is running; open, with what the last call gave; the opening failed, with closing's result beside it; closed.
#[derive(Clone, Copy)]
pub enum Outcome {
    Fresh,
    Running,
    Opened(Gave),
    Failed(Refusal, Closing),
    Closed(Closing),
}

// The limits of what is lent.
#[derive(Clone, Copy)]
pub struct Lent {
    pub undo: usize,
}

impl Lent {
    pub const MAILBOX: usize = 4096;

    pub const UNDO: usize = 256;

    pub const RANGES: usize = 14;

    pub const BUFFERS: usize = 64;
}
