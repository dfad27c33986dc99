// The plan of a client's calls: the course of each in `specs/Client.antt`, the plan that the code follows in `specs/Plan.antt`, and in `proofs/` that the plan leads where
// the course goes.
#![tactic(auto)]

use session::Form;

// A command as a client asks for it; the input parameter is looked at in the form without mailboxes.
#[derive(Clone, Copy)]
pub struct Request {
    pub form: Form,
    pub op: u16,
    pub op_mod: u8,
    pub in_mod: u32,
    pub in_param: u64,
}
