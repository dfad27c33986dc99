// What the programs share that run stored answers: the records of their input, and a question as a line of text.
#![tactic(auto)]

pub mod input;
pub mod question;
