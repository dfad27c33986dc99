// The proved functions that need no session, as `leaves_c` has them over C linkage: numbers and byte slices in, an answer as big-endian 64-bit words
// out. Tests compare them with the Rust. An answer slice that is too short for its words is 21, and then no slice is written.
#![tactic(auto)]

pub mod bar;
pub mod command;
pub mod field;
pub mod mailboxes;
pub mod memory;
pub mod replies;
pub mod tables;
