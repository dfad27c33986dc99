// The functions of `leaves` over C linkage, each under its own name: numbers and byte slices in, an answer as big-endian 64-bit words out. An
// export gives what the library's function gives, and says so by the same clauses.
#![tactic(auto)]

pub mod bar;
pub mod command;
pub mod field;
pub mod mailboxes;
pub mod memory;
pub mod replies;
pub mod tables;
