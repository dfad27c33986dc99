// What a proved function gives, as big-endian 64-bit words, and its arguments from words: the parts that the leaves over C linkage are made of.
#![tactic(auto)]

pub mod bar;
pub mod command;
pub mod field;
pub mod memory;
pub mod replies;
pub mod tables;
pub mod words;
