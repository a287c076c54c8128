// Words of a table and bytes of a text: numbers packed into a word, words read and stored, what the bytes of a text say, bytes and numbers into a lent buffer.

#![tactic(auto)]

pub mod buffers;
pub mod packing;
pub mod tables;
pub mod texts;
