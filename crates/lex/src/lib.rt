// Bytes into tokens: byte classes, blanks and comments and tokens of several bytes, one token at a position, and a reader that hands them out.

#![tactic(auto)]

pub mod classes;
pub mod positions;
pub mod reader;
pub mod scanning;
pub mod tokens;
