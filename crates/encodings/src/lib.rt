// Type encodings: a text, as of a method's types, read as its outermost types with their frame offsets.
#![tactic(auto)]

mod bytes;
mod kept;
mod parser;
mod reading;
pub mod words;
