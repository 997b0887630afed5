// Printing a listing: the text of each line, and the listing of a bundle, piece by piece through a buffer that the caller lends, or written to a
// file descriptor; and the program that lists the bundle on standard input.
#![tactic(auto)]

mod buffer;
pub mod bundle;
pub mod descriptor;
pub mod pieces;
mod print;
pub mod program;
pub mod write;
