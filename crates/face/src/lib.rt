// The library for C (include/objclist.h, include/objclist_file.h): exports over the calls and walks of the library, with states, records and
// rows in words, and over the listing of a whole file. A slice is a pointer and a length.
#![tactic(auto)]

pub mod decoding;
pub mod file;
pub mod opening;
pub mod row;
pub mod rows;
pub mod sections;
pub mod status;
pub mod words;
