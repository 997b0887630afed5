// Bytes, addresses and text of a Mach-O image: util.rs and ptrauth.rs of the Rust. Every function is total, asks no
// question of document 01, and equals a definition in specs/.
#![tactic(auto)]

pub mod address;
pub mod answer;
pub mod breaks;
pub mod files;
pub mod leb128;
pub mod place;
pub mod ptrauth;
pub mod relative;
pub mod segment;
pub mod spot;
pub mod text;
