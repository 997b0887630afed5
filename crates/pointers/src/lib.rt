// Tables, questions, the index, opening and pointer slots: mod.rs, section.rs and imageinfo.rs of the Rust.
#![tactic(auto)]

pub mod asked;
pub mod imageinfo;
pub mod index;
pub mod name;
pub mod open;
pub mod question;
pub mod section;
pub mod setting;
pub mod slot;
pub mod sorted;
pub mod symbol;
pub mod table;
pub mod tables;
