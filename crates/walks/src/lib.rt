// Walks over lists, protocol names and the section lists, one step a call: method.rs, ivar.rs, property.rs, protocol.rs and mod.rs of the
// Rust, whose iterators these are.
#![tactic(auto)]

pub mod list_walk;
pub mod protocol_names;
pub mod section_slots;
pub mod sections;
pub mod slots;
pub mod stepped;
