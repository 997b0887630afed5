// Property attribute strings: their items (property.rs of the Rust), the property that they declare, and the text of that.
#![tactic(auto)]

pub mod items;
mod pass;
pub mod property;
pub mod written;
