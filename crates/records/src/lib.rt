// Records, lists and rows: class.rs, protocol.rs, category.rs, method.rs, ivar.rs and property.rs of the Rust.
#![tactic(auto)]

pub mod calls;
pub mod category;
pub mod class;
pub mod ivar;
pub mod list;
pub mod method;
mod near;
pub mod open_list;
pub mod property;
pub mod protocol;
pub mod row;
mod text;
