// A Mach-O file (loader.h): header, load commands, segments and sections, and the tables that they fill.
#![tactic(auto)]

pub mod command;
mod header;
pub mod loader;
pub mod number;
pub mod open;
pub mod section;
mod segment;
