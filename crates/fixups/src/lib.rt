// The rebase and bind tables of a Mach-O file with chained fixups (fixup-chains.h).
#![tactic(auto)]

pub mod build;
mod chain;
pub mod fixup_chains;
pub mod name;
mod starts;
pub mod table;
