// The rebase and bind tables of a Mach-O file, whichever way it carries them: as chained fixups or as bind opcodes.
#![tactic(auto)]

pub mod build;
pub mod kind;
mod loader;
