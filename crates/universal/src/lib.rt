// The parts of a universal file (fat.h): a Mach-O file for each of some architectures, in one file.
#![tactic(auto)]

pub mod arch;
pub mod fat;
mod number;
pub mod part;
