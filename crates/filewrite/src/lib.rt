// The listing of a Mach-O file, written to a file descriptor.
#![tactic(auto)]

pub mod write;
