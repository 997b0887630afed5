// The bind table of a Mach-O file from before chained fixups (loader.h, dyld_info_command and the opcodes BIND_OPCODE_*).
#![tactic(auto)]

mod binding;
pub mod build;
pub mod dyld_info;
mod opcode;
mod segment;
mod stream;
