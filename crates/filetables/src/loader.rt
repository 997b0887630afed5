// What is read of loader.h here: where fields stand, and the values that they may have.

// mach_header_64
pub(crate) const FILETYPE: u64 = 12;

pub(crate) const FLAGS: u64 = 24;

pub(crate) const MH_EXECUTE: u64 = 2;

pub(crate) const MH_DYLIB: u64 = 6;

pub(crate) const MH_DYLINKER: u64 = 7;

pub(crate) const MH_BUNDLE: u64 = 8;

pub(crate) const MH_DYLIB_IN_CACHE: u64 = 0x8000_0000;

// segment_command_64
pub(crate) const SEGMENT_FLAGS: u64 = 68;

pub(crate) const SG_PROTECTED_VERSION_1: u64 = 8;

// dysymtab_command
pub(crate) const LC_DYSYMTAB: u64 = 0xB;

pub(crate) const NEXTREL: u64 = 68;

// encryption_info_command and encryption_info_command_64
pub(crate) const LC_ENCRYPTION_INFO: u64 = 0x21;

pub(crate) const LC_ENCRYPTION_INFO_64: u64 = 0x2C;

pub(crate) const CRYPTID: u64 = 16;
