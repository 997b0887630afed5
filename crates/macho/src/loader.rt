// The structs of loader.h that are read here: their sizes in bytes, and where their fields stand.

// mach_header_64
pub const SIZEOF_MACH_HEADER_64: u64 = 32;

pub const MAGIC: u64 = 0;

pub const NCMDS: u64 = 16;

pub const SIZEOFCMDS: u64 = 20;

pub const MH_MAGIC_64: u64 = 0xFEED_FACF;

// load_command
pub const SIZEOF_LOAD_COMMAND: u64 = 8;

pub const CMD: u64 = 0;

pub const CMDSIZE: u64 = 4;

// segment_command_64
pub const LC_SEGMENT_64: u64 = 0x19;

pub const SIZEOF_SEGMENT_COMMAND_64: u64 = 72;

pub const SEGNAME: u64 = 8;

pub const VMADDR: u64 = 24;

pub const VMSIZE: u64 = 32;

pub const FILEOFF: u64 = 40;

pub const FILESIZE: u64 = 48;

pub const NSECTS: u64 = 64;

// section_64
pub const SIZEOF_SECTION_64: u64 = 80;

pub const SECTNAME: u64 = 0;

pub const ADDR: u64 = 32;

pub const SIZE: u64 = 40;

pub const OFFSET: u64 = 48;

// The bytes of a segment's or a section's name, filled with zeros.
pub const SIZEOF_NAME: u64 = 16;
