// The structs of fixup-chains.h that are read here: their sizes in bytes, where their fields stand, and the values that they may have.

// linkedit_data_command (loader.h)
pub const LC_DYLD_CHAINED_FIXUPS: u64 = 0x8000_0034;

pub(crate) const SIZEOF_LINKEDIT_DATA_COMMAND: u64 = 16;

pub(crate) const DATAOFF: u64 = 8;

pub(crate) const DATASIZE: u64 = 12;

// dyld_chained_fixups_header
pub(crate) const SIZEOF_CHAINED_FIXUPS_HEADER: u64 = 28;

pub(crate) const STARTS_OFFSET: u64 = 4;

pub(crate) const IMPORTS_OFFSET: u64 = 8;

pub(crate) const SYMBOLS_OFFSET: u64 = 12;

pub(crate) const IMPORTS_COUNT: u64 = 16;

pub(crate) const IMPORTS_FORMAT: u64 = 20;

pub(crate) const SYMBOLS_FORMAT: u64 = 24;

pub(crate) const DYLD_CHAINED_IMPORT: u32 = 1;

pub(crate) const SYMBOLS_UNCOMPRESSED: u32 = 0;

// dyld_chained_starts_in_image
pub(crate) const SEG_COUNT: u64 = 0;

pub(crate) const SEG_INFO_OFFSET: u64 = 4;

// dyld_chained_starts_in_segment: 22 bytes before page_start
pub(crate) const PAGE_SIZE: u64 = 4;

pub(crate) const POINTER_FORMAT: u64 = 6;

pub(crate) const PAGE_COUNT: u64 = 20;

pub(crate) const PAGE_START: u64 = 22;

pub(crate) const DYLD_CHAINED_PTR_64: u16 = 2;

pub(crate) const DYLD_CHAINED_PTR_64_OFFSET: u16 = 6;

pub(crate) const DYLD_CHAINED_PTR_START_NONE: u16 = 0xFFFF;

pub(crate) const DYLD_CHAINED_PTR_START_MULTI: u16 = 0x8000;
