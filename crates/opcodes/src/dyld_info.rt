// dyld_info_command (loader.h): its size in bytes, and where the offset of each stream of bind opcodes stands.
ghost use Rattle.std.specs.Prelude.{◌≡◌};
ghost use Rattle.opcodes.specs.DyldInfo.{earlier};

use macho::command::Commands;

pub const LC_DYLD_INFO: u64 = 0x22;

pub const LC_DYLD_INFO_ONLY: u64 = 0x8000_0022;

pub(crate) const SIZEOF_DYLD_INFO_COMMAND: u64 = 48;

pub const BIND_OFF: u64 = 16;

pub const WEAK_BIND_OFF: u64 = 24;

pub const LAZY_BIND_OFF: u64 = 32;

// The size of a stream stands this far after its offset.
pub const STREAM_SIZE: u64 = 4;

// The dyld_info_command that stands at an offset of a file's commands.
#[derive(Clone, Copy)]
pub(crate) struct Info<'a> {
    pub(crate) file: &'a [u8],
    pub(crate) cmds: Commands<'a>,
    pub(crate) at: u64,
}

// Where the one of two commands stands that is there and stands first.
pub(crate) fn earlier(x: Option<u64>, y: Option<u64>) -> Option<u64>
    ensures { result ≡ earlier x y }
{
    x.into_iter().chain(y).min()
}
