// The segment table that a file's segment commands (loader.h, segment_command_64) define.
ghost use Rattle.std.specs.Prelude.{◌≡◌, ◌+◌, ◌*◌, ◌≤◌, length};
ghost use Rattle.std.proofs.lemmas.List.Edits.{sets};
ghost use Rattle.reads.specs.Reference.{before};
ghost use Rattle.reads.specs.Segment.{segment_words};
ghost use Rattle.macho.specs.Commands.{segments_of};
ghost use Rattle.macho.specs.Segments.{segment_row, segment_table_of, written};

use crate::command::Commands;
use crate::loader::{FILEOFF, FILESIZE, LC_SEGMENT_64, VMADDR, VMSIZE};
use reads::place::u64_from;
use reads::segment::Segment;

// The file number of every segment: the file itself is the only one that is lent.
const FILE: u64 = 0;

// How many segments there are.
#[tactic(auto, using(crate::proofs::Commands::few))]
pub(crate) fn segment_count(cmds: Commands) -> u64
    ensures { result ≡ length (segments_of cmds.entry.bytes.now cmds.entry.count) }
{
    cmds.of_kind(LC_SEGMENT_64).count() as u64
}

// Writes the row of the segment command at an offset, from word i on.
#[tactic(auto, using(crate::proofs::Tables::part_put))]
fn put_segment(bytes: &[u8], at: u64, table: &mut [u64], i: usize)
    requires { i + segment_words ≤ length table.old }
    ensures { table.new ≡ sets table.old i (segment_row (before bytes) at) }
{
    table[i..i + Segment::WORDS].copy_from_slice(&[
        u64_from(bytes, at, VMADDR),
        u64_from(bytes, at, VMSIZE),
        u64_from(bytes, at, FILEOFF),
        u64_from(bytes, at, FILESIZE),
        FILE,
    ]);
}

// Writes the row of each segment, in command order.
pub(crate) fn write_segments(cmds: Commands, table: &mut [u64])
    requires { segment_words * length (segments_of cmds.bytes.now cmds.count) ≤ length table.old }
    ensures { table.new ≡ written (segment_table_of cmds.entry.bytes.now cmds.entry.count) table.old }
{
    for (k, at) in cmds.of_kind(LC_SEGMENT_64).enumerate() {
        put_segment(cmds.bytes, at, table, Segment::WORDS * k);
    }
}
