// The segment that an opcode sets.
ghost use Rattle.std.specs.Prelude.{◌≡◌};
ghost use Rattle.macho.specs.Commands.{segments_of};
ghost use Rattle.opcodes.specs.Binding.{with_segment, in_segment};
ghost use Rattle.reads.specs.Answer.{answered};

use crate::binding::{Place, State};
use macho::command::Commands;
use macho::loader::{FILEOFF, FILESIZE, LC_SEGMENT_64, VMADDR};
use reads::answer::Question;
use reads::place::u64_from;

// The segment whose command stands at an offset, and the slot `offset` bytes into it.
fn with_segment(cmds: Commands, at: u64, offset: u64, s: State) -> State
    ensures { result ≡ with_segment cmds.entry.bytes.now at offset s }
{
    let place = Place {
        vmaddr: u64_from(cmds.bytes, at, VMADDR),
        fileoff: u64_from(cmds.bytes, at, FILEOFF),
        filesize: u64_from(cmds.bytes, at, FILESIZE),
    };
    State {
        place: Some(place),
        offset,
        ..s
    }
}

// The segment of an index, in command order.
pub(crate) fn in_segment(
    cmds: Commands,
    index: u64,
    offset: u64,
    s: State,
) -> Result<State, Question>
    ensures { answered result ≡ in_segment cmds.entry.bytes.now (segments_of cmds.entry.bytes.now cmds.entry.count) index offset s }
{
    let at = cmds
        .of_kind(LC_SEGMENT_64)
        .nth(index as usize)
        .ok_or(Question::FixupData)?;
    Ok(with_segment(cmds, at, offset, s))
}
