// The rebase and bind tables of a file (document 02, note 7): counted by one walk, then written by the same.
ghost use Rattle.std.specs.Prelude.{◌≡◌, []};
ghost use Rattle.reads.specs.Reference.{before};
ghost use Rattle.reads.specs.Outcome.{value};
ghost use Rattle.macho.specs.Commands.{asked_commands, segments_of};
ghost use Rattle.fixups.specs.Starts.{image_starts_in};
ghost use Rattle.fixups.specs.Tables.{state, told, state_of};
ghost use Rattle.fixups.specs.Fixups.{base_of, fixups_from, fixups_found, built_outcome, leaves, settled};

use crate::chain::Data;
use crate::fixup_chains::{
    DATAOFF, DATASIZE, LC_DYLD_CHAINED_FIXUPS, SIZEOF_LINKEDIT_DATA_COMMAND,
};
use crate::starts::fixups_of;
use crate::table::Lists;
use macho::command::{Commands, ask_commands};
use macho::loader::{CMDSIZE, LC_SEGMENT_64, SEGNAME, VMADDR};
use macho::number::field32;
use macho::section::has_name;
use pointers::table::{Bind, Rebase};
use reads::answer::Question;
use reads::place::{part, u32_from, u64_from};

const TEXT: [u8; 16] = *b"__TEXT\0\0\0\0\0\0\0\0\0\0";

// The image base: the vmaddr of the first segment `__TEXT`, or 0 without one: the definition `base_of` is total, and the base is only added
// to a target (`rebased`), where an Option would be turned into 0.
fn image_base(cmds: Commands) -> u64
    ensures { result ≡ base_of cmds.entry.bytes.now (segments_of cmds.entry.bytes.now cmds.entry.count) }
{
    let text = TEXT;
    cmds.of_kind(LC_SEGMENT_64)
        .find(|at| has_name(cmds.bytes, *at + SEGNAME, &text))
        .map_or(0, |at| u64_from(cmds.bytes, at, VMADDR))
}

impl Data<'_> {
    // How many records the fixup data has for each table: the walk is lent no room.
    fn count_records(self) -> Result<(u64, u64), Question>
        ensures { state_of result [] [] ≡ told (image_starts_in self.entry) (state 0 0 [] []) }
    {
        let mut none = [0u64; 0];
        let mut nothing = [0u64; 0];
        let mut lists = Lists {
            rebases: &mut none,
            rebased: 0,
            binds: &mut nothing,
            bound: 0,
        };
        self.image_starts(&mut lists)?;
        Ok((lists.rebased, lists.bound))
    }

    // Counts first, then writes, if both tables have room: how many rebases and binds were written. The two come as two slices, here, below and in filetables,
    // as C lends them: while they are filled `Lists` has them with their counts, and a struct of the slices alone would be taken apart for it here.
    // The tables are two parameters, here and below, as C lends them: `Lists` would ask for counts of 0, and a struct of the two slices
    // would be put together in `build_tables` and taken apart here alone. opcodes' `fill` is one beside this: one function for both would
    // need a trait with the walk, the tables, their counts and the questions of their room, more than the two bodies.
    fn fill(self, rebases: &mut [u64], binds: &mut [u64]) -> Result<(u64, u64), Question>
        ensures { leaves (built_outcome result) rebases.new binds.new
            ≡ settled (image_starts_in self.entry) rebases.old binds.old }
    {
        let (r, b) = self.count_records()?;
        if ((rebases.len() / Rebase::WORDS) as u64) < r {
            return Err(Question::RebaseTable);
        }
        if ((binds.len() / Bind::WORDS) as u64) < b {
            return Err(Question::BindTable);
        }
        let mut lists = Lists {
            rebases,
            rebased: 0,
            binds,
            bound: 0,
        };
        let _ = self.image_starts(&mut lists);
        Ok((r, b))
    }
}

// The tables from the LC_DYLD_CHAINED_FIXUPS that stands at an offset of the commands.
fn fixups_at(
    file: &[u8],
    cmds: Commands,
    command: u64,
    rebases: &mut [u64],
    binds: &mut [u64],
) -> Result<(u64, u64), Question>
    ensures { leaves (built_outcome result) rebases.new binds.new
        ≡ settled (fixups_from (before file) cmds.entry.bytes.now cmds.entry.count command) rebases.old binds.old }
{
    if field32(cmds.bytes, command, CMDSIZE) < SIZEOF_LINKEDIT_DATA_COMMAND {
        return Err(Question::FixupData);
    }
    let at = u32_from(cmds.bytes, command, DATAOFF);
    let body = part(file, u64::from(at), field32(cmds.bytes, command, DATASIZE));
    let fixups = fixups_of(body, at, image_base(cmds))?;
    let data = Data {
        file,
        cmds,
        body,
        fixups,
    };
    data.fill(rebases, binds)
}

// The tables from the first LC_DYLD_CHAINED_FIXUPS of a file, no records without one; or a number, with nothing written.
fn build_from(file: &[u8], rebases: &mut [u64], binds: &mut [u64]) -> Result<(u64, u64), Question>
    requires { asked_commands file.now ≡ value tt }
    ensures { leaves (built_outcome result) rebases.new binds.new ≡ settled (fixups_found (before file)) rebases.old binds.old }
{
    let cmds = Commands::of(file);
    match cmds.of_kind(LC_DYLD_CHAINED_FIXUPS).next() {
        Some(command) => fixups_at(file, cmds, command, rebases, binds),
        None => Ok((0, 0)),
    }
}

// Builds the rebase and bind tables of a file: both counts, or the number of the first question that says no, with nothing written.
pub fn build_tables(
    file: &[u8],
    rebases: &mut [u64],
    binds: &mut [u64],
) -> Result<(u64, u64), Question>
    ensures { leaves (built_outcome result) rebases.new binds.new ≡ settled (fixups_found (before file)) rebases.old binds.old }
{
    ask_commands(file)?;
    build_from(file, rebases, binds)
}
