// The bind table of a file by its bind opcodes: counted by one walk, then written by the same.
ghost use Rattle.std.specs.Prelude.{◌≡◌, []};
ghost use Rattle.reads.specs.Reference.{before};
ghost use Rattle.reads.specs.Outcome.{value};
ghost use Rattle.macho.specs.Commands.{asked_commands};
ghost use Rattle.fixups.specs.Tables.{part};
ghost use Rattle.opcodes.specs.Streams.{streams_in};
ghost use Rattle.opcodes.specs.Tables.{told, part_of};
ghost use Rattle.opcodes.specs.Binds.{binds_found, leaves, settled};
ghost use Rattle.reads.specs.Answer.{answered};

use crate::binding::Binds;
use crate::dyld_info::{Info, LC_DYLD_INFO, LC_DYLD_INFO_ONLY, SIZEOF_DYLD_INFO_COMMAND, earlier};
use macho::command::{Commands, ask_commands};
use macho::loader::CMDSIZE;
use macho::number::field32;
use pointers::table::Bind;
use reads::answer::Question;

impl Info<'_> {
    // How many binds the streams make: the walk is lent no room.
    fn count_binds(self) -> Result<u64, Question>
        ensures { part_of result [] ≡ told (streams_in self.entry) (part 0 []) }
    {
        let mut none = [0u64; 0];
        let mut binds = Binds {
            table: &mut none,
            count: 0,
        };
        self.streams_at(&mut binds)?;
        Ok(binds.count)
    }

    // Counts first, then writes, if the table has room. fixups' `fill` says why the two are apart.
    fn fill(self, binds: &mut [u64]) -> Result<u64, Question>
        ensures { leaves (answered result) binds.new ≡ settled (streams_in self.entry) binds.old }
    {
        let n = self.count_binds()?;
        if ((binds.len() / Bind::WORDS) as u64) < n {
            return Err(Question::BindTable);
        }
        let mut written = Binds {
            table: binds,
            count: 0,
        };
        let _ = self.streams_at(&mut written);
        Ok(n)
    }
}

// The table from the first LC_DYLD_INFO or LC_DYLD_INFO_ONLY of a file, no binds without one; or a number, with nothing written.
fn build_from(file: &[u8], binds: &mut [u64]) -> Result<u64, Question>
    requires { asked_commands file.now ≡ value tt }
    ensures { leaves (answered result) binds.new ≡ settled (binds_found (before file)) binds.old }
{
    let cmds = Commands::of(file);
    let info = cmds.of_kind(LC_DYLD_INFO).next();
    let info_only = cmds.of_kind(LC_DYLD_INFO_ONLY).next();
    let Some(at) = earlier(info, info_only) else {
        return Ok(0);
    };
    if field32(cmds.bytes, at, CMDSIZE) < SIZEOF_DYLD_INFO_COMMAND {
        return Err(Question::FixupData);
    }
    Info { file, cmds, at }.fill(binds)
}

// Builds the bind table of a file from its bind opcodes: how many binds, or the number of the first question that says no, with nothing
// written.
pub fn bind_table(file: &[u8], binds: &mut [u64]) -> Result<u64, Question>
    ensures { leaves (answered result) binds.new ≡ settled (binds_found (before file)) binds.old }
{
    ask_commands(file)?;
    build_from(file, binds)
}
