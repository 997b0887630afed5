// The tables of a file that is read: from its chained fixups, or else from its bind opcodes; without either there are no records.
ghost use Rattle.std.specs.Prelude.{◌≡◌};
ghost use Rattle.reads.specs.Reference.{before};
ghost use Rattle.fixups.specs.Fixups.{built_outcome, leaves, settled};
ghost use Rattle.opcodes.specs.Binds.{binds_found};
ghost use Rattle.filetables.specs.FileRecords.{bound_records, records_in, file_records};

use crate::kind::ask_kind;
use fixups::build::build_tables;
use fixups::fixup_chains::LC_DYLD_CHAINED_FIXUPS;
use macho::command::Commands;
use opcodes::build::bind_table;
use reads::answer::Question;

// The tables are two parameters, as C lends them: `build_tables` takes both and `bind_table` one, so that a struct of the two slices would
// be put together in `file_tables` and taken apart again before either call.

// From the bind opcodes, how many rebases and binds were written: such a file's words are the addresses, so that it needs no rebases.
fn from_opcodes(file: &[u8], rebases: &mut [u64], binds: &mut [u64]) -> Result<(u64, u64), Question>
    ensures { leaves (built_outcome result) rebases.new binds.new ≡ settled (bound_records (binds_found (before file))) rebases.old binds.old }
{
    let n = bind_table(file, binds)?;
    Ok((0, n))
}

// From what the file has.
fn from_either(file: &[u8], rebases: &mut [u64], binds: &mut [u64]) -> Result<(u64, u64), Question>
    ensures { leaves (built_outcome result) rebases.new binds.new ≡ settled (records_in (before file)) rebases.old binds.old }
{
    match Commands::of(file).of_kind(LC_DYLD_CHAINED_FIXUPS).next() {
        Some(_) => build_tables(file, rebases, binds),
        None => from_opcodes(file, rebases, binds),
    }
}

// Builds the rebase and bind tables of a file: both counts, or the number of the first question that says no, with nothing written.
pub fn file_tables(
    file: &[u8],
    rebases: &mut [u64],
    binds: &mut [u64],
) -> Result<(u64, u64), Question>
    ensures { leaves (built_outcome result) rebases.new binds.new ≡ settled (file_records (before file)) rebases.old binds.old }
{
    ask_kind(file)?;
    from_either(file, rebases, binds)
}
