// The load commands (loader.h, load_command).
ghost use Rattle.std.specs.Prelude.{◌≡◌, ◌<◌, ◌^◌};
ghost use Rattle.reads.specs.Reference.{before};
ghost use Rattle.std.specs.Iterator.{YieldsFirst, item_count};
ghost use Rattle.macho.specs.Loader.{ncmds};
ghost use Rattle.macho.specs.Commands.{fits, all_fit, asked_commands, command_bytes, of_kind, offsets};
ghost use Rattle.reads.specs.Answer.{answered};

use crate::header::headed;
use crate::loader::{
    CMD, CMDSIZE, LC_SEGMENT_64, NCMDS, NSECTS, SIZEOF_LOAD_COMMAND, SIZEOF_MACH_HEADER_64,
    SIZEOF_SECTION_64, SIZEOF_SEGMENT_COMMAND_64, SIZEOFCMDS,
};
use crate::number::field32;
use reads::answer::Question;
use reads::place::part;

// The bytes of the commands, and how many the header counts.
#[derive(Clone, Copy)]
pub struct Commands<'a> {
    pub bytes: &'a [u8],
    pub count: u64,
}

// The commands of a kind, in order, as where each stands; one that does not fit ends them.
#[derive(Clone, Copy)]
pub struct CommandsOfKind<'a> {
    bytes: &'a [u8],
    kind: u64,
    left: u64,
    at: u64,
}

// 16, of the command at an offset.
#[tactic(auto, unfolding(crate::specs::Commands::fits, crate::specs::Commands::sectioned, reads::specs::Outcome::choose), using(std::proofs::lemmas::Bool::Decides::nat_tests))]
fn command_fits(bytes: &[u8], at: u64) -> bool
    ensures { result ≡ fits (before bytes) at }
{
    let n = bytes.len() as u64;
    if n < at {
        return false;
    }
    // Not `lies_in` of the head and then of the whole command: both are held to one room, taken once.
    let room = n - at;
    if room < SIZEOF_LOAD_COMMAND {
        return false;
    }
    let size = field32(bytes, at, CMDSIZE);
    if size < SIZEOF_LOAD_COMMAND {
        return false;
    }
    if room < size {
        return false;
    }
    if field32(bytes, at, CMD) != LC_SEGMENT_64 {
        return true;
    }
    SIZEOF_SEGMENT_COMMAND_64 + SIZEOF_SECTION_64 * field32(bytes, at, NSECTS) <= size
}

impl<'a> Commands<'a> {
    // Those of a file.
    pub fn of(file: &'a [u8]) -> Commands<'a>
        ensures bytes { result.bytes.now ≡ command_bytes (before file) }
        ensures count { (result.count ≡ ncmds (before file)) × (result.count < 2 ^ 32) }
    {
        let size = field32(file, 0, SIZEOFCMDS);
        Commands {
            bytes: part(file, SIZEOF_MACH_HEADER_64, size),
            count: field32(file, 0, NCMDS),
        }
    }

    // 16: does each command fit?
    fn fit(self) -> bool
        ensures { result ≡ all_fit self.entry.bytes.now self.entry.count 0 }
    {
        // `at` is moved by hand: only a command's own bytes say where the next stands.
        let mut at = 0;
        for _ in 0..self.count {
            if !command_fits(self.bytes, at) {
                return false;
            }
            at += field32(self.bytes, at, CMDSIZE);
        }
        true
    }

    // Those of a kind.
    pub fn of_kind(self, kind: u64) -> CommandsOfKind<'a>
        ensures { offsets result ≡ of_kind kind self.entry.bytes.now self.entry.count 0 }
    {
        self.of_kind_from(kind, 0)
    }

    // Those of a kind among the commands from an offset on, as many as are counted: public as `find` was, which it stands for.
    pub fn of_kind_from(self, kind: u64, from: u64) -> CommandsOfKind<'a>
        ensures { offsets result ≡ of_kind kind self.entry.bytes.now self.entry.count from }
    {
        CommandsOfKind {
            bytes: self.bytes,
            kind,
            left: self.count,
            at: from,
        }
    }
}

impl Iterator for CommandsOfKind<'_> {
    type Item = u64;

    ghost next_gives = { YieldsFirst offsets };

    ghost remaining = { item_count offsets };

    fn next(&mut self) -> Option<u64> {
        // `at` is moved by hand, as in `fit`. Unless one is found none is left, so that a call after the last looks at no command again.
        let mut at = self.at;
        let count = self.left;
        self.left = 0;
        for left in (0..count).rev() {
            if !command_fits(self.bytes, at) {
                break;
            }
            let next = at + field32(self.bytes, at, CMDSIZE);
            if field32(self.bytes, at, CMD) == self.kind {
                self.left = left;
                self.at = next;
                return Some(at);
            }
            at = next;
        }
        None
    }
}

// 15, then 16.
#[tactic(auto, unfolding(crate::specs::Commands::asked_commands), using(pointers::proofs::Questions::in_order))]
pub fn ask_commands(file: &[u8]) -> Result<(), Question>
    ensures { answered result ≡ asked_commands (before file) }
{
    if !headed(file) {
        return Err(Question::Header);
    }
    if !Commands::of(file).fit() {
        return Err(Question::LoadCommands);
    }
    Ok(())
}
