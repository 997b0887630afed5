// Question 25: is the file of a kind that is read, and whole? Of another rows or names would be missed in silence.
ghost use Rattle.std.specs.Prelude.{◌≡◌, ◌<◌, ◌^◌, ◌+◌, ◌==◌, nat_le};
ghost use Rattle.std.specs.List.{list_all};
ghost use Rattle.reads.specs.Reference.{before};
ghost use Rattle.macho.specs.Number.{u32_at};
ghost use Rattle.macho.specs.Commands.{of_kind, segments_of};
ghost use Rattle.filetables.specs.Kind.{type_read, segment_read, stream_read, info_read, carriers, commands_read, is_read, asked_kind};
ghost use Rattle.reads.specs.Answer.{answered};

use crate::loader::{
    CRYPTID, FILETYPE, FLAGS, LC_DYSYMTAB, LC_ENCRYPTION_INFO, LC_ENCRYPTION_INFO_64, MH_BUNDLE,
    MH_DYLIB, MH_DYLIB_IN_CACHE, MH_DYLINKER, MH_EXECUTE, NEXTREL, SEGMENT_FLAGS,
    SG_PROTECTED_VERSION_1,
};
use fixups::fixup_chains::LC_DYLD_CHAINED_FIXUPS;
use macho::command::{Commands, ask_commands};
use macho::loader::{FILEOFF, FILESIZE, LC_SEGMENT_64};
use macho::number::field32;
use opcodes::dyld_info::{
    BIND_OFF, LAZY_BIND_OFF, LC_DYLD_INFO, LC_DYLD_INFO_ONLY, STREAM_SIZE, WEAK_BIND_OFF,
};
use reads::answer::Question;
use reads::place::{lies_in, u64_from};

// The kinds of file that dyld loads by themselves.
#[tactic(auto, unfolding(crate::specs::Kind::type_read), using(std::proofs::lemmas::Bool::Decides::nat_tests))]
fn type_read(filetype: u64) -> bool
    ensures { result ≡ type_read filetype }
{
    matches!(filetype, MH_EXECUTE | MH_DYLIB | MH_DYLINKER | MH_BUNDLE)
}

// The load commands of a file, and how many bytes the file has.
#[derive(Clone, Copy)]
struct FileCommands<'a> {
    cmds: Commands<'a>,
    size: u64,
}

impl FileCommands<'_> {
    // A segment: its part of the file lies in the file, and is not encrypted.
    #[tactic(auto, unfolding(crate::specs::Kind::segment_read), using(std::proofs::lemmas::Bool::Decides::nat_tests))]
    fn segment_read(self, at: u64) -> bool
        ensures { result ≡ segment_read self.entry.size self.entry.cmds.bytes.now at }
    {
        let from = u64_from(self.cmds.bytes, at, FILEOFF);
        if !lies_in(self.size, from, 0, u64_from(self.cmds.bytes, at, FILESIZE)) {
            return false;
        }
        field32(self.cmds.bytes, at, SEGMENT_FLAGS) / SG_PROTECTED_VERSION_1 % 2 == 0
    }

    // A stream of bind opcodes lies in the file: its offset, and its size after it.
    #[tactic(auto, unfolding(crate::specs::Kind::stream_read), using(std::proofs::lemmas::Bool::Decides::nat_tests))]
    fn stream_read(self, at: u64, field: u64) -> bool
        requires { field < 2 ^ 32 }
        ensures { result ≡ stream_read self.entry.size self.entry.cmds.bytes.now at field }
    {
        let size = field32(self.cmds.bytes, at, field + STREAM_SIZE);
        lies_in(self.size, field32(self.cmds.bytes, at, field), 0, size)
    }

    // The streams of bind opcodes lie in the file.
    #[tactic(auto, unfolding(crate::specs::Kind::info_read), using(std::proofs::lemmas::Bool::Decides::nat_tests))]
    fn info_read(self, at: u64) -> bool
        ensures { result ≡ info_read self.entry.size self.entry.cmds.bytes.now at }
    {
        if !self.stream_read(at, BIND_OFF) {
            return false;
        }
        if !self.stream_read(at, WEAK_BIND_OFF) {
            return false;
        }
        self.stream_read(at, LAZY_BIND_OFF)
    }

    // All segments.
    fn segments_read(self) -> bool
        ensures { result ≡ list_all (segment_read self.entry.size self.entry.cmds.bytes.now) (segments_of self.entry.cmds.bytes.now self.entry.cmds.count) }
    {
        self.cmds
            .of_kind(LC_SEGMENT_64)
            .all(|at| self.segment_read(at))
    }

    // Nothing is bound by relocations.
    fn no_relocations(self) -> bool
        ensures { result ≡ list_all (λ a. u32_at self.entry.cmds.bytes.now (a + 68) == 0) (of_kind 0xB self.entry.cmds.bytes.now self.entry.cmds.count 0) }
    {
        self.cmds
            .of_kind(LC_DYSYMTAB)
            .all(|at| field32(self.cmds.bytes, at, NEXTREL) == 0)
    }

    // Nothing is encrypted, by the encryption_info_commands of a kind.
    fn none_encrypted(self, kind: u64) -> bool
        ensures { result ≡ list_all (λ a. u32_at self.entry.cmds.bytes.now (a + 16) == 0) (of_kind kind self.entry.cmds.bytes.now self.entry.cmds.count 0) }
    {
        self.cmds
            .of_kind(kind)
            .all(|at| field32(self.cmds.bytes, at, CRYPTID) == 0)
    }

    // All dyld_info_commands of a kind.
    fn infos_read(self, kind: u64) -> bool
        ensures { result ≡ list_all (info_read self.entry.size self.entry.cmds.bytes.now) (of_kind kind self.entry.cmds.bytes.now self.entry.cmds.count 0) }
    {
        self.cmds.of_kind(kind).all(|at| self.info_read(at))
    }

    // At most one command says what is bound.
    fn one_carrier(self) -> bool
        ensures { result ≡ nat_le (carriers self.entry.cmds.bytes.now self.entry.cmds.count) 1 }
    {
        self.cmds
            .of_kind(LC_DYLD_CHAINED_FIXUPS)
            .chain(self.cmds.of_kind(LC_DYLD_INFO))
            .chain(self.cmds.of_kind(LC_DYLD_INFO_ONLY))
            .nth(1)
            .is_none()
    }

    // The commands of the file.
    fn commands_read(self) -> bool
        ensures { result ≡ commands_read self.entry.size self.entry.cmds.bytes.now self.entry.cmds.count }
    {
        self.segments_read()
            && self.no_relocations()
            && self.none_encrypted(LC_ENCRYPTION_INFO)
            && self.none_encrypted(LC_ENCRYPTION_INFO_64)
            && self.infos_read(LC_DYLD_INFO)
            && self.infos_read(LC_DYLD_INFO_ONLY)
            && self.one_carrier()
    }
}

// 25.
#[tactic(auto, unfolding(crate::specs::Kind::is_read), using(std::proofs::lemmas::Bool::Decides::nat_tests))]
fn is_read(file: &[u8]) -> bool
    ensures { result ≡ is_read (before file) }
{
    if !type_read(field32(file, 0, FILETYPE)) {
        return false;
    }
    if field32(file, 0, FLAGS) >= MH_DYLIB_IN_CACHE {
        return false;
    }
    let commands = FileCommands {
        cmds: Commands::of(file),
        size: file.len() as u64,
    };
    commands.commands_read()
}

// 15 and 16, then 25.
#[tactic(auto, unfolding(crate::specs::Kind::asked_kind), using(pointers::proofs::Questions::in_order))]
pub fn ask_kind(file: &[u8]) -> Result<(), Question>
    ensures { answered result ≡ asked_kind (before file) }
{
    ask_commands(file)?;
    if is_read(file) {
        return Ok(());
    }
    Err(Question::FileKind)
}
