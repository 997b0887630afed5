// The structs of fat.h: fat_header, and after it a table of fat_arch, or of fat_arch_64.
ghost use Rattle.std.specs.Prelude.{◌≡◌, ◌+◌, ◌≤◌, ◌<◌, length};
ghost use Rattle.reads.specs.Reference.{before};
ghost use Rattle.universal.specs.Fat.{nfat_arch, kind_of, arch_in, arch_offset, arch_at, table_fits};

use crate::number::be_in;
use reads::answer::Question;
use reads::place::Width;

// fat_header
pub const SIZEOF_FAT_HEADER: u64 = 8;

pub const MAGIC: u64 = 0;

pub const NFAT_ARCH: u64 = 4;

pub const FAT_MAGIC: u64 = 0xCAFE_BABE;

pub const FAT_MAGIC_64: u64 = 0xCAFE_BABF;

// fat_arch and fat_arch_64
pub const SIZEOF_FAT_ARCH: u64 = 20;

pub const SIZEOF_FAT_ARCH_64: u64 = 32;

pub const CPUTYPE: u64 = 0;

pub const CPUSUBTYPE: u64 = 4;

pub const OFFSET: u64 = 8;

// A part of a file: its architecture, and the range of its bytes.
#[derive(Clone, Copy)]
pub struct Part {
    pub cputype: u64,
    pub cpusubtype: u64,
    pub offset: u64,
    pub size: u64,
}

// Universal files: with a table of fat_arch; with one of fat_arch_64.
#[derive(Clone, Copy)]
pub enum Kind {
    Fat,
    Fat64,
}

// The kind of a file, by its magic; none where it is thin.
#[tactic(auto, using(std::proofs::lemmas::Bool::Decides::nat_tests), unfolding(crate::specs::Fat::kind_of, reads::specs::Outcome::choose))]
pub(crate) fn kind_of(file: &[u8]) -> Option<Kind>
    ensures { result ≡ kind_of (before file) }
{
    let magic = be_in::<u32>(file, MAGIC);
    if magic == FAT_MAGIC {
        return Some(Kind::Fat);
    }
    if magic == FAT_MAGIC_64 {
        return Some(Kind::Fat64);
    }
    None
}

// The entry at an offset: offset and size are u32 in a fat_arch, u64 in a fat_arch_64.
#[tactic(auto, unfolding(crate::specs::Fat::arch_in))]
fn arch_in<W: Width>(file: &[u8], at: u64) -> Part
    requires { at + 16 ≤ length file.now }
    ensures { result ≡ arch_in W.BYTES (before file) at }
{
    Part {
        cputype: be_in::<u32>(file, at + CPUTYPE),
        cpusubtype: be_in::<u32>(file, at + CPUSUBTYPE),
        offset: be_in::<W>(file, at + OFFSET),
        size: be_in::<W>(file, at + OFFSET + W::BYTES as u64),
    }
}

// The table of a universal file, of a kind, and its count of entries: all of them lie in the file.
#[derive(Clone, Copy)]
pub(crate) struct Table<'a> {
    pub(crate) file: &'a [u8],
    pub(crate) kind: Kind,
    pub(crate) count: u64,
    ghost counted: { count ≡ nfat_arch file.now },
    ghost inside: { arch_offset kind count ≤ length file.now },
}

impl<'a> Table<'a> {
    ghost use Rattle.std.specs.Prelude.{IfOk};
    ghost use Rattle.std.specs.Result.{result_map_both};
    ghost use Rattle.universal.specs.Parts.{entries};

    // A table that lies in its file; 16 where it does not.
    #[tactic(auto, using(crate::proofs::Tables::table_room), unfolding(crate::specs::Parts::entries, reads::specs::Outcome::choose))]
    pub(crate) fn of(file: &'a [u8], kind: Kind) -> Result<Table<'a>, Question>
        ensures count { result_map_both (λ t. t.count) (λ q. q) result ≡ entries (before file) kind }
        ensures table { IfOk result (λ t. (t.file.now ≡ before file) × (t.kind ≡ kind)) }
    {
        if !table_fits(file, kind) {
            return Err(Question::LoadCommands);
        }
        Ok(Table {
            file,
            kind,
            count: be_in::<u32>(file, NFAT_ARCH),
        })
    }
}

// Whether a table lies in the file.
#[tactic(auto, using(crate::proofs::Tables::table_short, crate::proofs::Tables::table_fat, crate::proofs::Tables::table_fat64))]
fn table_fits(file: &[u8], kind: Kind) -> bool
    ensures { result ≡ table_fits (before file) kind }
{
    let n = file.len() as u64;
    if n < SIZEOF_FAT_HEADER {
        return false;
    }
    let room = n - SIZEOF_FAT_HEADER;
    let count = be_in::<u32>(file, NFAT_ARCH);
    match kind {
        Kind::Fat => count <= room / SIZEOF_FAT_ARCH,
        Kind::Fat64 => count <= room / SIZEOF_FAT_ARCH_64,
    }
}

// Entry i of a table.
#[tactic(auto, unfolding(crate::specs::Fat::arch_at))]
pub(crate) fn arch_at(table: Table, i: u64) -> Part
    requires { i < table.count }
    ensures { result ≡ arch_at table.entry.file.now table.entry.kind i }
{
    match table.kind {
        Kind::Fat => arch_in::<u32>(table.file, SIZEOF_FAT_HEADER + SIZEOF_FAT_ARCH * i),
        Kind::Fat64 => arch_in::<u64>(table.file, SIZEOF_FAT_HEADER + SIZEOF_FAT_ARCH_64 * i),
    }
}
