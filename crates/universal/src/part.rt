// The part of a file that is the image, and what parts there are. A thin file is one part, the whole file. An answer is a part, or none
// where there is no such part, or the question that says no.
ghost use Rattle.std.specs.Prelude.{◌≡◌, Ok};
ghost use Rattle.reads.specs.Reference.{before};
ghost use Rattle.universal.specs.Parts.{thin_part, thin_wanted, in_file, fat_wanted, part_wanted, fat_at, part_at};

use crate::arch::{Arch, chosen, is_arch};
use crate::fat::{Part, Table, arch_at, kind_of};
use reads::answer::Question;
use reads::place::{lies_in, u32_from};

// mach_header_64 (loader.h). macho has its magic too: that crate is not below this one.
const MH_MAGIC_64: u32 = 0xFEED_FACF;

const HEADER_CPUTYPE: u64 = 4;

const HEADER_CPUSUBTYPE: u64 = 8;

// A thin file as a part.
fn thin_part(file: &[u8]) -> Part
    ensures { result ≡ thin_part (before file) }
{
    Part {
        cputype: u64::from(u32_from(file, 0, HEADER_CPUTYPE)),
        cpusubtype: u64::from(u32_from(file, 0, HEADER_CPUSUBTYPE)),
        offset: 0,
        size: file.len() as u64,
    }
}

// A thin file, but for one with a header of another architecture than the wanted.
#[tactic(auto, using(std::proofs::lemmas::Bool::Decides::nat_tests), unfolding(crate::specs::Parts::thin_wanted, reads::specs::Outcome::choose))]
fn thin_wanted(file: &[u8], wanted: Option<Arch>) -> Option<Part>
    ensures { result ≡ thin_wanted (before file) wanted }
{
    let p = thin_part(file);
    match wanted {
        None => Some(p),
        Some(a) => {
            if u32_from(file, 0, 0) != MH_MAGIC_64 {
                return Some(p);
            }
            if is_arch(a, p) {
                return Some(p);
            }
            None
        }
    }
}

// 16, of a part: does it lie in a file of n bytes?
#[tactic(auto, using(std::proofs::lemmas::Bool::Decides::nat_tests), unfolding(crate::specs::Parts::in_file, reads::specs::Outcome::choose))]
fn in_file(n: u64, p: Part) -> Result<Part, Question>
    ensures { result ≡ in_file n p }
{
    if lies_in(n, p.offset, 0, p.size) {
        return Ok(p);
    }
    Err(Question::LoadCommands)
}

// The wanted part of a universal file: 16 of that part.
#[tactic(auto, using(crate::proofs::Searches::chosen_below, crate::proofs::Tables::table_whole), unfolding(crate::specs::Parts::fat_wanted, reads::specs::Outcome::choose))]
fn fat_wanted(table: Table, wanted: Option<Arch>) -> Result<Option<Part>, Question>
    ensures { result ≡ fat_wanted table.entry.file.now table.entry.kind wanted }
{
    let Some(i) = chosen(table, wanted) else {
        return Ok(None);
    };
    let p = in_file(table.file.len() as u64, arch_at(table, i))?;
    Ok(Some(p))
}

// The part of a file that is the image: of the architecture that is wanted; or arm64, without it the first 64-bit one.
#[tactic(auto, using(crate::proofs::Tables::entries_cut), unfolding(crate::specs::Parts::part_wanted, crate::specs::Parts::fat_wanted, reads::specs::Outcome::choose))]
pub fn find_part(file: &[u8], wanted: Option<Arch>) -> Result<Option<Part>, Question>
    ensures { result ≡ part_wanted (before file) wanted }
{
    match kind_of(file) {
        Some(kind) => fat_wanted(Table::of(file, kind)?, wanted),
        None => Ok(thin_wanted(file, wanted)),
    }
}

// Part i of a universal file, wherever its range lies.
#[tactic(auto, using(crate::proofs::Tables::table_whole), unfolding(crate::specs::Parts::fat_at, reads::specs::Outcome::choose))]
fn fat_at(table: Table, i: u64) -> Option<Part>
    ensures { Ok result ≡ fat_at table.entry.file.now table.entry.kind i }
{
    if table.count <= i {
        return None;
    }
    Some(arch_at(table, i))
}

// Part i of a file, in table order; absent past the last.
#[tactic(auto, using(crate::proofs::Tables::entries_cut), unfolding(crate::specs::Parts::part_at, crate::specs::Parts::fat_at, reads::specs::Outcome::choose))]
pub fn part_at(file: &[u8], i: u64) -> Result<Option<Part>, Question>
    ensures { result ≡ part_at (before file) i }
{
    match kind_of(file) {
        Some(kind) => Ok(fat_at(Table::of(file, kind)?, i)),
        None => {
            if i == 0 {
                return Ok(Some(thin_part(file)));
            }
            Ok(None)
        }
    }
}
