// The section table that a file's section headers (loader.h, section_64) define.
ghost use Rattle.std.specs.Prelude.{◌≡◌, ◌+◌, ◌*◌, ◌≤◌, length};
ghost use Rattle.std.proofs.lemmas.List.Edits.{sets};
ghost use Rattle.reads.specs.Reference.{before};
ghost use Rattle.pointers.specs.Tables.{section_words, section_table_words};
ghost use Rattle.macho.specs.Sections.{named, headers_from, section_at, first_named, section_named, info_section_of, section_row, section_table_of};

use crate::command::Commands;
use crate::loader::{
    ADDR, LC_SEGMENT_64, NSECTS, OFFSET, SIZE, SIZEOF_NAME, SIZEOF_SECTION_64,
    SIZEOF_SEGMENT_COMMAND_64,
};
use crate::number::field32;
use pointers::section::ObjcSection;
use pointers::symbol::starts_with;
use reads::place::{part, u64_from};

// In the order of the section table: class_list, nlclslist, cat_list, nlcat_list, proto_list. Names are 16 bytes, filled with zeros.
const SECTION_NAMES: [[u8; 16]; 5] = [
    *b"__objc_classlist",
    *b"__objc_nlclslist",
    *b"__objc_catlist\0\0",
    *b"__objc_nlcatlist",
    *b"__objc_protolist",
];

const IMAGE_INFO: [u8; 16] = *b"__objc_imageinfo";

// A section: by default one without bytes.
#[derive(Clone, Copy, Default)]
pub struct Section {
    pub addr: u64,
    pub size: u64,
    pub offset: u64,
}

// Whether the 16 bytes at an offset are a name.
#[tactic(auto, unfolding(crate::specs::Sections::named))]
pub fn has_name(bytes: &[u8], at: u64, name: &[u8]) -> bool
    ensures { result ≡ named (before bytes) (before name) at }
{
    starts_with(part(bytes, at, SIZEOF_NAME), name)
}

// The section whose header stands at an offset.
fn section_at(bytes: &[u8], at: u64) -> Section
    ensures { result ≡ section_at (before bytes) at }
{
    Section {
        addr: u64_from(bytes, at, ADDR),
        size: u64_from(bytes, at, SIZE),
        offset: field32(bytes, at, OFFSET),
    }
}

// The first section of a name among `count` headers from an offset on.
fn section_in(bytes: &[u8], from: u64, count: u64, name: &[u8]) -> Option<Section>
    requires { from + 80 * count ≤ length bytes.now }
    ensures { result ≡ first_named (before bytes) (before name) (headers_from count from) }
{
    (0..count)
        .map(|i| from + SIZEOF_SECTION_64 * i)
        .find(|at| has_name(bytes, *at, name))
        .map(|at| section_at(bytes, at))
}

// The first section of a name in command order.
fn section_named(cmds: Commands, name: &[u8]) -> Option<Section>
    ensures { result ≡ section_named cmds.entry.bytes.now cmds.entry.count (before name) }
{
    // Not `find_map`: its closure would need a clause of its own, that the headers of a segment command lie in the bytes.
    for at in cmds.of_kind(LC_SEGMENT_64) {
        let s = section_in(
            cmds.bytes,
            at + SIZEOF_SEGMENT_COMMAND_64,
            field32(cmds.bytes, at, NSECTS),
            name,
        );
        if s.is_some() {
            return s;
        }
    }
    None
}

// The section of the image info, by default where there is none.
pub(crate) fn info_section(cmds: Commands) -> Section
    ensures { result ≡ info_section_of cmds.entry.bytes.now cmds.entry.count }
{
    let name = IMAGE_INFO;
    section_named(cmds, &name).unwrap_or_default()
}

// The row of a section: 1 and its words, or zeros for an absent one.
#[tactic(auto, unfolding(crate::specs::Sections::section_row))]
fn row_of(s: Option<Section>) -> [u64; ObjcSection::WORDS]
    ensures { result ≡ section_row s }
{
    match s {
        Some(s) => [1, s.addr, s.size],
        None => [0; ObjcSection::WORDS],
    }
}

// Writes the row of a section, from word i on.
#[tactic(auto, using(crate::proofs::Tables::part_put))]
fn put_section(s: Option<Section>, table: &mut [u64], i: usize)
    requires { i + section_words ≤ length table.old }
    ensures { table.new ≡ sets table.old i (section_row s) }
{
    table[i..i + ObjcSection::WORDS].copy_from_slice(&row_of(s));
}

// Writes the rows of the five sections.
pub(crate) fn write_sections(cmds: Commands, table: &mut [u64])
    requires { length table.old ≡ section_table_words }
    ensures { table.new ≡ section_table_of cmds.entry.bytes.now cmds.entry.count }
{
    let names = SECTION_NAMES;
    for (k, name) in names.iter().enumerate() {
        put_section(section_named(cmds, name), table, ObjcSection::WORDS * k);
    }
}
