// A Mach-O file for C (include/objclist_file.h): the part of a universal file, the tables, and the listing, written to a file descriptor.
ghost use Rattle.std.specs.Prelude.{◌≡◌, None, Some};
ghost use Rattle.reads.specs.Reference.{before};
ghost use Rattle.reads.specs.declared.text.Reading.TheVariants.{New};
ghost use Rattle.universal.specs.Architecture.{arch_of};
ghost use Rattle.universal.specs.Parts.{part_wanted, part_at};
ghost use Rattle.fixups.specs.Fixups.{built_outcome, settled};
ghost use Rattle.filetables.specs.FileRecords.{file_records};
ghost use Rattle.printing.specs.Pieces.{begun};
ghost use Rattle.filelist.specs.FileText.{file_setting, framed_file};
ghost use Rattle.filelist.specs.FileLent.{index_used, segments_after, sections_after, index_after};
ghost use Rattle.filewrite.specs.Written.{Written, tables_read};
ghost use Rattle.face.specs.File.{part_words, tables_words, sizes_of, ranges_of};

use filetables::build::file_tables;
use filewrite::write::{Wrote, write_file};
use frames::frames::Ranges;
use macho::open::{Lent, SEGMENT_TABLE_WORDS};
use pointers::index::HEADS;
use pointers::section::ObjcSection;
use pointers::table::{Bind, Rebase};
use reads::answer::Question;
use universal::arch::Arch;
use universal::fat::Part;
use universal::part::{find_part, part_at};

// A part of a universal file. Status 0: it was found; 1: refused, by the number; 2: there is none. Numbers, here and below: C is handed these structs
// as they are.
#[repr(C)]
#[derive(Clone, Copy, Default)]
pub struct FilePart {
    pub status: u64,
    pub number: u64,
    pub cputype: u64,
    pub cpusubtype: u64,
    pub offset: u64,
    pub size: u64,
}

// How many rebases and binds were written. Status 0: these; 1: refused, by the number, and nothing was written; 2 is never given.
#[repr(C)]
#[derive(Clone, Copy, Default)]
pub struct Counts {
    pub status: u64,
    pub number: u64,
    pub rebases: u64,
    pub binds: u64,
}

// The elements to lend for a file: as many as no question refuses.
#[repr(C)]
#[derive(Clone, Copy)]
pub struct Sizes {
    pub segments: u64,
    pub sections: u64,
    pub rebases: u64,
    pub binds: u64,
    pub index: u64,
    pub ledger: u64,
}

// The most records of a table (questions 5 and 6).
const RECORDS: u64 = 16_777_215;

// The bytes of a slot of a section.
const SLOT: u64 = 8;

impl From<Result<Option<Part>, Question>> for FilePart {
    ghost from_gives = { λ x w. w ≡ part_words x };

    fn from(answer: Result<Option<Part>, Question>) -> FilePart {
        match answer {
            Ok(Some(p)) => FilePart {
                status: 0,
                number: 0,
                cputype: p.cputype,
                cpusubtype: p.cpusubtype,
                offset: p.offset,
                size: p.size,
            },
            Ok(None) => FilePart {
                status: 2,
                ..FilePart::default()
            },
            Err(k) => FilePart {
                status: 1,
                number: k.number() as u64,
                ..FilePart::default()
            },
        }
    }
}

// The part of a file that is listed: arm64, without it the first 64-bit one.
#[unsafe(no_mangle)]
pub extern "C" fn objclist_part(file: &[u8]) -> FilePart
    ensures { result ≡ part_words (part_wanted (before file) None) }
{
    FilePart::from(find_part(file, None))
}

// The part of an architecture (machine.h); a cpusubtype of 0xffffffff is any.
#[unsafe(no_mangle)]
pub extern "C" fn objclist_part_of(file: &[u8], cputype: u64, cpusubtype: u64) -> FilePart
    ensures { result ≡ part_words (part_wanted (before file) (Some (arch_of cputype cpusubtype))) }
{
    let arch = Arch {
        cputype,
        cpusubtype,
    };
    FilePart::from(find_part(file, Some(arch)))
}

// Part i of a file, in table order.
#[unsafe(no_mangle)]
pub extern "C" fn objclist_part_at(file: &[u8], i: u64) -> FilePart
    ensures { result ≡ part_words (part_at (before file) i) }
{
    FilePart::from(part_at(file, i))
}

// The elements to lend for a file of n bytes.
#[unsafe(no_mangle)]
pub extern "C" fn objclist_sizes(n: u64) -> Sizes
    ensures { result ≡ sizes_of n }
{
    Sizes {
        segments: SEGMENT_TABLE_WORDS as u64,
        sections: ObjcSection::TABLE_WORDS as u64,
        rebases: Rebase::WORDS as u64 * RECORDS,
        binds: Bind::WORDS as u64 * RECORDS,
        index: HEADS as u64 + RECORDS + RECORDS,
        ledger: n / SLOT * 2,
    }
}

impl From<Result<(u64, u64), Question>> for Counts {
    ghost from_gives = { λ x w. w ≡ tables_words (built_outcome x) };

    fn from(answer: Result<(u64, u64), Question>) -> Counts {
        match answer {
            Ok((rebases, binds)) => Counts {
                status: 0,
                number: 0,
                rebases,
                binds,
            },
            Err(k) => Counts {
                status: 1,
                number: k.number() as u64,
                ..Counts::default()
            },
        }
    }
}

// The rebases, 2 words each, and the binds, 4 words each, of a file.
#[unsafe(no_mangle)]
pub extern "C" fn objclist_tables(file: &[u8], rebases: &mut [u64], binds: &mut [u64]) -> Counts
    ensures counts { result ≡ tables_words (settled (file_records (before file)) rebases.old binds.old).counts }
    ensures rebases { rebases.new ≡ (settled (file_records (before file)) rebases.old binds.old).rebases }
    ensures binds { binds.new ≡ (settled (file_records (before file)) rebases.old binds.old).binds }
{
    Counts::from(file_tables(file, rebases, binds))
}

// Writes the listing of a file to a file descriptor, its methods marked for frames and slides in these ranges.
#[unsafe(no_mangle)]
pub extern "C" fn objclist_write<'a, 'b>(
    fd: i32,
    first_frame: u64,
    last_frame: u64,
    first_slide: u64,
    last_slide: u64,
    file: &[u8],
    segments: &'a mut [u64],
    sections: &'a mut [u64],
    rebases: &'b [u64],
    binds: &'b [u64],
    index: &'a mut [u32],
    ledger: &mut [u64],
    out: &mut [u8; 65536],
) -> Wrote
    ensures written { let x = ranges_of first_frame last_frame first_slide last_slide in
        let t = tables_read x (before file) segments.old sections.old (before rebases) (before binds) index.old in
        let opened = framed_file x (before file) segments.old sections.old (before rebases) (before binds) (index_used (before rebases) (before binds) index.old) in
        Written t (begun (file_setting New (before rebases)) opened ledger.old) out.old result ledger.new out.new }
    ensures segments { segments.new ≡ segments_after (ranges_of first_frame last_frame first_slide last_slide) (before file) segments.old sections.old (before rebases) (before binds) index.old }
    ensures sections { sections.new ≡ sections_after (ranges_of first_frame last_frame first_slide last_slide) (before file) segments.old sections.old (before rebases) (before binds) index.old }
    ensures index { index.new ≡ index_after (ranges_of first_frame last_frame first_slide last_slide) (before file) segments.old sections.old (before rebases) (before binds) index.old }
{
    let ranges = Some(Ranges {
        first_frame,
        last_frame,
        first_slide,
        last_slide,
    });
    let mut lent = Lent {
        segments,
        sections,
        index,
        rebases,
        binds,
    };
    write_file(fd, ranges, file, &mut lent, ledger, out)
}
