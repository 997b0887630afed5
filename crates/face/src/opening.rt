// Opening for C: of tables that are lent, and of a Mach-O file, whose segments and sections it fills in.
ghost use Rattle.std.specs.Prelude.{◌≡◌};
ghost use Rattle.reads.specs.Files.{files_of};
ghost use Rattle.reads.specs.Reference.{before};
ghost use Rattle.pointers.specs.Open.{opening, opened_index};
ghost use Rattle.pointers.specs.Tables.{tables_of};
ghost use Rattle.walks.specs.Sections.{decoded_step};
ghost use Rattle.macho.specs.OpenFile.{opening_file, segments_left, sections_left, index_left};
ghost use Rattle.face.specs.Opening.{opened_words, file_words, file_told};
ghost use Rattle.reads.specs.Answer.{outcome};

use crate::decoding::{lent, told};
use crate::status::Status;
use macho::open::{Lent, OpenedFile, open_file};
use pointers::imageinfo::ImageInfo;
use pointers::open::open;
use reads::answer::Missing;
use walks::section_slots::decoded_step;

// The image info: version and flags.
#[repr(C)]
#[derive(Clone, Copy)]
pub struct InfoTold {
    pub status: Status,
    pub version: u64,
    pub flags: u64,
}

// An opened file: how many segments it has, its image info, and where the bytes of that lie in the file.
#[repr(C)]
#[derive(Clone, Copy, Default)]
pub struct FileWords {
    pub segments: u64,
    pub version: u64,
    pub flags: u64,
    pub info_at: u64,
    pub info_len: u64,
}

#[repr(C)]
#[derive(Clone, Copy)]
pub struct FileTold {
    pub status: Status,
    pub file: FileWords,
}

impl From<OpenedFile> for FileWords {
    ghost from_gives = { λ x w. w ≡ file_words x };

    fn from(opened: OpenedFile) -> FileWords {
        let info = opened.info;
        FileWords {
            segments: opened.segments,
            version: info.version as u64,
            flags: info.flags as u64,
            info_at: opened.info_at,
            info_len: opened.info_len,
        }
    }
}

// By hand and not by `told`: C gets the two words as fields beside the status, and no struct of them.
impl From<Result<ImageInfo, Missing>> for InfoTold {
    ghost from_gives = { λ x w. w ≡ opened_words (decoded_step (outcome x)) };

    fn from(answer: Result<ImageInfo, Missing>) -> InfoTold {
        match answer {
            Ok(info) => InfoTold {
                status: Status::found(),
                version: info.version as u64,
                flags: info.flags as u64,
            },
            Err(m) => InfoTold {
                status: Status::from(m),
                version: 0,
                flags: 0,
            },
        }
    }
}

// Opens the tables and writes the index; with a number it is as it was.
#[unsafe(no_mangle)]
pub extern "C" fn objclist_open(
    files: &[&[u8]],
    segments: &[u64],
    sections: &[u64],
    info: &[u8],
    rebases: &[u64],
    binds: &[u64],
    index: &mut [u32],
) -> InfoTold
    ensures answer { let t = tables_of (files_of files) (before segments) (before sections) (before info) (before rebases) (before binds) index.old in
        result ≡ opened_words (decoded_step (opening t)) }
    ensures contents { let t = tables_of (files_of files) (before segments) (before sections) (before info) (before rebases) (before binds) index.old in
        index.new ≡ opened_index t }
{
    let tables = lent(files, segments, sections, info, rebases, binds, &[]);
    InfoTold::from(open(&tables, index))
}

// Opens a Mach-O file: fills the segments and the sections by loader.h and writes the index; with a number all three are as they were.
#[unsafe(no_mangle)]
pub extern "C" fn objclist_open_file<'a, 'b>(
    file: &[u8],
    segments: &'a mut [u64],
    sections: &'a mut [u64],
    rebases: &'b [u64],
    binds: &'b [u64],
    index: &'a mut [u32],
) -> FileTold
    ensures answer { result ≡ file_told (decoded_step (opening_file (before file) segments.old sections.old (before rebases) (before binds) index.old)) }
    ensures segments { segments.new ≡ segments_left (before file) segments.old sections.old (before rebases) (before binds) index.old }
    ensures sections { sections.new ≡ sections_left (before file) segments.old sections.old (before rebases) (before binds) index.old }
    ensures index { index.new ≡ index_left (before file) segments.old sections.old (before rebases) (before binds) index.old }
{
    let mut lent = Lent {
        segments,
        sections,
        index,
        rebases,
        binds,
    };
    let answer = open_file(file, &mut lent);
    let (status, file) = told(decoded_step(answer), FileWords::default());
    FileTold { status, file }
}
