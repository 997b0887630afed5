// Where chains start (fixup-chains.h, dyld_chained_starts_in_image and dyld_chained_starts_in_segment).
ghost use Rattle.std.specs.Prelude.{◌≡◌, ◌+◌};
ghost use Rattle.reads.specs.Reference.{before};
ghost use Rattle.fixups.specs.Starts.{page_in, pages_in, segment_starts_in, info_in, image_starts_in, fixups_of};
ghost use Rattle.fixups.specs.Tables.{Walks};
ghost use Rattle.reads.specs.Answer.{answered};

use crate::chain::{Data, Fixups, PointerFormat, Starts};
use crate::fixup_chains::{
    DYLD_CHAINED_IMPORT, DYLD_CHAINED_PTR_START_MULTI, DYLD_CHAINED_PTR_START_NONE, IMPORTS_COUNT,
    IMPORTS_FORMAT, IMPORTS_OFFSET, PAGE_COUNT, PAGE_SIZE, PAGE_START, POINTER_FORMAT, SEG_COUNT,
    SEG_INFO_OFFSET, SIZEOF_CHAINED_FIXUPS_HEADER, STARTS_OFFSET, SYMBOLS_FORMAT, SYMBOLS_OFFSET,
    SYMBOLS_UNCOMPRESSED,
};
use crate::table::Lists;
use macho::loader::{FILEOFF, LC_SEGMENT_64, VMADDR};
use reads::answer::Question;
use reads::place::{u16_from, u32_from, u64_from};

impl Data<'_> {
    // Where the starts of a seg_info_offset stand in the fixup data.
    fn starts_at(self, info: u32) -> u64
        ensures { result ≡ self.entry.fixups.starts + info }
    {
        u64::from(self.fixups.starts) + u64::from(info)
    }

    // Page p of a segment.
    fn page(self, s: Starts, p: u16, lists: &mut Lists) -> Result<(), Question>
        ensures { Walks (page_in self.entry s p) result lists.old lists.new }
    {
        let first = self.starts_at(s.info) + PAGE_START;
        let i = 2 * u64::from(p);
        // One compare and not `lies_in`, here, below and in name's `text_at` and `import_at`: a sum of u32 does not pass 64 bits.
        if (self.body.len() as u64) < first + i + 2 {
            return Err(Question::FixupData);
        }
        let start = u16_from(self.body, first, i);
        if start == DYLD_CHAINED_PTR_START_NONE {
            return Ok(());
        }
        if start >= DYLD_CHAINED_PTR_START_MULTI {
            return Err(Question::FixupData);
        }
        let offset = u32::from(p) * u32::from(s.size);
        self.chain(s, offset, start, lists)
    }

    // The pages of a segment.
    fn pages(self, s: Starts, count: u16, lists: &mut Lists) -> Result<(), Question>
        ensures { Walks (pages_in self.entry s count) result lists.old lists.new }
    {
        for p in 0..count {
            self.page(s, p, lists)?;
        }
        Ok(())
    }

    // The starts of a seg_info_offset, of the segment whose command stands at `command`. Not inlined: beside the walk over the segments, the one
    // over its slots would have its offset and its page's size in memory.
    #[inline(never)]
    fn segment_starts(self, info: u32, command: u64, lists: &mut Lists) -> Result<(), Question>
        ensures { Walks (segment_starts_in self.entry info command) result lists.old lists.new }
    {
        let at = self.starts_at(info);
        if (self.body.len() as u64) < at + PAGE_START {
            return Err(Question::FixupData);
        }
        let format = PointerFormat::try_from(u16_from(self.body, at, POINTER_FORMAT))?;
        let s = Starts {
            vmaddr: u64_from(self.cmds.bytes, command, VMADDR),
            fileoff: u64_from(self.cmds.bytes, command, FILEOFF),
            info,
            format,
            size: u16_from(self.body, at, PAGE_SIZE),
        };
        self.pages(s, u16_from(self.body, at, PAGE_COUNT), lists)
    }

    // One seg_info_offset, of the segment whose command stands at `segment`, if there is one; 0 has no starts.
    fn segment_info(
        self,
        segment: Option<u64>,
        offset: u32,
        lists: &mut Lists,
    ) -> Result<(), Question>
        ensures { Walks (info_in self.entry offset segment) result lists.old lists.new }
    {
        if offset == 0 {
            return Ok(());
        }
        let command = segment.ok_or(Question::FixupData)?;
        self.segment_starts(offset, command, lists)
    }

    // The starts of the image, segment by segment.
    pub(crate) fn image_starts(self, lists: &mut Lists) -> Result<(), Question>
        ensures { Walks (image_starts_in self.entry) result lists.old lists.new }
    {
        let starts = u64::from(self.fixups.starts);
        if (self.body.len() as u64) < starts + SEG_INFO_OFFSET {
            return Err(Question::FixupData);
        }
        let total = u32_from(self.body, starts, SEG_COUNT);
        let first = starts + SEG_INFO_OFFSET;
        let mut segments = self.cmds.of_kind(LC_SEGMENT_64);
        for i in 0..total {
            let next = 4 * u64::from(i);
            if (self.body.len() as u64) < first + next + 4 {
                return Err(Question::FixupData);
            }
            let offset = u32_from(self.body, first, next);
            self.segment_info(segments.next(), offset, lists)?;
        }
        Ok(())
    }
}

// The header of the fixup data, which stands at bytes into the file.
pub(crate) fn fixups_of(body: &[u8], at: u32, base: u64) -> Result<Fixups, Question>
    ensures { answered result ≡ fixups_of (before body) at base }
{
    if (body.len() as u64) < SIZEOF_CHAINED_FIXUPS_HEADER {
        return Err(Question::FixupData);
    }
    if u32_from(body, 0, IMPORTS_FORMAT) != DYLD_CHAINED_IMPORT {
        return Err(Question::FixupData);
    }
    if u32_from(body, 0, SYMBOLS_FORMAT) != SYMBOLS_UNCOMPRESSED {
        return Err(Question::FixupData);
    }
    Ok(Fixups {
        at,
        starts: u32_from(body, 0, STARTS_OFFSET),
        imports: u32_from(body, 0, IMPORTS_OFFSET),
        symbols: u32_from(body, 0, SYMBOLS_OFFSET),
        count: u32_from(body, 0, IMPORTS_COUNT),
        base,
    })
}
