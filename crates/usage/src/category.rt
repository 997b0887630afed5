// Categories, noted on a sheet. Made by tools/usage/tracing.py of crates/records/src/category.rt.
ghost use Rattle.std.specs.Prelude.{◌≡◌};
ghost use Rattle.reads.specs.Answer.{outcome};
ghost use Rattle.records.specs.Category.{decode_category, decode_category_lists, decode_category_of, decode_category_properties};
ghost use Rattle.usage.specs.Noting.{noting, traced, trace};
ghost use Rattle.usage.specs.Pass.{reads};

use crate::noting::Noting;
use pointers::imageinfo::ImageInfo;
use reads::answer::Missing;
use reads::place::readable;
use records::category::{ObjcCategory, category_at};

impl Noting<'_> {
    // _classProperties where the image has the field; or 0.
    #[tactic(auto, using(crate::proofs::NotedBy::notes), unfolding(records::specs::Category::decode_category_properties, reads::specs::Outcome::choose))]
    fn note_category_properties(&mut self, va: u64, wide: bool) -> Result<u64, Missing>
        ensures { traced (outcome result) self.new ≡ trace (decode_category_properties va wide) self.old }
    {
        if wide {
            return self.note_pointer_or_0(va, ObjcCategory::CLASS_PROPERTIES);
        }
        Ok(0)
    }

    // The lists of a category_t but its class properties; each or 0.
    #[tactic(auto, using(crate::proofs::NotedBy::notes), unfolding(records::specs::Category::decode_category_lists))]
    fn note_category_lists(&mut self, va: u64) -> Result<(), Missing>
        ensures { traced (outcome result) self.new ≡ trace (reads (decode_category_lists va)) self.old }
    {
        self.note_pointer_or_0(va, ObjcCategory::INSTANCE_METHODS)?;
        self.note_pointer_or_0(va, ObjcCategory::CLASS_METHODS)?;
        self.note_pointer_or_0(va, ObjcCategory::PROTOCOLS)?;
        self.note_pointer_or_0(va, ObjcCategory::INSTANCE_PROPERTIES)?;
        Ok(())
    }

    // category_t, wider where it has the field for class properties: its fields in the order of category.rs, the name's text last.
    #[tactic(auto, using(crate::proofs::NotedBy::notes), unfolding(records::specs::Category::decode_category_of, reads::specs::Outcome::choose))]
    fn note_category_of(&mut self, va: u64, wide: bool) -> Result<(), Missing>
        ensures { traced (outcome result) self.new ≡ trace (reads (decode_category_of va wide)) self.old }
    {
        let size = if wide {
            ObjcCategory::SIZE_WITH_CLASS_PROPERTIES
        } else {
            ObjcCategory::SIZE
        };
        readable(self.tables.image(), va, size)?;
        let name_va = self.note_slot(va)?;
        self.note_pointer_or_0(va, ObjcCategory::CLS)?;
        self.note_category_lists(va)?;
        self.note_category_properties(va, wide)?;
        self.note_string(name_va)?;
        Ok(())
    }

    // The category at an address, by bit 6 of the image info's flags.
    #[tactic(auto, using(crate::proofs::NotedBy::notes), unfolding(records::specs::Category::decode_category))]
    fn category(&mut self, va: u64) -> Result<(), Missing>
        ensures { self.new ≡ noting (decode_category va) self.old }
    {
        let image_info = ImageInfo::parse(self.tables.info())?;
        let wide = image_info.has_category_class_properties();
        self.note_category_of(va, wide)
    }

    // The same, and the record, which the plain decoder makes. Two functions, so that `?` ends the reads and not the answer.
    #[tactic(auto, using(crate::proofs::NotedBy::notes))]
    pub fn note_category(&mut self, va: u64) -> Result<ObjcCategory, Missing>
        ensures { traced (outcome result) self.new ≡ trace (decode_category va) self.old }
    {
        let _ = self.category(va);
        category_at(self.tables, va)
    }
}
