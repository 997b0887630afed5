// The lists of a record, noted on a sheet, in the order of their numbers (listing/specs/PlainListing.antt).
ghost use Rattle.std.specs.Prelude.{◌≡◌, map};
ghost use Rattle.listing.specs.Listing.{field_of};
ghost use Rattle.reads.specs.Answer.{answered};
ghost use Rattle.usage.specs.Noting.{traced, trace};
ghost use Rattle.usage.specs.Pass.{each, pass_field};

use crate::noting::Noting;
use listing::at::Field;
use reads::answer::Question;

impl Noting<'_> {
    // A list.
    #[tactic(auto, unfolding(crate::specs::Pass::pass_field))]
    fn note_field_list(&mut self, field: Field) -> Result<(), Question>
        ensures { traced (answered result) self.new ≡ trace (pass_field (field_of field)) self.old }
    {
        match field {
            Field::Rows(kind, va) => self.note_rows(kind, va),
            Field::Names(va) => self.note_names(va),
        }
    }

    // Lists, one after another.
    #[tactic(auto, using(crate::proofs::NotedBy::notes), unfolding(crate::specs::Pass::each))]
    pub fn note_lists(&mut self, fields: &[Field]) -> Result<(), Question>
        ensures { traced (answered result) self.new ≡ trace (each pass_field (map field_of fields.now)) self.old }
    {
        for field in fields {
            self.note_field_list(*field)?;
        }
        Ok(())
    }
}
