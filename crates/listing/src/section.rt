// The section walks one after the other: classes, protocols, categories.
ghost use Rattle.std.specs.Prelude.{◌≡◌, ℕ, List};
ghost use Rattle.walks.specs.Sections.{record_answer};
ghost use Rattle.listing.specs.declared.at.Record.{Record as SpecRecord};
ghost use Rattle.listing.specs.Listing.{stage_start, with_classes, with_protocols, with_categories, as_record, classes_step, protocols_step, categories_step, section_step};
ghost use Rattle.listing.specs.ListingAnswer.{stage_number, class_begun, protocol_begun, category_begun, section_walk_of, section_left_of};

use crate::at::Record;
use pointers::asked::Asked;
use pointers::setting::Setting;
use reads::answer::Question;
use walks::sections::{CategoryWalk, ClassWalk, ProtocolWalk, RecordStep};

// Which section walk is under way.
#[derive(Clone, Copy)]
pub(crate) enum Stage {
    Classes,
    Protocols,
    Categories,
}

// The section walks side by side, and which is under way. The others stand at their starts, or where a state that no step handed back has them.
#[derive(Clone, Copy)]
pub struct Section {
    pub(crate) stage: Stage,
    classes: ClassWalk,
    protocols: ProtocolWalk,
    categories: CategoryWalk,
}

// What a step of a section walk gives, its record as one of the listing's, with the section walk as it is then; with a question it is as given.
#[derive(Clone, Copy)]
pub(crate) struct SectionStepped {
    pub(crate) taken: Result<RecordStep<Record>, Question>,
    pub(crate) section: Section,
}

// The same step, its record as one of the listing's.
fn taken<R: Copy, F: Fn(R) -> Record>(
    step: Result<RecordStep<R>, Question>,
    one: F,
) -> Result<RecordStep<Record>, Question>
    requires { (r : _) → F.pre one r }
    ensures { (of : R → SpecRecord) → ((r : _) (x : SpecRecord) → F.post one r x → x ≡ of r) → record_answer result ≡ as_record of (record_answer step) }
{
    let taken = match step? {
        RecordStep::Record(found) => RecordStep::Record(one(found)),
        RecordStep::Passed(why) => RecordStep::Passed(why),
        RecordStep::Dropped => RecordStep::Dropped,
        RecordStep::Finished => RecordStep::Finished,
    };
    Ok(taken)
}

impl Section {
    // A stage, with every walk before its first slot, under a setting.
    pub(crate) fn at_stage(setting: Setting, stage: Stage) -> Section
        ensures { section_walk_of result ≡ stage_start setting (stage_number stage) }
    {
        Section {
            stage,
            classes: ClassWalk::starting(setting),
            protocols: ProtocolWalk::starting(setting),
            categories: CategoryWalk::starting(setting),
        }
    }

    // Another class walk.
    fn with_classes(self, classes: ClassWalk) -> Section
        ensures { section_walk_of result ≡ with_classes (section_walk_of self) (class_begun classes) }
    {
        Section { classes, ..self }
    }

    // Another protocol walk.
    fn with_protocols(self, protocols: ProtocolWalk) -> Section
        ensures { section_walk_of result ≡ with_protocols (section_walk_of self) (protocol_begun protocols) }
    {
        Section { protocols, ..self }
    }

    // Another category walk.
    fn with_categories(self, categories: CategoryWalk) -> Section
        ensures { section_walk_of result ≡ with_categories (section_walk_of self) (category_begun categories) }
    {
        Section { categories, ..self }
    }

    // A step of the class walk. Not one function with the next two: each names its walk, its case of `Record` and its `with_`, and says no more; a function
    // over closures would be handed all three.
    fn class_step(self, asked: &Asked, ledger: &mut [u64]) -> SectionStepped
        ensures { let t = asked.now.tables in
            section_left_of result ledger.new ≡ classes_step t ledger.old (section_walk_of self) }
    {
        let stepped = self.classes.next_over(asked, ledger);
        SectionStepped {
            taken: taken(stepped.step, |class| Record::Class(class)),
            section: self.with_classes(stepped.walk),
        }
    }

    // A step of the protocol walk.
    fn protocol_step(self, asked: &Asked) -> SectionStepped
        ensures { let t = asked.now.tables in
            ((l : List ℕ) → section_left_of result l ≡ protocols_step t l (section_walk_of self)) }
    {
        let stepped = self.protocols.next_protocol_over(asked);
        SectionStepped {
            taken: taken(stepped.step, |protocol| Record::Protocol(protocol)),
            section: self.with_protocols(stepped.walk),
        }
    }

    // A step of the category walk.
    fn category_step(self, asked: &Asked, ledger: &mut [u64]) -> SectionStepped
        ensures { let t = asked.now.tables in
            section_left_of result ledger.new ≡ categories_step t ledger.old (section_walk_of self) }
    {
        let stepped = self.categories.next_over(asked, ledger);
        SectionStepped {
            taken: taken(stepped.step, |category| Record::Category(category)),
            section: self.with_categories(stepped.walk),
        }
    }

    // A step of the section walk under way. The protocol walk looks at no ledger.
    pub(crate) fn next(self, asked: &Asked, ledger: &mut [u64]) -> SectionStepped
        ensures { let t = asked.now.tables in
            section_left_of result ledger.new ≡ section_step t ledger.old (section_walk_of self) }
    {
        let stage = self.stage;
        match stage {
            Stage::Classes => self.class_step(asked, ledger),
            Stage::Protocols => self.protocol_step(asked),
            Stage::Categories => self.category_step(asked, ledger),
        }
    }
}
