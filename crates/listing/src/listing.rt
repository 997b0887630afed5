// The listing, one step at a time and by value (document 01, "The program's listing"): a step says at most one line and hands the new
// state back.
ghost use Rattle.std.specs.Prelude.{◌≡◌, ℕ, suc, List};
ghost use Rattle.reads.specs.Outcome.{value};
ghost use Rattle.reads.specs.Reference.{before};
ghost use Rattle.pointers.specs.Tables.{under, reading_new, reading_under};
ghost use Rattle.walks.specs.ProtocolNames.{name_left};
ghost use Rattle.walks.specs.Walk.{row_left};
ghost use Rattle.listing.specs.PlainListing.{version_and_flags, name_or_none, end_line};
ghost use Rattle.listing.specs.declared.at.At.TheVariants as place;
ghost use Rattle.listing.specs.Listing.{enter, in_list, start, go_to, in_section, with_entry, says, lacks, nothing, leaves, after_section, on_section, record_said, class_said, category_said, record_step, by_ro, after_row, after_name, list_step, step_at, listing_step};
ghost use Rattle.listing.specs.ListingAnswer.{section_walk_of, section_left_of, state_of, said_of, left_in, left_of};
ghost use Rattle.listing.specs.declared.at.FieldWalk.{FieldWalk as SpecFieldWalk};
ghost use Rattle.listing.specs.declared.at.Owner.{Owner as SpecOwner};
ghost use Rattle.listing.specs.declared.at.Owner.TheVariants as an_owner;
ghost use Rattle.listing.specs.declared.line.Line.TheVariants as line;
ghost use Rattle.reads.specs.Answer.{outcome};

use crate::absence::{Absence, SkippedEntry, UnnamedSlot};
use crate::at::{At, FieldWalk, Owner, Record};
use crate::line::{CategoryLine, ClassLine, EndLine, InfoLine, Line, NameLine, RowLine};
use crate::section::{Section, SectionStepped, Stage};
use frames::frames::Mark;
use pointers::asked::Asked;
use pointers::imageinfo::ImageInfo;
use pointers::setting::Setting;
use pointers::tables::Tables;
use reads::answer::{Missing, Question, optional};
use reads::place::u32_from;
use reads::text::{Reading, Text};
use records::category::ObjcCategory;
use records::class::{ClassRo, ObjcClass, class_name_of, ro_of};
use records::protocol::ObjcProtocol;
use walks::list_walk::{ListStep, ListStepped};
use walks::protocol_names::{NameStep, ProtocolNameStepped};
use walks::sections::RecordStep;

// The setting that the listing began with; where it stands; the records so far; the entries settled so far.
#[derive(Clone, Copy)]
pub struct Listing {
    setting: Setting,
    at: At,
    section: Section,
    records: u64,
    settled: u128,
}

// What a step says: a line; what is absent and why; nothing; or the listing has ended. `Nothing` is a step with nothing to print, a case and no
// Option: with one each match would have two levels, `Ok(Some(Said::Line(line)))` and `Ok(None)`.
#[derive(Clone, Copy)]
pub enum Said {
    Line(Line),
    Absent(Absence),
    Nothing,
    Ended,
}

// What a step says, or the question that refuses it, and the listing to go on with; with a question it is as given.
#[derive(Clone, Copy)]
pub struct Listed {
    pub said: Result<Said, Question>,
    pub listing: Listing,
}

// The image info of at least 8 bytes. Not `ImageInfo::parse`: question 4, which the step asks, finds fewer, so its absence would be an arm that
// never runs.
fn version_and_flags(info: &[u8]) -> ImageInfo
    ensures { result ≡ version_and_flags (before info) }
{
    let version = u32_from(info, 0, 0);
    let flags = u32_from(info, 0, 4);
    ImageInfo { version, flags }
}

// A line is said.
fn says(line: Line) -> Result<Said, Question>
    ensures { said_of result ≡ value (says line) }
{
    Ok(Said::Line(line))
}

// Something is absent.
fn lacks(absence: Absence) -> Result<Said, Question>
    ensures { said_of result ≡ value (lacks absence) }
{
    Ok(Said::Absent(absence))
}

impl Listing {
    // Before the first line, under a setting.
    pub fn starting(setting: Setting) -> Listing
        ensures { state_of result ≡ start setting }
    {
        Listing {
            setting,
            at: At::Info,
            section: Section::at_stage(setting, Stage::Classes),
            records: 0,
            settled: 0,
        }
    }

    // The listing before its first line, under the new reading.
    pub fn new() -> Listing
        ensures { state_of result ≡ start reading_new }
    {
        Listing::under(Reading::New)
    }

    // The same under either reading.
    pub fn under(reading: Reading) -> Listing
        ensures { state_of result ≡ start (reading_under reading) }
    {
        Listing::starting(Setting::under(reading))
    }

    // The same listing, before its first line again.
    pub fn again(self) -> Listing
        ensures { state_of result ≡ start self.setting }
    {
        let setting = self.setting;
        Listing::starting(setting)
    }

    // At another place.
    fn go_to(&mut self, at: At)
        ensures { state_of self.new ≡ go_to (state_of self.old) at }
    {
        self.at = at;
    }

    // At another place, with another section walk.
    fn in_section(&mut self, at: At, section: Section)
        ensures { state_of self.new ≡ in_section (state_of self.old) at (section_walk_of section) }
    {
        self.at = at;
        self.section = section;
    }

    // I.
    fn info_step(&mut self, asked: &Asked) -> Result<Said, Question>
        ensures { let t = asked.now.tables in
            ((l : List ℕ) → left_in self.new result l ≡ step_at t (state_of self.old) l place.Info) }
    {
        asked.ask()?;
        let setting = self.setting;
        let reading = setting.reading;
        self.go_to(At::Section);
        says(Line::Info(InfoLine {
            info: version_and_flags(asked.tables().info()),
            reading,
        }))
    }

    // E: the records, and the entries settled.
    fn end(self) -> Line
        ensures { result ≡ end_line self.records (state_of self).settled }
    {
        Line::End(EndLine {
            records: self.records,
            settled: self.settled,
        })
    }

    // After the last record of a section: the next section, or E.
    fn after_section(&mut self, section: Section) -> Result<Said, Question>
        ensures { (l : List ℕ) → left_in self.new result l ≡ after_section (state_of self.old) l (section_walk_of section) }
    {
        let setting = self.setting;
        let stage = section.stage;
        match stage {
            Stage::Classes => {
                self.in_section(At::Section, Section::at_stage(setting, Stage::Protocols));
                Ok(Said::Nothing)
            }
            Stage::Protocols => {
                self.in_section(At::Section, Section::at_stage(setting, Stage::Categories));
                Ok(Said::Nothing)
            }
            Stage::Categories => {
                let end = self.end();
                self.in_section(At::End, section);
                says(end)
            }
        }
    }

    // By what a section step gave: the line of a record comes in the next step.
    fn section_said(&mut self, stepped: SectionStepped) -> Result<Said, Question>
        ensures { (l : List ℕ) → left_in self.new result l ≡ on_section (state_of self.old) (section_left_of stepped l) }
    {
        let section = stepped.section;
        match stepped.taken {
            Ok(RecordStep::Record(found)) => {
                self.in_section(At::Record(found), section);
                Ok(Said::Nothing)
            }
            Ok(RecordStep::Passed(why)) => {
                self.in_section(At::Section, section);
                lacks(Absence::Record(why))
            }
            Ok(RecordStep::Dropped) => {
                self.in_section(At::Section, section);
                Ok(Said::Nothing)
            }
            Ok(RecordStep::Finished) => self.after_section(section),
            Err(k) => Err(k),
        }
    }

    // A step of the section walk under way.
    fn section_step(&mut self, asked: &Asked, ledger: &mut [u64]) -> Result<Said, Question>
        ensures { let t = asked.now.tables in
            left_in self.new result ledger.new ≡ step_at t (state_of self.old) ledger.old place.Section }
    {
        let section = self.section;
        let stepped = section.next(asked, ledger);
        self.section_said(stepped)
    }

    // The line of a record, and then where it goes on.
    fn record_said(&mut self, own: Line, next: At) -> Result<Said, Question>
        ensures { (l : List ℕ) → left_in self.new result l ≡ record_said (state_of self.old) l own next }
    {
        self.at = next;
        self.records = self.records.wrapping_add(1);
        says(own)
    }

    // C or M, and then R.
    fn class_said(
        &mut self,
        class: ObjcClass,
        name: Result<Text, Missing>,
    ) -> Result<Said, Question>
        ensures { (l : List ℕ) → left_in self.new result l ≡ class_said (state_of self.old) l class (name_or_none (outcome name)) }
    {
        let superclass_name = optional(name)?;
        let line = Line::Class(ClassLine {
            class,
            superclass_name,
        });
        self.record_said(line, At::Ro(class))
    }

    // P, and then the protocol's lists.
    fn protocol_said(&mut self, protocol: ObjcProtocol) -> Result<Said, Question>
        ensures { (l : List ℕ) → left_in self.new result l ≡ record_said (state_of self.old) l (line.Protocol protocol) (enter self.old.setting (an_owner.Protocol protocol) 0) }
    {
        let setting = self.setting;
        let lists = Owner::Protocol(protocol).enter(setting);
        self.record_said(Line::Protocol(protocol), lists)
    }

    // K, and then the category's lists.
    fn category_said(
        &mut self,
        category: ObjcCategory,
        name: Result<Text, Missing>,
    ) -> Result<Said, Question>
        ensures { (l : List ℕ) → left_in self.new result l ≡ category_said (state_of self.old) l category (name_or_none (outcome name)) }
    {
        let class_name = optional(name)?;
        let line = Line::Category(CategoryLine {
            category,
            class_name,
        });
        let setting = self.setting;
        let lists = Owner::Category(category).enter(setting);
        self.record_said(line, lists)
    }

    // The line of a record that the section gave.
    fn record_step(&mut self, asked: &Asked, found: Record) -> Result<Said, Question>
        ensures { let t = under self.old.setting asked.now.tables in
            ((l : List ℕ) → left_in self.new result l ≡ record_step t (state_of self.old) l found) }
    {
        asked.ask()?;
        let tables = &asked.tables().under(self.setting);
        match found {
            Record::Class(class) => {
                let name = class_name_of(tables, class.address, class.superclass_address);
                self.class_said(class, name)
            }
            Record::Protocol(protocol) => self.protocol_said(protocol),
            Record::Category(category) => {
                let name = class_name_of(tables, category.address, category.class_address);
                self.category_said(category, name)
            }
        }
    }

    // R and then the class's lists, if it has a class_ro.
    fn ro_said(&mut self, answer: Result<ClassRo, Missing>) -> Result<Said, Question>
        ensures { (l : List ℕ) → left_in self.new result l ≡ by_ro (state_of self.old) l (outcome answer) }
    {
        match answer {
            Ok(ro) => {
                let setting = self.setting;
                let lists = Owner::Class(ro).enter(setting);
                self.go_to(lists);
                says(Line::Ro(ro))
            }
            Err(Missing::Absent(why)) => {
                self.go_to(At::Section);
                lacks(Absence::Record(why))
            }
            Err(Missing::Refused(k)) => Err(k),
        }
    }

    // The line of a class's class_ro.
    fn ro_step(&mut self, asked: &Asked, class: ObjcClass) -> Result<Said, Question>
        ensures { let t = asked.now.tables in
            ((l : List ℕ) → left_in self.new result l ≡ step_at t (state_of self.old) l (place.Ro class)) }
    {
        asked.ask()?;
        let answer = ro_of(&asked.tables().under(self.setting), class);
        self.ro_said(answer)
    }

    // The list goes on with this walk, with an entry settled more.
    fn settle(&mut self, walk: FieldWalk)
        ensures { (o : SpecOwner) (n : ℕ) (w : SpecFieldWalk) → self.old.at ≡ in_list o n w → state_of self.new ≡ with_entry (state_of self.old) (in_list o n walk) }
    {
        self.at.walk_on(walk);
        self.settled = self.settled.wrapping_add(1);
    }

    // The list after this one.
    fn next_list(&mut self) -> Result<Said, Question>
        ensures { (o : SpecOwner) (n : ℕ) (w : SpecFieldWalk) → self.old.at ≡ in_list o n w → (l : List ℕ) → left_in self.new result l ≡ leaves (value nothing) (go_to (state_of self.old) (enter self.old.setting o (suc n))) l }
    {
        let setting = self.setting;
        self.at.next_list(setting);
        Ok(Said::Nothing)
    }

    // m, v or p, or an entry that is skipped: each is settled. After the last the next list comes.
    fn row_said(&mut self, list: u16, stepped: ListStepped) -> Result<Said, Question>
        ensures { (o : SpecOwner) (w : SpecFieldWalk) → self.old.at ≡ in_list o list w → (l : List ℕ) → left_in self.new result l ≡ after_row (state_of self.old) l o list (row_left stepped) }
    {
        let walk = FieldWalk::Rows(stepped.walk);
        match stepped.walked {
            Ok(ListStep::Row(row)) => {
                self.settle(walk);
                says(Line::Row(RowLine {
                    list,
                    row,
                    mark: Mark::Unmarked,
                }))
            }
            Ok(ListStep::Skipped(index, why)) => {
                self.settle(walk);
                lacks(Absence::Entry(SkippedEntry { list, index, why }))
            }
            Ok(ListStep::Finished) => self.next_list(),
            Err(Missing::Absent(_)) => self.next_list(),
            Err(Missing::Refused(k)) => Err(k),
        }
    }

    // q, or slot number `slot`, that gives no name. After the last the next list comes.
    fn name_said(
        &mut self,
        list: u16,
        slot: u64,
        stepped: ProtocolNameStepped,
    ) -> Result<Said, Question>
        ensures { (o : SpecOwner) (w : SpecFieldWalk) → self.old.at ≡ in_list o list w → (l : List ℕ) → left_in self.new result l ≡ after_name (state_of self.old) l o list slot (name_left stepped) }
    {
        let walk = FieldWalk::Names(stepped.walk);
        match stepped.walked {
            Ok(NameStep::Name(name)) => {
                self.at.walk_on(walk);
                says(Line::Name(NameLine { list, name }))
            }
            Ok(NameStep::Passed(why)) => {
                self.at.walk_on(walk);
                lacks(Absence::Name(UnnamedSlot { list, slot, why }))
            }
            Ok(NameStep::Finished) => self.next_list(),
            Err(Missing::Absent(_)) => self.next_list(),
            Err(Missing::Refused(k)) => Err(k),
        }
    }

    // A step over list n of a record.
    fn list_step(&mut self, asked: &Asked, n: u16, walk: FieldWalk) -> Result<Said, Question>
        ensures { let t = asked.now.tables in
            ((o : SpecOwner) → self.old.at ≡ in_list o n walk → (l : List ℕ) → left_in self.new result l ≡ list_step t (state_of self.old) l o n walk) }
    {
        match walk {
            FieldWalk::Rows(rows) => {
                let stepped = rows.next_over(asked);
                self.row_said(n, stepped)
            }
            FieldWalk::Names(names) => {
                let slot = names.cursor();
                let stepped = names.next_over(asked);
                self.name_said(n, slot, stepped)
            }
        }
    }

    // The listing has ended; 1 to 6 and 8 are asked as in every step.
    fn ended(&self, asked: &Asked) -> Result<Said, Question>
        ensures { let t = asked.now.tables in
            ((l : List ℕ) → left_in self.now result l ≡ step_at t (state_of self.now) l place.End) }
    {
        asked.ask()?;
        Ok(Said::Ended)
    }

    // One step, in place, over tables of which 1 to 6 and 8 were asked. Inlined into the loop that takes the steps, where the listing's parts can stay
    // in registers (docs/PERFORMANCE.md).
    #[inline(always)]
    pub fn step(&mut self, asked: &Asked, ledger: &mut [u64]) -> Result<Said, Question>
        ensures { let t = asked.now.tables in
            left_in self.new result ledger.new ≡ listing_step t (state_of self.old) ledger.old }
    {
        match self.at {
            At::Info => self.info_step(asked),
            At::Section => self.section_step(asked, ledger),
            At::Record(found) => self.record_step(asked, found),
            At::Ro(class) => self.ro_step(asked, class),
            At::List(n, list) => self.list_step(asked, n, list.walk),
            At::End => self.ended(asked),
        }
    }

    // One step by value, over tables that are asked for it.
    #[inline(always)]
    pub fn next(self, tables: &Tables, ledger: &mut [u64]) -> Listed
        ensures { let t = tables.now in
            left_of result ledger.new ≡ listing_step t (state_of self) ledger.old }
    {
        let mut listing = self;
        let said = listing.step(&Asked::of(tables), ledger);
        Listed { said, listing }
    }
}
