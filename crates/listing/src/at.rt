// Where a listing stands: before a line that is due, in a section, in a list of a record, or at its end.
ghost use Rattle.std.specs.Prelude.{◌≡◌, ℕ, suc, map, slice_get};
ghost use Rattle.std.specs.Option.{option_map};
ghost use Rattle.listing.specs.PlainListing.{ro_fields, protocol_fields, category_fields};
ghost use Rattle.listing.specs.Listing.{owner_fields, field_of, started, in_list, in_walk, enter};
ghost use Rattle.listing.specs.declared.at.FieldWalk.{FieldWalk as SpecFieldWalk};
ghost use Rattle.listing.specs.declared.at.Owner.{Owner as SpecOwner};

use pointers::setting::Setting;
use records::category::ObjcCategory;
use records::class::{ClassRo, ObjcClass};
use records::list::ListKind;
use records::protocol::ObjcProtocol;
use walks::list_walk::ListWalk;
use walks::protocol_names::ProtocolNameWalk;

// A record that a section gives.
#[derive(Clone, Copy)]
pub enum Record {
    Class(ObjcClass),
    Protocol(ObjcProtocol),
    Category(ObjcCategory),
}

// The record whose lists are walked; of a class it is the class_ro.
#[derive(Clone, Copy)]
pub enum Owner {
    Class(ClassRo),
    Protocol(ObjcProtocol),
    Category(ObjcCategory),
}

// A walk over a list of rows, or over one of protocol names.
#[derive(Clone, Copy)]
pub enum FieldWalk {
    Rows(ListWalk),
    Names(ProtocolNameWalk),
}

// A list of a record: the walk over it, and the record.
#[derive(Clone, Copy)]
pub struct ListAt {
    pub(crate) walk: FieldWalk,
    pub(crate) owner: Owner,
}

// What the next step does: the line of the image info; a step of the section walk; the line of a record that the section gave; the line
// of a class's class_ro; a step over the record's list of that number; nothing, after the last line. The number is an index into the record's
// lists (`Owner::list`), no kind. Of 16 bits it is faster than of 8: it parts the seven bytes between the case and the words after it, which
// each step would copy by themselves, in two overlapping halves for which the next load waits, into one, two and four, which are copied as
// numbers; with 8 bits a listing takes 2 in 100 more instructions (docs/DECISIONS.md, 62).
#[derive(Clone, Copy)]
pub enum At {
    Info,
    Section,
    Record(Record),
    Ro(ObjcClass),
    List(u16, ListAt),
    End,
}

// A list of a record: of rows of a kind, or of protocol names; and its address.
#[derive(Clone, Copy)]
pub enum Field {
    Rows(ListKind, u64),
    Names(u64),
}

impl Field {
    // The walk over it, before its first entry.
    fn start(self, setting: Setting) -> FieldWalk
        ensures { result ≡ started setting (field_of self) }
    {
        match self {
            Field::Rows(kind, list) => FieldWalk::Rows(ListWalk::starting(setting, list, kind)),
            Field::Names(list) => FieldWalk::Names(ProtocolNameWalk::starting(setting, list)),
        }
    }
}

// Methods, ivars, properties, protocols.
pub fn class_lists(ro: ClassRo) -> [Field; 4]
    ensures { map field_of result ≡ ro_fields ro }
{
    [
        Field::Rows(ListKind::Methods, ro.methods),
        Field::Rows(ListKind::Ivars, ro.ivars),
        Field::Rows(ListKind::Properties, ro.properties),
        Field::Names(ro.protocols),
    ]
}

// As stored, with class properties sixth and protocols last.
pub fn protocol_lists(protocol: ObjcProtocol) -> [Field; 7]
    ensures { map field_of result ≡ protocol_fields protocol }
{
    [
        Field::Rows(ListKind::Methods, protocol.instance_methods),
        Field::Rows(ListKind::Methods, protocol.class_methods),
        Field::Rows(ListKind::Methods, protocol.optional_instance_methods),
        Field::Rows(ListKind::Methods, protocol.optional_class_methods),
        Field::Rows(ListKind::Properties, protocol.instance_properties),
        Field::Rows(ListKind::Properties, protocol.class_properties),
        Field::Names(protocol.protocols),
    ]
}

// Methods, class methods, protocols, properties, class properties.
pub fn category_lists(category: ObjcCategory) -> [Field; 5]
    ensures { map field_of result ≡ category_fields category }
{
    [
        Field::Rows(ListKind::Methods, category.instance_methods),
        Field::Rows(ListKind::Methods, category.class_methods),
        Field::Names(category.protocols),
        Field::Rows(ListKind::Properties, category.instance_properties),
        Field::Rows(ListKind::Properties, category.class_properties),
    ]
}

impl Owner {
    // List n, if the record has so many.
    fn list(&self, n: usize) -> Option<Field>
        ensures { option_map field_of result ≡ slice_get (owner_fields self.now) n }
    {
        match self {
            Owner::Class(ro) => class_lists(*ro).get(n).copied(),
            Owner::Protocol(protocol) => protocol_lists(*protocol).get(n).copied(),
            Owner::Category(category) => category_lists(*category).get(n).copied(),
        }
    }

    // The walk over list n, before its first entry; the section goes on where the record has no such list.
    fn start(&self, setting: Setting, n: u16) -> Option<FieldWalk>
        ensures { in_walk self.now n result ≡ enter setting self.now n }
    {
        Some(self.list(n as usize)?.start(setting))
    }

    // The number of the list after list n. No record has 65,536 lists.
    fn after(&self, n: u16) -> u16
        ensures { (u : _) → enter u self.now result ≡ enter u self.now (suc n) }
    {
        n.saturating_add(1)
    }

    // The start of the first list.
    pub(crate) fn enter(self, setting: Setting) -> At
        ensures { result ≡ enter setting self 0 }
    {
        match self.start(setting, 0) {
            Some(walk) => At::List(0, ListAt { walk, owner: self }),
            None => At::Section,
        }
    }
}

impl At {
    // The list that is walked, with another walk over it.
    pub(crate) fn walk_on(&mut self, walk: FieldWalk)
        ensures { (o : SpecOwner) (n : ℕ) (w : SpecFieldWalk) → self.old ≡ in_list o n w → self.new ≡ in_list o n walk }
    {
        if let At::List(_, list) = self {
            list.walk = walk;
        }
    }

    // The start of the list after the one that is walked, in place: the record stays where it is.
    pub(crate) fn next_list(&mut self, setting: Setting)
        ensures { (o : SpecOwner) (n : ℕ) (w : SpecFieldWalk) → self.old ≡ in_list o n w → self.new ≡ enter setting o (suc n) }
    {
        if let At::List(n, list) = self {
            let after = list.owner.after(*n);
            match list.owner.start(setting, after) {
                Some(walk) => {
                    *n = after;
                    list.walk = walk;
                }
                None => *self = At::Section,
            }
        }
    }
}
