// Calls: each asks 1 to 6 and 8 of what it is lent, and then decodes. What the other modules of this crate decode, they decode without asking.
ghost use Rattle.std.specs.Prelude.{◌≡◌};
ghost use Rattle.pointers.specs.Question.{guarded};
ghost use Rattle.records.specs.Category.{category_at, category_class_name};
ghost use Rattle.records.specs.Class.{class_at, class_ro_at, ro_of, class_name_at, superclass_name};
ghost use Rattle.records.specs.Protocol.{protocol_at};
ghost use Rattle.reads.specs.Answer.{outcome};

use crate::category::{ObjcCategory, category_at};
use crate::class::{
    ClassRo, ObjcClass, class_at, class_name_at, class_name_of, class_ro_at, ro_of,
};
use crate::protocol::{ObjcProtocol, protocol_at};
use pointers::question::ask;
use pointers::tables::Tables;
use reads::answer::Missing;
use reads::text::Text;

// The class at an address.
#[tactic(auto, using(reads::proofs::Outcomes::missed_then))]
pub fn decode_class(tables: &Tables, va: u64, is_meta: bool) -> Result<ObjcClass, Missing>
    ensures { let t = tables.now in
        outcome result ≡ guarded t (class_at t va is_meta) }
{
    ask(tables)?;
    class_at(tables, va, is_meta)
}

// The class_ro_t at an address.
#[tactic(auto, using(reads::proofs::Outcomes::missed_then))]
pub fn decode_class_ro(tables: &Tables, va: u64) -> Result<ClassRo, Missing>
    ensures { let t = tables.now in
        outcome result ≡ guarded t (class_ro_at t va) }
{
    ask(tables)?;
    class_ro_at(tables, va)
}

// The name of the class at an address.
#[tactic(auto, using(reads::proofs::Outcomes::missed_then))]
pub fn decode_class_name(tables: &Tables, va: u64) -> Result<Text, Missing>
    ensures { let t = tables.now in
        outcome result ≡ guarded t (class_name_at t va) }
{
    ask(tables)?;
    class_name_at(tables, va)
}

impl ObjcClass {
    // The superclass's name: decoded, or by the bind at +8.
    #[tactic(auto, using(reads::proofs::Outcomes::missed_then))]
    pub fn superclass_name(self, tables: &Tables) -> Result<Text, Missing>
        ensures { let t = tables.now in
            outcome result ≡ guarded t (superclass_name t self) }
    {
        ask(tables)?;
        class_name_of(tables, self.address, self.superclass_address)
    }

    // The class_ro_t, picked again from the bits.
    #[tactic(auto, using(reads::proofs::Outcomes::missed_then))]
    pub fn ro(self, tables: &Tables) -> Result<ClassRo, Missing>
        ensures { let t = tables.now in
            outcome result ≡ guarded t (ro_of t self) }
    {
        ask(tables)?;
        ro_of(tables, self)
    }
}

// The protocol at an address.
#[tactic(auto, using(reads::proofs::Outcomes::missed_then))]
pub fn decode_protocol(tables: &Tables, va: u64) -> Result<ObjcProtocol, Missing>
    ensures { let t = tables.now in
        outcome result ≡ guarded t (protocol_at t va) }
{
    ask(tables)?;
    protocol_at(tables, va)
}

// The category at an address.
#[tactic(auto, using(reads::proofs::Outcomes::missed_then))]
pub fn decode_category(tables: &Tables, va: u64) -> Result<ObjcCategory, Missing>
    ensures { let t = tables.now in
        outcome result ≡ guarded t (category_at t va) }
{
    ask(tables)?;
    category_at(tables, va)
}

impl ObjcCategory {
    // The host class's name: decoded, or by the bind at +8.
    #[tactic(auto, using(reads::proofs::Outcomes::missed_then))]
    pub fn class_name(self, tables: &Tables) -> Result<Text, Missing>
        ensures { let t = tables.now in
            outcome result ≡ guarded t (category_class_name t self) }
    {
        ask(tables)?;
        class_name_of(tables, self.address, self.class_address)
    }
}
