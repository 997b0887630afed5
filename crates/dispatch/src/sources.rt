// The lists that take part: the class's or metaclass's own, and those of the categories of the class.
ghost use Rattle.std.specs.Prelude.{◌≡◌, ◌≤◌, length};
ghost use Rattle.dispatch.specs.Sources.{list_of, metaclass_of, own_source, methods_on};
ghost use Rattle.dispatch.specs.SlotSources.{category_slots, taking, slot_source};
ghost use Rattle.reads.specs.Answer.{outcome};

use crate::slots::{held_before, listed_at};
use pointers::tables::Tables;
use reads::answer::{Missing, nonzero};
use records::category::{ObjcCategory, category_at};
use records::class::{ObjcClass, class_at, ro_of};
use walks::section_slots::meta_of;

// Instance methods, or class methods.
#[derive(Clone, Copy)]
pub enum Side {
    Instance,
    Class,
}

// Whose methods are gone over, and in which tables: those of the class at an address, on one side.
#[derive(Clone, Copy)]
pub(crate) struct MethodsOf<'a> {
    pub tables: &'a Tables<'a>,
    pub side: Side,
    pub class: u64,
}

// A method list, and the address of the record that names it.
#[derive(Clone, Copy)]
pub struct Source {
    pub origin: u64,
    pub list: u64,
}

// The method list of a class's class_ro_t.
#[tactic(auto, using(reads::proofs::Outcomes::missed_then), unfolding(crate::specs::Sources::list_of))]
fn list_of(tables: &Tables, class: ObjcClass) -> Result<Source, Missing>
    ensures { let t = tables.now in
        outcome result ≡ list_of t class }
{
    let ro = ro_of(tables, class)?;
    Ok(Source {
        origin: class.address,
        list: ro.methods,
    })
}

// The metaclass, if isa is neither 0 nor the class and decodes.
#[tactic(auto, using(reads::proofs::Outcomes::missed_then), unfolding(crate::specs::Sources::metaclass_of))]
fn metaclass_of(tables: &Tables, class: ObjcClass) -> Result<ObjcClass, Missing>
    ensures { let t = tables.now in
        outcome result ≡ metaclass_of t class }
{
    let va = nonzero(meta_of(class))?;
    class_at(tables, va, true)
}

// The class's own list: of class methods it is the metaclass's. `MethodsOf` is no plainer here: it keeps the class's address alone,
// and this needs the decoded class, which would have to travel beside it.
#[tactic(auto, using(reads::proofs::Outcomes::missed_then), unfolding(crate::specs::Sources::own_source))]
pub(crate) fn own_source(tables: &Tables, side: Side, class: ObjcClass) -> Result<Source, Missing>
    ensures { let t = tables.now in
        outcome result ≡ own_source t side class }
{
    match side {
        Side::Instance => list_of(tables, class),
        Side::Class => {
            let metaclass = metaclass_of(tables, class)?;
            list_of(tables, metaclass)
        }
    }
}

// A category's list on one side.
#[tactic(auto, unfolding(crate::specs::Sources::methods_on))]
fn methods_on(side: Side, category: ObjcCategory) -> u64
    ensures { result ≡ methods_on side category }
{
    match side {
        Side::Instance => category.instance_methods,
        Side::Class => category.class_methods,
    }
}

impl MethodsOf<'_> {
    // That k is at most the number of slots stands as a clause here, below and in `held_before`: past the last slot address 0 would be
    // looked up. A struct of the tables and k with that as its invariant is no plainer: `next_source` alone would make it, `held_before`
    // would take it apart, `slot_source` too before it hands it on, and only `taking` would hand it on as it is.

    // The list of a category, if its class address is the class and no slot before k holds it.
    #[tactic(auto, using(std::proofs::lemmas::Bool::Decides::nat_tests), unfolding(crate::specs::SlotSources::taking, reads::specs::Outcome::choose))]
    fn taking(&self, k: u64, va: u64, category: ObjcCategory) -> Option<Source>
        requires { (k ≤ length (category_slots self.now.tables.now.sections)) × (va ≡ 0 → ⊥) }
        ensures { let t = self.now.tables.now in
            result ≡ taking t self.now.side self.now.class k va category }
    {
        if category.class_address != self.class {
            return None;
        }
        if held_before(self.tables, k, va) {
            return None;
        }
        Some(Source {
            origin: category.address,
            list: methods_on(self.side, category),
        })
    }

    // The list of the category in slot k, if it takes part.
    #[tactic(auto, using(reads::proofs::Outcomes::missed_then), unfolding(crate::specs::SlotSources::slot_source))]
    pub(crate) fn slot_source(&self, k: u64) -> Result<Option<Source>, Missing>
        requires { k ≤ length (category_slots self.now.tables.now.sections) }
        ensures { let t = self.now.tables.now in
            outcome result ≡ slot_source t self.now.side self.now.class k }
    {
        let va = listed_at(self.tables, k)?;
        let category = category_at(self.tables, va)?;
        Ok(self.taking(k, va, category))
    }
}
