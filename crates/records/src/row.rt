// A row of any of the three lists, and the entry of a list that it is decoded from.
ghost use Rattle.std.specs.Prelude.{◌≡◌, IfSome};
ghost use Rattle.std.specs.Option.{option_map};
ghost use Rattle.pointers.specs.Tables.{image_in};
ghost use Rattle.records.specs.List.{least, entry_address};
ghost use Rattle.records.specs.Near.{OfSize};
ghost use Rattle.records.specs.Search.{first_readable};
ghost use Rattle.records.specs.Row.{row_at};
ghost use Rattle.reads.specs.Answer.{outcome};
ghost use Rattle.reads.specs.Outcome.{value, and_then};
ghost use Rattle.records.specs.declared.row.Row.TheVariants as a_row;

use crate::ivar::{Ivar, ivar_near};
use crate::list::{RowKind, least};
use crate::method::{Method, Selectors, legacy_method_near, small_method_near};
use crate::near::Near;
use crate::open_list::OpenList;
use crate::property::{Property, property_near};
use pointers::tables::Tables;
use reads::answer::Missing;

#[derive(Clone, Copy)]
pub enum Row {
    Method(Method),
    Ivar(Ivar),
    Property(Property),
}

// A method as a row; an ivar; a property. Three functions, not `map` over the case: the compiler makes room for each case of a row where one function has
// all of them.
#[tactic(auto, using(reads::proofs::Outcomes::missed_then))]
fn method_row(method: Result<Method, Missing>) -> Result<Row, Missing>
    ensures { outcome result ≡ and_then (outcome method) (λ m. value (a_row.Method m)) }
{
    Ok(Row::Method(method?))
}

#[tactic(auto, using(reads::proofs::Outcomes::missed_then))]
fn ivar_row(ivar: Result<Ivar, Missing>) -> Result<Row, Missing>
    ensures { outcome result ≡ and_then (outcome ivar) (λ v. value (a_row.Ivar v)) }
{
    Ok(Row::Ivar(ivar?))
}

#[tactic(auto, using(reads::proofs::Outcomes::missed_then))]
fn property_row(property: Result<Property, Missing>) -> Result<Row, Missing>
    ensures { outcome result ≡ and_then (outcome property) (λ p. value (a_row.Property p)) }
{
    Ok(Row::Property(property?))
}

// The row of bytes that can be read, by what the entries are.
#[tactic(auto, using(reads::proofs::Outcomes::missed_then), unfolding(crate::specs::Row::decode_row))]
fn row_near(kind: RowKind, near: &Near) -> Result<Row, Missing>
    requires { OfSize near.now (least kind) }
    ensures { outcome result ≡ row_at near.now.tables.now kind near.now.va }
{
    match kind {
        RowKind::Legacy => method_row(legacy_method_near(near)),
        RowKind::SmallIndirect => method_row(small_method_near(near, Selectors::Indirect)),
        RowKind::SmallDirect => method_row(small_method_near(near, Selectors::Direct)),
        RowKind::Ivar => ivar_row(ivar_near(near)),
        RowKind::Property => property_row(property_near(near)),
    }
}

// The row at an entry's address.
#[tactic(auto, using(crate::proofs::Unreadables::row_unreadable))]
pub fn row_at(tables: &Tables, kind: RowKind, va: u64) -> Result<Row, Missing>
    ensures { let t = tables.now in
        outcome result ≡ row_at t kind va }
{
    let near = Near::at(tables, va, least(kind))?;
    row_near(kind, &near)
}

// An entry that can be read: its index, what it is, and its bytes, which are looked up once, by the search.
#[derive(Clone, Copy)]
pub struct Entry<'a> {
    index: u64,
    kind: RowKind,
    near: Near<'a>,
    ghost whole: { OfSize near (least kind) },
}

impl<'a> Entry<'a> {
    // The first from an index on, below the count, that can be read.
    pub fn first(list: &OpenList<'a>, from: u32) -> Option<Entry<'a>>
        ensures search { option_map (λ e. e.index) result ≡ first_readable (image_in list.now.header.tables.now) list.now.layout from }
        ensures entry { IfSome result (λ e. (e.near.tables.now ≡ list.now.header.tables.now) × (e.kind ≡ list.now.layout.kind) × (e.near.va ≡ entry_address list.now.layout e.index)) }
    {
        let found = list.first_found(from)?;
        let kind = list.layout().kind;
        Some(Entry {
            index: found.index,
            kind,
            near: Near::of(list.tables(), found.va, least(kind), found.spot),
        })
    }

    pub fn index(&self) -> u64
        ensures { result ≡ self.now.index }
    {
        self.index
    }

    // Its row.
    pub fn row(&self) -> Result<Row, Missing>
        ensures { outcome result ≡ row_at self.now.near.tables.now self.now.kind self.now.near.va }
    {
        row_near(self.kind, &self.near)
    }
}
