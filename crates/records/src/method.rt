// Rows of method lists (objc-runtime-new.h, method_t and method_t::small).
ghost use Rattle.std.specs.Prelude.{◌≡◌};
ghost use Rattle.records.specs.Row.{legacy_imp, legacy_method_at, small_imp, selector_from, small_texts_at, small_kind, small_method_at, is_small};
ghost use Rattle.records.specs.Decode.{run};
ghost use Rattle.records.specs.Near.{OfSize};
ghost use Rattle.records.specs.Header.{method_size, small_method_size};
ghost use Rattle.reads.specs.Answer.{outcome};

use crate::near::Near;
use crate::text::string_pair;
use pointers::slot::resolve_pointer;
use pointers::tables::Tables;
use reads::address::Address;
use reads::answer::{Missing, checked_add};
use reads::relative::{relative_pointer, signed};
use reads::text::Text;

// Which form of method_t a row came from.
#[derive(Clone, Copy)]
pub enum MethodKind {
    Legacy,
    SmallIndirect,
    SmallDirect,
}

// Where the first offset of a small method leads: to a slot that points to the selector, or to the selector itself.
#[derive(Clone, Copy)]
pub enum Selectors {
    Indirect,
    Direct,
}

// A row of a method list.
#[derive(Clone, Copy)]
pub struct Method {
    pub selector: Text,
    pub types: Text,
    pub implementation: Option<u64>,
    pub kind: MethodKind,
}

// The texts of a small method.
#[derive(Clone, Copy)]
struct SmallTexts {
    selector: Text,
    types: Text,
}

impl Method {
    // method_t::big: its size, types, imp (its name is at 0).
    pub const SIZE: u64 = 24;

    pub const TYPES: u64 = 8;

    pub const IMP: u64 = 16;

    // method_t::small: its size, and its three relative pointers.
    pub const SMALL_SIZE: u64 = 12;

    pub const SMALL_NAME: u64 = 0;

    pub const SMALL_TYPES: u64 = 4;

    pub const SMALL_IMP: u64 = 8;

    // The row is of the form of relative offsets.
    #[tactic(auto, unfolding(crate::specs::Row::is_small))]
    pub fn is_small(self) -> bool
        ensures { result ≡ is_small self.kind }
    {
        !matches!(self.kind, MethodKind::Legacy)
    }
}

// A legacy method's imp: 0 is none.
fn legacy_imp(va: u64) -> Option<u64>
    ensures { result ≡ legacy_imp va }
{
    if va == 0 {
        return None;
    }
    Some(va)
}

// method_t::big.
#[tactic(auto, using(reads::proofs::Outcomes::missed_then), unfolding(crate::specs::Row::decode_legacy_method))]
pub(crate) fn legacy_method_near(row: &Near) -> Result<Method, Missing>
    requires { OfSize row.now method_size }
    ensures { outcome result ≡ legacy_method_at row.now.tables.now row.now.va }
{
    let tables = row.tables();
    let name_va = row.first_slot()?;
    let types_va = row.field(Method::TYPES)?;
    let imp_va = row.field_or_0(Method::IMP)?;
    let texts = string_pair(tables, name_va, types_va);
    let selector = texts.first?;
    let types = texts.second?;
    Ok(Method {
        selector,
        types,
        implementation: legacy_imp(imp_va),
        kind: MethodKind::Legacy,
    })
}

// A small method's imp: none exactly if its offset is 0, else masked to 48 bits.
fn small_imp(raw: u32, field: u64) -> Option<u64>
    ensures { result ≡ small_imp raw field }
{
    if raw == 0 {
        return None;
    }
    Some(Address::strip(relative_pointer(field, signed(raw))))
}

// Not `From`: it would be the same match, and public.
fn small_kind(selectors: Selectors) -> MethodKind
    ensures { result ≡ small_kind selectors }
{
    match selectors {
        Selectors::Indirect => MethodKind::SmallIndirect,
        Selectors::Direct => MethodKind::SmallDirect,
    }
}

// The address of a small method's selector: its offset's target itself, or indirect, through one slot.
fn selector_from(tables: &Tables, selectors: Selectors, target: u64) -> Result<u64, Missing>
    ensures { let t = tables.now in
        outcome result ≡ run t (selector_from selectors target) }
{
    match selectors {
        Selectors::Indirect => resolve_pointer(tables, target),
        Selectors::Direct => Ok(target),
    }
}

// A small method's texts: the selector's, and the types' at their offset's target.
#[tactic(auto, using(reads::proofs::Outcomes::missed_then), unfolding(crate::specs::Row::decode_small_texts))]
fn small_texts_at(
    tables: &Tables,
    selectors: Selectors,
    target: u64,
    types_va: u64,
) -> Result<SmallTexts, Missing>
    ensures { let t = tables.now in
        outcome result ≡ small_texts_at t selectors target types_va }
{
    let name_va = selector_from(tables, selectors, target)?;
    let texts = string_pair(tables, name_va, types_va);
    let selector = texts.first?;
    let types = texts.second?;
    Ok(SmallTexts { selector, types })
}

// method_t::small: the three offsets, each counted from its own field; both field addresses are tested before the first lookup.
#[tactic(auto, using(reads::proofs::Outcomes::missed_then), unfolding(crate::specs::Row::decode_small_method))]
#[inline(always)]
pub(crate) fn small_method_near(row: &Near, selectors: Selectors) -> Result<Method, Missing>
    requires { OfSize row.now small_method_size }
    ensures { outcome result ≡ small_method_at row.now.tables.now row.now.va selectors }
{
    let tables = row.tables();
    let va = row.va();
    let name_offset = row.i32(Method::SMALL_NAME);
    let types_offset = row.i32(Method::SMALL_TYPES);
    let raw = row.u32(Method::SMALL_IMP);
    let types_field = checked_add(va, Method::SMALL_TYPES)?;
    let imp_field = checked_add(va, Method::SMALL_IMP)?;
    let target = relative_pointer(va, name_offset);
    let types_va = relative_pointer(types_field, types_offset);
    let texts = small_texts_at(tables, selectors, target, types_va)?;
    Ok(Method {
        selector: texts.selector,
        types: texts.types,
        implementation: small_imp(raw, imp_field),
        kind: small_kind(selectors),
    })
}
