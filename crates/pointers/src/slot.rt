// Lookups of a slot through the index, and pointer slots (mod.rs, resolve_pointer). All are total for every content of the
// tables and of the index.
ghost use Rattle.std.specs.Prelude.{◌≡◌, ◌<◌};
ghost use Rattle.reads.specs.Reference.{before};
ghost use Rattle.reads.specs.Outcome.{or_zero};
ghost use Rattle.reads.specs.Table.{records};
ghost use Rattle.pointers.specs.Tables.{bind_words, image_in};
ghost use Rattle.pointers.specs.Chain.{row_of};
ghost use Rattle.pointers.specs.Slot.{rebase_number, bind_name, bind_at, stored, rebased_or, unrebased, is_near, rebase, slot as resolved, pointer, pointer_or0, symbol_at};
ghost use Rattle.reads.specs.Answer.{outcome};

use crate::index::{Chained, no_rebase};
use crate::question::{name_inside, name_utf8};
use crate::setting::{Lookup, Setting};
use crate::sorted::find_sorted;
use crate::symbol::strip_objc_symbol_prefix;
use crate::table::{Bind, Rebase};
use crate::tables::Tables;
use reads::address::Address;
use reads::answer::{Missing, Question, Reason, because, checked_add, or_zero};
use reads::files::is_lent;
use reads::place::{Image, read_u64};
use reads::spot::Spot;
use reads::text::Text;

// The row of a slot's rebase.
fn rebase_row(tables: &Tables, slot: u64) -> Result<usize, Missing>
    ensures { outcome result ≡ row_of (rebase_number tables.now.setting.lookup tables.now.rebases tables.now.index slot) }
{
    let lookup = tables.setting().lookup;
    match lookup {
        Lookup::Chained => Chained::rebases(tables).find(tables.index(), slot),
        Lookup::Sorted => find_sorted(tables.rebases(), slot),
    }
}

// The target of a slot's rebase.
#[tactic(auto, unfolding(crate::specs::Slot::rebase_at))]
pub fn rebase_at(tables: &Tables, slot: u64) -> Result<u64, Missing>
    ensures { outcome result ≡ rebase tables.now slot }
{
    let i = rebase_row(tables, slot)?;
    let rebase = Rebase::at(tables.rebases(), i);
    Ok(rebase.target)
}

// The name of bind record i, counted from 0; the questions 18, 7 and 14 are asked of it.
#[tactic(auto, unfolding(crate::specs::Slot::bind_name), using(crate::proofs::Questions::in_order))]
fn bind_name(tables: &Tables, i: usize) -> Result<Text, Missing>
    requires { i < records bind_words tables.now.binds }
    ensures { outcome result ≡ bind_name tables.now.files tables.now.binds i }
{
    let files = tables.files();
    let bind = Bind::at(tables.binds(), i);
    let name = bind.name;
    if !is_lent(files, name.file) {
        return Err(Missing::Refused(Question::FileLent));
    }
    if !name_inside(files, name) {
        return Err(Missing::Refused(Question::NameInside));
    }
    if !name_utf8(files, name) {
        return Err(Missing::Refused(Question::NameUtf8));
    }
    Ok(name)
}

// The name of a slot's bind.
#[tactic(auto, unfolding(crate::specs::Slot::bind_at))]
pub fn bind_at(tables: &Tables, slot: u64) -> Result<Text, Missing>
    ensures { outcome result ≡ bind_at tables.now.files tables.now.rebases tables.now.binds tables.now.index slot }
{
    let i = Chained::binds(tables).find(tables.index(), slot)?;
    bind_name(tables, i)
}

// The word in a slot, its low 48 bits.
#[tactic(auto, unfolding(crate::specs::Slot::stored))]
fn stored(image: &Image, slot: u64) -> Result<u64, Missing>
    ensures { outcome result ≡ stored image.now slot }
{
    let raw = read_u64(image, slot)?;
    Ok(Address::strip(raw))
}

// The target of a slot's rebase, else the word there.
fn rebased_or_stored(tables: &Tables, slot: u64) -> Result<u64, Missing>
    ensures { outcome result ≡ rebased_or (image_in tables.now) tables.now.rebases tables.now.index tables.now.setting slot }
{
    match rebase_at(tables, slot) {
        Err(Missing::Absent(_)) => stored(tables.image(), slot),
        target => target,
    }
}

// The address in a pointer slot: a rebase target wins unmasked, mapped or not; else the word there; else it does not resolve.
#[tactic(auto, unfolding(crate::specs::Slot::resolve))]
pub fn resolve_pointer(tables: &Tables, slot: u64) -> Result<u64, Missing>
    ensures { outcome result ≡ resolved tables.now slot }
{
    because(rebased_or_stored(tables, slot), Reason::Unresolved)
}

// The same, an absent slot counting as 0.
pub fn slot_or_0(tables: &Tables, slot: u64) -> Result<u64, Missing>
    ensures { outcome result ≡ or_zero (resolved tables.now slot) }
{
    or_zero(resolve_pointer(tables, slot))
}

// The pointer in the field at va + k.
#[tactic(auto, unfolding(crate::specs::Slot::pointer_at))]
pub fn pointer(tables: &Tables, va: u64, k: u64) -> Result<u64, Missing>
    ensures { outcome result ≡ pointer tables.now va k }
{
    let slot = checked_add(va, k)?;
    resolve_pointer(tables, slot)
}

// The same, an absent slot counting as 0.
#[tactic(auto, unfolding(crate::specs::Slot::pointer_or0_at))]
pub fn pointer_or_0(tables: &Tables, va: u64, k: u64) -> Result<u64, Missing>
    ensures { outcome result ≡ pointer_or0 tables.now va k }
{
    let slot = checked_add(va, k)?;
    slot_or_0(tables, slot)
}

// No rebase stands in the slot's chain; looked up by halves, nothing is known before the lookup.
fn is_unrebased(index: &[u32], setting: Setting, slot: u64) -> bool
    ensures { result ≡ unrebased setting.lookup (before index) slot }
{
    let lookup = setting.lookup;
    match lookup {
        Lookup::Chained => no_rebase(index, slot),
        Lookup::Sorted => false,
    }
}

// The slot lies in the spot's room, i bytes past its address, and no rebase stands in the slot's chain: where the spot is that of bytes that can be
// read, the slot's eight among them, the address in it is then the word there, its low 48 bits (`near_resolved`).
#[tactic(auto, unfolding(crate::specs::Slot::is_near))]
pub fn is_near(tables: &Tables, s: Spot, i: u64, slot: u64) -> bool
    ensures { result ≡ is_near tables.now.index tables.now.setting s i slot }
{
    i < s.room && is_unrebased(tables.index(), tables.setting(), slot)
}

// The name of a slot's bind less its prefix.
#[tactic(auto, unfolding(crate::specs::Slot::symbol_of))]
pub fn symbol_at(tables: &Tables, slot: u64) -> Result<Text, Missing>
    ensures { outcome result ≡ symbol_at tables.now slot }
{
    let name = bind_at(tables, slot)?;
    Ok(strip_objc_symbol_prefix(tables.files(), name))
}
