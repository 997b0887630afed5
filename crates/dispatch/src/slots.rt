// The slots of cat_list and nlcat_list, with no ledger.
ghost use Rattle.std.specs.Prelude.{◌≡◌, ◌≤◌, length};
ghost use Rattle.dispatch.specs.SlotSources.{category_slots, listed_at, held_before};
ghost use Rattle.reads.specs.Answer.{outcome};

use pointers::tables::Tables;
use reads::answer::Missing;
use walks::slots::{Lists, address_in, slot_at};

// The address in slot k, absent if it is 0.
#[tactic(auto, unfolding(crate::specs::SlotSources::listed_at))]
pub(crate) fn listed_at(tables: &Tables, k: u64) -> Result<u64, Missing>
    ensures { let t = tables.now in
        outcome result ≡ listed_at t k }
{
    let slot = slot_at(tables.sections(), Lists::Categories, k);
    address_in(tables, slot)
}

// Whether some slot before k holds an address.
pub(crate) fn held_before(tables: &Tables, k: u64, va: u64) -> bool
    requires { (k ≤ length (category_slots tables.now.sections)) × (va ≡ 0 → ⊥) }
    ensures { let t = tables.now in
        result ≡ held_before t k va }
{
    for i in 0..k {
        if listed_at(tables, i).ok() == Some(va) {
            return true;
        }
    }
    false
}
