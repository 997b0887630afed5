// The questions that may refuse the lookups of the listed categories, asked before any row: of all slots, then of all categories.
ghost use Rattle.std.specs.Prelude.{◌≡◌, ℕ};
ghost use Rattle.reads.specs.Reference.{before};
ghost use Rattle.reads.specs.Outcome.{Outcome};
ghost use Rattle.walks.specs.Gather.{of_value, present};
ghost use Rattle.walks.specs.PlainSections.{plain_categories};
ghost use Rattle.records.specs.Category.{category_at};
ghost use Rattle.dispatch.specs.SlotSources.{category_slots, listed_at, settled};
ghost use Rattle.dispatch.specs.Asking.{each_settled, AnswersAt};
ghost use Rattle.reads.specs.Answer.{answered};

use crate::slots::listed_at;
use pointers::tables::Tables;
use reads::answer::{Question, optional};
use records::category::category_at;
use walks::slots::{Lists, slot_count};

// The slot's lookup.
fn ask_slot(tables: &Tables, k: u64) -> Result<(), Question>
    ensures { let t = tables.now in
        answered result ≡ settled (present (listed_at t k)) }
{
    optional(listed_at(tables, k))?;
    Ok(())
}

// The lookups of the category in a slot.
fn ask_listed(tables: &Tables, k: u64) -> Result<(), Question>
    ensures { let t = tables.now in
        answered result ≡ settled (of_value (listed_at t k) (λ va. present (category_at t va))) }
{
    if let Some(va) = optional(listed_at(tables, k))? {
        optional(category_at(tables, va))?;
    }
    Ok(())
}

// Asks at each slot, up to the first that refuses.
#[tactic(auto, using(crate::proofs::Asking::each_next, crate::proofs::Asking::each_end))]
fn ask_each<F: Fn(u64) -> Result<(), Question>>(sections: &[u64], ask: F) -> Result<(), Question>
    requires { F.IsAlwaysCallable ask }
    ensures { (s : ℕ → Outcome (Unit {0})) → AnswersAt (F.post ask) s (category_slots (before sections))
        → answered result ≡ each_settled s (category_slots (before sections)) }
{
    for k in 0..slot_count(sections, Lists::Categories) {
        ask(k)?;
    }
    Ok(())
}

// Whether the categories are listed, or the first question that refuses.
pub(crate) fn ask_categories(tables: &Tables) -> Result<(), Question>
    ensures { let t = tables.now in
        answered result ≡ settled (plain_categories t) }
{
    let sections = tables.sections();
    ask_each(sections, |k| { ask_slot(tables, k) })?;
    ask_each(sections, |k| { ask_listed(tables, k) })
}
