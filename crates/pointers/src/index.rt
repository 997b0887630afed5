// The index over the rebase and bind tables, in u32 words that the caller lends: the Rust's two HashMaps.
ghost use Rattle.std.specs.Prelude.{◌≡◌, ◌+◌, ◌*◌, ◌^◌, ◌≤◌, ◌<◌, length, get_or};
ghost use Rattle.reads.specs.Reference.{before};
ghost use Rattle.reads.specs.Table.{records};
ghost use Rattle.pointers.specs.Tables.{rebase_words, bind_words, chains};
ghost use Rattle.pointers.specs.Index.{chain_of, indexed, index_length, bind_nexts};
ghost use Rattle.pointers.specs.IndexFold.{cleared, linked, chained};
ghost use Rattle.pointers.specs.Chain.{no_rebase, follow, row_of};
ghost use Rattle.reads.specs.Answer.{outcome};

use crate::table::{Bind, Rebase};
use crate::tables::Tables;
use reads::address::Address;
use reads::answer::{Missing, Question, Reason};

// The heads of the chains of both tables, before the next words.
pub const HEADS: usize = 2 * Address::CHAINS;

// The chain of a slot.
pub fn chain(slot: u64) -> usize
    ensures { result ≡ chain_of slot }
{
    (slot / 8) as usize % Address::CHAINS
}

// Empties every chain.
fn clear_heads(index: &mut [u32])
    requires { 2 * chains ≤ length index.old }
    ensures { index.new ≡ cleared (2 * chains) index.old }
{
    index[..HEADS].fill(0);
}

// Puts the record `number` at the front of the chain of its slot.
#[tactic(auto, unfolding(crate::specs::IndexFold::linked))]
fn link(index: &mut [u32], heads: usize, next: usize, number: u32, slot: u64)
    requires { (heads + chains ≤ next) × (next < length index.old) }
    ensures { index.new ≡ linked heads next number slot index.old }
{
    let head = heads + chain(slot);
    index[next] = index[head];
    index[head] = number;
}

// Word i of the index, 0 past its end: in the index itself 0 is no record, so that an Option would be a second word for nothing.
fn index_word(index: &[u32], i: usize) -> usize
    ensures { result ≡ get_or (before index) i 0 }
{
    if i < index.len() {
        return index[i] as usize;
    }
    0
}

// No rebase stands in the chain of a slot.
#[tactic(auto, unfolding(crate::specs::Chain::no_rebase))]
pub(crate) fn no_rebase(index: &[u32], slot: u64) -> bool
    ensures { result ≡ no_rebase (before index) slot }
{
    index_word(index, chain(slot)) == 0
}

// A table whose records are in the index: the words of a record, and where the table's heads and its next words begin there.
#[derive(Clone, Copy)]
pub(crate) struct Chained<'a> {
    table: &'a [u64],
    width: usize,
    heads: usize,
    nexts: usize,
    ghost wide: { 0 < width },
    ghost after: { (heads ≤ chains) × (heads + chains ≤ nexts) },
    ghost fits: { nexts + records width table.now < 2 ^ 64 },
}

impl<'a> Chained<'a> {
    // The rebases.
    pub(crate) fn rebases(tables: &Tables<'a>) -> Chained<'a>
        ensures table { (result.table.now ≡ tables.now.rebases) × (result.width ≡ rebase_words) }
        ensures places { (result.heads ≡ 0) × (result.nexts ≡ 2 * chains) }
    {
        Chained {
            table: tables.rebases(),
            width: Rebase::WORDS,
            heads: 0,
            nexts: HEADS,
        }
    }

    // The binds.
    pub(crate) fn binds(tables: &Tables<'a>) -> Chained<'a>
        ensures table { (result.table.now ≡ tables.now.binds) × (result.width ≡ bind_words) }
        ensures places { (result.heads ≡ chains) × (result.nexts ≡ bind_nexts tables.now.rebases) }
    {
        Chained {
            table: tables.binds(),
            width: Bind::WORDS,
            heads: Address::CHAINS,
            nexts: HEADS + tables.rebases().len() / Rebase::WORDS,
        }
    }

    // Links every record, in order.
    #[tactic(auto, unfolding(crate::specs::IndexFold::chained), using(crate::proofs::IndexFolds::chained_more))]
    fn link_all(&self, index: &mut [u32])
        requires { (records self.now.width self.now.table.now ≤ 16777215) × (self.now.nexts + records self.now.width self.now.table.now ≤ length index.old) }
        ensures { index.new ≡ chained self.now.width self.now.table.now self.now.heads self.now.nexts (records self.now.width self.now.table.now) index.old }
    {
        let count = self.table.len() / self.width;
        for i in 0..count {
            link(
                index,
                self.heads,
                self.nexts + i,
                (i + 1) as u32,
                self.table[i * self.width],
            );
        }
    }

    // Follows the chain of a slot to its record's row: 9 where a number, which counts from 1, is not below the one before it.
    #[tactic(auto, unfolding(crate::specs::Chain::follow), using(crate::proofs::Chains::follow_end, crate::proofs::Chains::follow_above, crate::proofs::Chains::follow_found, crate::proofs::Chains::follow_on, crate::proofs::RecordWords::slot_within))]
    pub(crate) fn find(&self, index: &[u32], slot: u64) -> Result<usize, Missing>
        ensures { outcome result ≡ row_of (follow self.now.width self.now.table.now self.now.heads self.now.nexts slot (before index)) }
    {
        // Not a `for`: it follows a chain of numbers.
        let mut limit = self.table.len() / self.width;
        let mut number = index_word(index, self.heads + chain(slot));
        while number != 0 {
            if limit < number {
                return Err(Missing::Refused(Question::ChainOrder));
            }
            limit = number - 1;
            if self.table[limit * self.width] == slot {
                return Ok(limit);
            }
            number = index_word(index, self.nexts + limit);
        }
        Err(Missing::Absent(Reason::NoRecord))
    }
}

// Writes the index over two tables that no question refuses.
#[tactic(auto, unfolding(crate::specs::IndexFold::folded), using(crate::proofs::IndexFolds::folded_is_indexed))]
pub(crate) fn fill_index(tables: &Tables, index: &mut [u32])
    requires { (records rebase_words tables.now.rebases ≤ 16777215) × (records bind_words tables.now.binds ≤ 16777215)
        × (index_length tables.now.rebases tables.now.binds ≤ length index.old) }
    ensures { index.new ≡ indexed tables.now.rebases tables.now.binds index.old }
{
    clear_heads(index);
    Chained::rebases(tables).link_all(index);
    Chained::binds(tables).link_all(index);
}
