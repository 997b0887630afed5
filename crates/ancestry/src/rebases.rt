// What question 9 asks of every rebase chain, asked once of the whole index.
ghost use Rattle.std.specs.Prelude.{◌≡◌, ◌+◌, ◌*◌, ◌≤◌, length};
ghost use Rattle.reads.specs.Reference.{before};
ghost use Rattle.reads.specs.Table.{records};
ghost use Rattle.pointers.specs.Tables.{rebase_words, chains};
ghost use Rattle.ancestry.specs.Rebases.{heads_fall, nexts_fall, chains_fall};

use pointers::index::HEADS;
use pointers::table::Rebase;
use pointers::tables::Tables;
use reads::address::Address;

// Each head is at most the record count.
fn heads_fall(index: &[u32], count: usize) -> bool
    requires { chains ≤ length index.now }
    ensures { result ≡ heads_fall (before index) count }
{
    index[..Address::CHAINS]
        .iter()
        .all(|head| *head as usize <= count)
}

// Each next word is below its own record's number.
fn nexts_fall(index: &[u32], count: usize) -> bool
    requires { 2 * chains + count ≤ length index.now }
    ensures { result ≡ nexts_fall (before index) count }
{
    let nexts = &index[HEADS..HEADS + count];
    nexts
        .iter()
        .enumerate()
        .all(|(k, next)| *next as usize <= k)
}

// No lookup of a rebase can be refused.
#[tactic(auto, unfolding(crate::specs::Rebases::chains_fall))]
pub(crate) fn chains_fall(tables: &Tables) -> bool
    requires { 2 * chains + records rebase_words tables.now.rebases ≤ length tables.now.index }
    ensures { result ≡ chains_fall tables.now.rebases tables.now.index }
{
    let count = tables.rebases().len() / Rebase::WORDS;
    let index = tables.index();
    heads_fall(index, count) && nexts_fall(index, count)
}
