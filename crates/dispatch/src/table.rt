// The table of selectors that is kept in the result buffer while rows are gone over: four words a selector.
ghost use Rattle.std.specs.Prelude.{◌≡◌, ◌∷◌, [], ◌+◌, ◌*◌, ◌≤◌, length};
ghost use Rattle.std.proofs.lemmas.List.Edits.{sets};
ghost use Rattle.reads.specs.Files.{files_of};
ghost use Rattle.dispatch.specs.Table.{marks, FoundIn, SameWords, Noted, origin_of, Named};

use crate::rows::Appearance;
use crate::selectors::same_selector;
use crate::slots::listed_at;
use pointers::tables::Tables;
use reads::text::Text;

// Its words, and how many selectors it has. That they have room for them stands in the clauses: with a ghost field for it, tried, the
// words that the lent buffer has at the end did not prove to be these.
#[derive(Drop)]
pub(crate) struct Selectors<'a> {
    pub(crate) words: &'a mut [u64],
    pub(crate) count: usize,
}

// The entry of a row: its selector, and the number of its source.
#[tactic(auto, using(crate::proofs::SelectorTable::mark_entry))]
fn mark(res: &mut [u64], at: usize, b: Appearance)
    requires { at + 4 ≤ length res.old }
    ensures { res.new ≡ sets res.old at (marks (b ∷ [])) }
{
    let s = b.selector;
    res[at..at + 4].copy_from_slice(&[s.file, s.offset, s.len, b.source]);
}

// The record of a source: the class's own, or the category in slot n - 1. An Option is no plainer: rows come of slots that have an
// address (`Origins`), and the caller, who writes a word, would have to put the 0 there.
#[tactic(auto, using(std::proofs::lemmas::Bool::Decides::nat_tests), unfolding(crate::specs::Table::origin_of, reads::specs::Outcome::choose))]
fn origin_of(tables: &Tables, own: u64, n: u64) -> u64
    ensures { let t = tables.now in
        result ≡ origin_of own t n }
{
    if n == 0 {
        return own;
    }
    listed_at(tables, n - 1).unwrap_or(0)
}

impl Selectors<'_> {
    // The number of the entry with a selector.
    fn find(&self, files: &[&[u8]], s: Text) -> Option<usize>
        requires { 4 * self.now.count ≤ length self.now.words.now }
        ensures { FoundIn (files_of files) self.now.words.now self.now.count s result }
    {
        let entries = &self.words[..4 * self.count];
        for (j, entry) in entries.chunks_exact(4).enumerate() {
            let u = Text {
                file: entry[0],
                offset: entry[1],
                len: entry[2],
            };
            if same_selector(files, u, s) {
                return Some(j);
            }
        }
        None
    }

    // Notes a row: it takes the place of one of an earlier source, or comes last if there is room.
    pub(crate) fn note(&mut self, files: &[&[u8]], b: Appearance)
        requires { 4 * self.old.count ≤ length self.old.words.now }
        ensures kept { SameWords self.old self.new }
        ensures noted { Noted (files_of files) self.old.words.now self.old.count b self.new.count self.new.words.now }
    {
        if let Some(j) = self.find(files, b.selector) {
            let at = 4 * j;
            if self.words[at + 3] < b.source {
                mark(self.words, at, b);
            }
            return;
        }
        let at = 4 * self.count;
        if self.words.len() - at < 4 {
            return;
        }
        mark(self.words, at, b);
        self.count += 1;
    }

    // Puts the records in place of their numbers. Not `chunks_exact_mut(4)`, tried: it lends one field while the other is used, which
    // the check does not cover; with the words and their end taken out of the fields first it is longer, and no plainer.
    pub(crate) fn name(&mut self, tables: &Tables, own: u64)
        requires { 4 * self.old.count ≤ length self.old.words.now }
        ensures kept { SameWords self.old self.new }
        ensures count { self.new.count ≡ self.old.count }
        ensures named { Named own tables.now self.old.words.now self.old.count self.new.words.now }
    {
        for j in 0..self.count {
            let at = 4 * j + 3;
            self.words[at] = origin_of(tables, own, self.words[at]);
        }
    }
}
