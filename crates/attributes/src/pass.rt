// Passes over the items of a text, which parsing and decoding share.
ghost use Rattle.std.specs.Prelude.{◌≡◌, not, ◌+◌, ◌*◌, ◌-◌, ◌≤◌, length, drop};
ghost use Rattle.std.specs.Iterator.{YieldsFirst, item_count};
ghost use Rattle.reads.specs.Reference.{before};
ghost use Rattle.attributes.specs.Attributes.{value_length, item_of, items, handed_out, filled, Handed};
ghost use Rattle.reads.specs.Answer.{outcome};
ghost use Rattle.attributes.specs.Property.{letters, among, first_value};
ghost use Rattle.attributes.specs.Pass.{items_left_of, chosen_left_of, wanted, chosen};

use crate::items::{Item, Value};
use reads::answer::{Missing, Question, Reason};
use reads::text::utf8_verdict;

// The letters of Apple's list.
const LETTERS: [u8; 12] = *b"TRC&NDWPGStV";

// The items of a text that begin at byte `at` or behind it.
#[derive(Clone, Copy)]
pub struct Items<'a> {
    text: &'a [u8],
    at: usize,
}

// Which items are handed out: all, or those of unknown letters. No closure: what it keeps would have to stand in the iterator's contract,
// and there are these two.
#[derive(Clone, Copy)]
pub enum Which {
    All,
    Unknown,
}

// Where the value that starts at `start` ends: at the first comma outside double quotes, or with the text.
#[inline(always)]
fn value_end(text: &[u8], start: usize) -> usize
    requires { start ≤ length text.now }
    ensures { result ≡ start + value_length (drop start (before text)) }
{
    let rest = &text[start..];
    let mut quoted = false;
    for (i, b) in rest.iter().enumerate() {
        if *b == b'"' {
            quoted = !quoted;
        } else if *b == b',' && !quoted {
            return start + i;
        }
    }
    text.len()
}

// The item of a key byte whose value runs from `start` to `end`.
#[tactic(auto, using(std::proofs::lemmas::Bool::Decides::nat_tests), unfolding(crate::specs::Attributes::item_of, reads::specs::Outcome::choose))]
fn item_of(key: u8, start: usize, end: usize) -> Item
    requires { start ≤ end }
    ensures { result ≡ item_of key start (end - start) }
{
    let len = if key < 0x80 { end - start } else { 0 };
    Item {
        key,
        value: Value {
            start: start as u64,
            len: len as u64,
        },
    }
}

impl<'a> Iterator for Items<'a> {
    type Item = Item;

    ghost next_gives = { YieldsFirst items_left_of };

    ghost remaining = { item_count items_left_of };

    #[inline(always)]
    fn next(&mut self) -> Option<Item> {
        let key = *self.text.get(self.at)?;
        let start = self.at + 1;
        let end = value_end(self.text, start);
        self.at = end + 1;
        Some(item_of(key, start, end))
    }
}

// All items of a text.
#[tactic(auto, using(crate::proofs::AttributeItems::items_start))]
fn items_of(text: &[u8]) -> Items<'_>
    ensures left { items_left_of result ≡ items (before text) }
    ensures text { result.text.now ≡ before text }
{
    Items { text, at: 0 }
}

// A letter is none of Apple's list.
#[tactic(auto, unfolding(crate::specs::Property::among))]
fn is_unknown(letter: u8) -> bool
    ensures { result ≡ not (among letters letter) }
{
    !LETTERS.contains(&letter)
}

// An item of this letter is handed out.
fn wanted(which: Which, letter: u8) -> bool
    ensures { result ≡ wanted which letter }
{
    match which {
        Which::All => true,
        Which::Unknown => is_unknown(letter),
    }
}

// The items of a text that are handed out.
#[derive(Clone, Copy)]
pub struct Chosen<'a> {
    items: Items<'a>,
    which: Which,
}

impl<'a> Iterator for Chosen<'a> {
    type Item = Item;

    ghost next_gives = { YieldsFirst chosen_left_of };

    ghost remaining = { item_count chosen_left_of };

    #[inline(always)]
    fn next(&mut self) -> Option<Item> {
        let which = self.which;
        self.items.find(|item| wanted(which, item.key))
    }
}

#[tactic(auto, using(crate::proofs::AttributeItems::items_start))]
fn chosen_items(text: &[u8], which: Which) -> Chosen<'_>
    ensures left { chosen_left_of result ≡ chosen which (items (before text)) }
    ensures text { result.items.text.now ≡ before text }
{
    Chosen {
        items: items_of(text),
        which,
    }
}

// How many items are handed out.
#[tactic(auto, using(crate::proofs::AttributeItems::chosen_few))]
fn count_items(handed: Chosen) -> u64
    ensures { result ≡ length (chosen_left_of handed.entry) }
{
    handed.count() as u64
}

// The count of the items that are handed out, where the text is UTF-8 and they fit a buffer of `room` words.
#[tactic(auto, unfolding(crate::specs::Attributes::handed_out, crate::specs::Attributes::items_fit), using(reads::proofs::Tests::le_same, std::proofs::lemmas::Bool::Decides::nat_tests, pointers::proofs::Questions::in_order))]
fn count_fitting(handed: Chosen, room: usize) -> Result<u64, Missing>
    ensures { let is = chosen_left_of handed.entry in outcome result ≡ handed_out handed.entry.items.text.now is room (length is) }
{
    utf8_verdict(handed.items.text).map_err(|k| Missing::Absent(Reason::NotUtf8(k)))?;
    let count = count_items(handed);
    if count > (room / 3) as u64 {
        return Err(Missing::Refused(Question::ItemRoom));
    }
    Ok(count)
}

// Writes three words for each item that is handed out.
fn write_items(handed: Chosen, buffer: &mut [u64])
    requires { 3 * length (chosen_left_of handed) ≤ length buffer.old }
    ensures { buffer.new ≡ filled (chosen_left_of handed.entry) buffer.old }
{
    for (i, item) in handed.enumerate() {
        let k = 3 * i;
        buffer[k..k + 3].copy_from_slice(&[item.key as u64, item.value.start, item.value.len]);
    }
}

// Hands items out into the lent buffer, three words each, where the text is UTF-8 and they fit: how many there are.
pub fn hand_out(text: &[u8], which: Which, buffer: &mut [u64]) -> Result<u64, Missing>
    ensures { let is = chosen which (items (before text)) in Handed (before text) buffer.old is (length is) (outcome result) buffer.new }
{
    let handed = chosen_items(text, which);
    let count = count_fitting(handed, buffer.len())?;
    write_items(handed, buffer);
    Ok(count)
}

// The first value of a letter that has `least` bytes or more.
pub fn first_value(text: &[u8], letter: u8, least: u64) -> Option<Value>
    ensures { result ≡ first_value letter least (items (before text)) }
{
    let item = items_of(text).find(|item| item.key == letter && least <= item.value.len)?;
    Some(item.value)
}
