// The text of a declared property: its letters in a fixed order, the unknown ones among them, with commas between them.
ghost use Rattle.std.specs.Prelude.{◌≡◌, [], ◌∷◌, map, length};
ghost use Rattle.std.specs.List.{zip};
ghost use Rattle.reads.specs.Reference.{before};
ghost use Rattle.attributes.specs.Written.{bytes_given, part_of, front_letters, front_of, given, items_in, written_text, written_of, written_left};
ghost use Rattle.attributes.specs.Puts.{Put, Puts, comma_at, behind, item_at};
ghost use Rattle.reads.specs.Answer.{answered};

use crate::items::{Item, Value};
use crate::property::Declared;
use reads::answer::Question;
use reads::place::part;

// The front letters, each with what is given of it.
fn front(declared: Declared) -> [(u8, Option<Value>); 11]
    ensures { result ≡ zip front_letters (front_of declared) }
{
    [
        (b'T', declared.type_encoding),
        (b'R', declared.readonly),
        (b'C', declared.copy),
        (b'&', declared.retain),
        (b'N', declared.nonatomic),
        (b'D', declared.dynamic),
        (b'W', declared.weak),
        (b'P', declared.collectable),
        (b'G', declared.getter),
        (b'S', declared.setter),
        (b't', declared.old_type_encoding),
    ]
}

// The item of a row; a key is a byte.
fn item_in(row: &[u64]) -> Item
    requires { length row.now ≡ 3 }
    ensures { result ≡ item_at (before row) }
{
    Item {
        key: (row[0] % 256) as u8,
        value: Value {
            start: row[1],
            len: row[2],
        },
    }
}

// The first `count` rows, or those that are there whole.
#[tactic(auto, using(crate::proofs::Rows::rows_cut))]
fn rows_in(rows: &[u64], count: u64) -> &[u64]
    ensures { items_in (length result.now) result.now ≡ items_in count (before rows) }
{
    let whole = count.min((rows.len() / 3) as u64) as usize;
    &rows[..3 * whole]
}

// The lent buffer, and where its next byte goes, 2^64 - 1 at most: bytes that do not fit are counted, and not put.
#[derive(Drop)]
struct Out<'a> {
    to: &'a mut [u8],
    at: usize,
}

impl Out<'_> {
    // Puts bytes, if they fit.
    #[tactic(auto, using(crate::proofs::Puts::put_not, crate::proofs::Puts::put_there))]
    fn bytes(&mut self, bytes: &[u8])
        ensures { Puts self.old (before bytes) self.new }
    {
        let end = self.at.saturating_add(bytes.len());
        if end <= self.to.len() {
            self.to[self.at..end].copy_from_slice(bytes);
        }
        self.at = end;
    }

    // Puts a comma, but none in front of the first item.
    #[tactic(auto, using(crate::proofs::Puts::no_comma, crate::proofs::Puts::comma))]
    fn comma(&mut self)
        ensures { Puts self.old (comma_at self.old.at) self.new }
    {
        if self.at != 0 {
            self.bytes(b",");
        }
    }

    // Puts an item.
    fn item(&mut self, text: &[u8], item: Item)
        ensures { Puts self.old (behind self.old.at (part_of (before text) item ∷ [])) self.new }
    {
        self.comma();
        self.bytes(&[item.key]);
        self.bytes(part(text, item.value.start, item.value.len));
    }

    // Puts a letter, if it is given.
    fn attribute(&mut self, text: &[u8], letter: u8, attribute: Option<Value>)
        ensures { Puts self.old (behind self.old.at (given (letter ∷ []) (bytes_given (before text) attribute ∷ []))) self.new }
    {
        if let Some(value) = attribute {
            self.item(text, Item { key: letter, value });
        }
    }

    // Puts the letters that come before the unknown ones.
    fn front(&mut self, text: &[u8], declared: Declared)
        ensures { Puts self.old (behind self.old.at (given front_letters (map (bytes_given (before text)) (front_of declared)))) self.new }
    {
        for (letter, attribute) in front(declared) {
            self.attribute(text, letter, attribute);
        }
    }

    // Puts the items of rows.
    fn unknown(&mut self, text: &[u8], rows: &[u64])
        ensures { Puts self.old (behind self.old.at (map (part_of (before text)) (items_in (length rows.now) (before rows)))) self.new }
    {
        for row in rows.chunks_exact(3) {
            self.item(text, item_in(row));
        }
    }
}

// Puts all letters of a property: how many bytes they are.
fn put_all(text: &[u8], declared: Declared, unknown: &[u64], to: &mut [u8]) -> usize
    ensures { Put (written_text (before text) declared (before unknown)) 0 to.old result to.new }
{
    let mut out = Out { to, at: 0 };
    out.front(text, declared);
    out.unknown(text, rows_in(unknown, declared.unknown_count));
    out.attribute(text, b'V', declared.variable);
    out.at
}

// The text of a declared property, whose values stand in `text` and whose unknown letters are the rows of `unknown`, into the
// lent buffer; its length.
pub fn write_attributes(
    text: &[u8],
    declared: Declared,
    unknown: &[u64],
    out: &mut [u8],
) -> Result<u64, Question>
    ensures outcome { answered result ≡ written_of (before text) declared (before unknown) (length out.old) }
    ensures contents { out.new ≡ written_left (before text) declared (before unknown) out.old }
{
    let len = put_all(text, declared, unknown, &mut out[0..0]);
    if out.len() < len {
        return Err(Question::ItemRoom);
    }
    put_all(text, declared, unknown, out);
    Ok(len as u64)
}
