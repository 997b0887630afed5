// The items of an attribute string, as `T@"NSString",C,N,V_name`: property.rs, parse_attributes.
ghost use Rattle.std.specs.Prelude.{◌≡◌, length};
ghost use Rattle.reads.specs.Reference.{before};
ghost use Rattle.attributes.specs.Attributes.{attributes_of, items_left};
ghost use Rattle.reads.specs.Answer.{outcome};

use crate::pass::{Which, first_value, hand_out};
use reads::answer::Missing;

// A value: the part of the text from `start`, `len` bytes long.
#[derive(Clone, Copy)]
pub struct Value {
    pub start: u64,
    pub len: u64,
}

// An item: a key byte and its value.
#[derive(Clone, Copy)]
pub struct Item {
    pub key: u8,
    pub value: Value,
}

// How many items there are, and the first T value that is not empty, if there is one.
#[derive(Clone, Copy)]
pub struct Attributes {
    pub count: u64,
    pub type_encoding: Option<Value>,
}

// The items of a text, three words each, into the lent buffer.
pub fn parse_attributes(text: &[u8], buffer: &mut [u64]) -> Result<Attributes, Missing>
    ensures outcome { outcome result ≡ attributes_of (before text) (length buffer.old) }
    ensures contents { buffer.new ≡ items_left (before text) buffer.old }
{
    let count = hand_out(text, Which::All, buffer)?;
    Ok(Attributes {
        count,
        type_encoding: first_value(text, b'T', 1),
    })
}
