// The property that an attribute string declares, by the letters of Apple's "Declared Properties".
ghost use Rattle.std.specs.Prelude.{◌≡◌, length};
ghost use Rattle.reads.specs.Reference.{before};
ghost use Rattle.attributes.specs.Attributes.{items};
ghost use Rattle.attributes.specs.Property.{unknowns, declared, declared_of, unknown_left};
ghost use Rattle.reads.specs.Answer.{outcome};

use crate::items::Value;
use crate::pass::{Which, first_value, hand_out};
use reads::answer::Missing;

// A declared property: the first value of each letter, and how many items have other letters.
#[derive(Clone, Copy)]
pub struct Declared {
    // T
    pub type_encoding: Option<Value>,
    // R
    pub readonly: Option<Value>,
    // C
    pub copy: Option<Value>,
    // &
    pub retain: Option<Value>,
    // N
    pub nonatomic: Option<Value>,
    // D
    pub dynamic: Option<Value>,
    // W
    pub weak: Option<Value>,
    // P, eligible for garbage collection
    pub collectable: Option<Value>,
    // G
    pub getter: Option<Value>,
    // S
    pub setter: Option<Value>,
    // t, the type in the old-style encoding
    pub old_type_encoding: Option<Value>,
    // V, the backing ivar
    pub variable: Option<Value>,
    pub unknown_count: u64,
}

// The property that a text declares, which has so many items of unknown letters.
#[tactic(auto, unfolding(crate::specs::Property::declared))]
fn declared_by(text: &[u8], unknown_count: u64) -> Declared
    requires { unknown_count ≡ length (unknowns (items text.now)) }
    ensures { result ≡ declared (before text) }
{
    Declared {
        type_encoding: first_value(text, b'T', 0),
        readonly: first_value(text, b'R', 0),
        copy: first_value(text, b'C', 0),
        retain: first_value(text, b'&', 0),
        nonatomic: first_value(text, b'N', 0),
        dynamic: first_value(text, b'D', 0),
        weak: first_value(text, b'W', 0),
        collectable: first_value(text, b'P', 0),
        getter: first_value(text, b'G', 0),
        setter: first_value(text, b'S', 0),
        old_type_encoding: first_value(text, b't', 0),
        variable: first_value(text, b'V', 0),
        unknown_count,
    }
}

// The property that a text declares; the items of unknown letters, three words each, into the lent buffer.
pub fn decode_attributes(text: &[u8], buffer: &mut [u64]) -> Result<Declared, Missing>
    ensures outcome { outcome result ≡ declared_of (before text) (length buffer.old) }
    ensures contents { buffer.new ≡ unknown_left (before text) buffer.old }
{
    let unknown_count = hand_out(text, Which::Unknown, buffer)?;
    Ok(declared_by(text, unknown_count))
}
