// The words of a text's outermost types.
ghost use Rattle.std.specs.Prelude.{◌≡◌, length};
ghost use Rattle.reads.specs.Reference.{before};
ghost use Rattle.encodings.specs.Words.{types_of, types_left};
ghost use Rattle.reads.specs.Answer.{outcome};

use crate::reading::read_types;
use reads::answer::{Missing, Question};

// The outermost types of a text, four words each, into the lent buffer: start and length of the type, qualifiers included, then of
// its frame offset, 0 and 0 if it has none.
pub fn type_words(text: &[u8], buffer: &mut [u64]) -> Result<u64, Missing>
    ensures outcome { outcome result ≡ types_of (before text) (length buffer.old) }
    ensures contents { buffer.new ≡ types_left (before text) buffer.old }
{
    let count = read_types(text, &mut buffer[0..0])?;
    if count > (buffer.len() / 4) as u64 {
        return Err(Missing::Refused(Question::ItemRoom));
    }
    let _ = read_types(text, buffer);
    Ok(count)
}
