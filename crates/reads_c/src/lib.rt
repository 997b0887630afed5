// The C face of the text reads: libreads.a.
#![tactic(auto)]

ghost use Rattle.std.specs.Prelude.{◌≡◌};
ghost use Rattle.reads.specs.Reference.{before};
ghost use Rattle.reads.specs.Segment.{place_at};
ghost use Rattle.reads.specs.declared.text.Reading.TheVariants.{Old};
ghost use Rattle.reads.specs.Text.{text_from, length_plus_one};

// For callers in C or Rust: one more than the length of the text at an offset of one file under the old reading, 0 where there is none.
#[unsafe(no_mangle)]
pub extern "C" fn reads_cstr_length_plus_one(bytes: &[u8], offset: u64) -> u64
    ensures { result ≡ length_plus_one (text_from Old (before bytes) (place_at 0 offset)) }
{
    reads::text::reads_cstr_length_plus_one(bytes, offset)
}
