// Selectors compared as bytes.
ghost use Rattle.std.specs.Prelude.{◌≡◌};
ghost use Rattle.reads.specs.Files.{files_of};
ghost use Rattle.dispatch.specs.Dispatch.{same_selector, comes_before};

use crate::rows::Appearance;
use pointers::name::name_bytes;
use reads::text::Text;

// Equal byte strings, wherever they stand.
#[tactic(auto, using(crate::proofs::Bytes::pointwise_same), unfolding(crate::specs::Dispatch::same_selector))]
pub(crate) fn same_selector(files: &[&[u8]], s: Text, u: Text) -> bool
    ensures { result ≡ same_selector (files_of files) s u }
{
    name_bytes(files, s) == name_bytes(files, u)
}

// b stands before a.
#[tactic(auto, using(crate::proofs::Bytes::places_ordered))]
pub(crate) fn comes_before(b: Appearance, a: Appearance) -> bool
    ensures { result ≡ comes_before b a }
{
    (b.source, b.entry) < (a.source, a.entry)
}
