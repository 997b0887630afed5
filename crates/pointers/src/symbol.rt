// Symbol names of binds without the linker's prefix (mod.rs, strip_objc_symbol_prefix).
ghost use Rattle.std.specs.Prelude.{◌≡◌, map};
ghost use Rattle.reads.specs.Reference.{before};
ghost use Rattle.reads.specs.Files.{files_of};
ghost use Rattle.pointers.specs.Symbol.{starts, fitting, stripped_name};

use crate::name::name_bytes;
use reads::text::Text;

// In the order in which they are tried.
const PREFIXES: [&[u8]; 5] = [
    b"_OBJC_CLASS_$_",
    b"_OBJC_METACLASS_$_",
    b"_OBJC_PROTOCOL_$_",
    b"_OBJC_REF_$_",
    b"_OBJC_LABEL_PROTOCOL_$_",
];

// Whether s starts with p: the library's method, with its equation with the definition, which macho needs too.
#[tactic(auto, using(crate::proofs::Prefixes::starts_is))]
pub fn starts_with(s: &[u8], p: &[u8]) -> bool
    ensures { result ≡ starts (before p) (before s) }
{
    s.starts_with(p)
}

// The length of the first of the prefixes that s starts with, 0 where it starts with none.
fn prefix_length(s: &[u8], prefixes: &[&[u8]]) -> usize
    ensures { result ≡ fitting (map (λ p. p.now) (before prefixes)) (before s) }
{
    prefixes
        .iter()
        .find(|prefix| starts_with(s, prefix))
        .map_or(0, |prefix| prefix.len())
}

// A name of the image less the first of the prefixes that it starts with; what lies past its file's end matches none, and a file that is
// not lent has no bytes.
pub fn strip_objc_symbol_prefix(files: &[&[u8]], name: Text) -> Text
    ensures { result ≡ stripped_name (files_of files) name }
{
    let n = prefix_length(name_bytes(files, name), &PREFIXES) as u64;
    Text {
        file: name.file,
        offset: name.offset + n,
        len: name.len - n,
    }
}
