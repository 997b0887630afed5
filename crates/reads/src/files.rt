// The files of an image: at most four slices are lent, numbered from 0.
ghost use Rattle.std.specs.Prelude.{◌≡◌, length};
ghost use Rattle.reads.specs.Files.{files_of, is_lent, file_of, longest};

// How many files may be lent.
const FILES: u64 = 4;

// A file number that has a lent slice.
#[tactic(auto, using(std::proofs::lemmas::Bool::Decides::nat_tests), unfolding(crate::specs::Files::files_lent))]
pub fn is_lent(files: &[&[u8]], f: u64) -> bool
    ensures { result ≡ is_lent (files_of files) f }
{
    if FILES <= f {
        return false;
    }
    f < files.len() as u64
}

// The bytes of a file; a file that is not lent has none, as the definition says: so every read of a byte of it is past its end, and none needs an
// Option. What reads no byte, as a name of no length at offset 0, passes there: question 18 (pointers) asks `is_lent` before it.
pub fn bytes_of<'a>(files: &[&'a [u8]], f: u64) -> &'a [u8]
    ensures { result.now ≡ file_of (files_of files) f }
{
    if !is_lent(files, f) {
        return b"";
    }
    files[f as usize]
}

// The length of a file; 0 where it is not lent.
pub fn file_len(files: &[&[u8]], f: u64) -> u64
    ensures { result ≡ length (file_of (files_of files) f) }
{
    bytes_of(files, f).len() as u64
}

// The length of the longest file that is lent.
#[tactic(auto, using(crate::proofs::LentFiles::longest_past, crate::proofs::LentFiles::longest_step))]
pub fn longest(files: &[&[u8]]) -> u64
    ensures { result ≡ longest (files_of files) }
{
    let mut n: u64 = 0;
    for f in 0..FILES {
        n = n.max(file_len(files, f));
    }
    n
}
