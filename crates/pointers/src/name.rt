// The bytes of a text, a part of a file of the image: of a bind's name, of a selector.
ghost use Rattle.std.specs.Prelude.{◌≡◌, ◌+◌, ◌^◌, ◌<◌, length};
ghost use Rattle.reads.specs.Files.{files_of, file_of};
ghost use Rattle.reads.specs.Place.{part};

use reads::files::bytes_of;
use reads::place::part;
use reads::text::Text;

// The bytes of a text that are there; a file that is not lent has none.
pub fn name_bytes<'a>(files: &[&'a [u8]], name: Text) -> &'a [u8]
    ensures bytes { result.now ≡ part (file_of (files_of files) name.file) name.offset name.len }
    ensures fits { name.offset + length result.now < 2 ^ 64 }
{
    part(bytes_of(files, name.file), name.offset, name.len)
}
