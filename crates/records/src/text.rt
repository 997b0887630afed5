// Texts at addresses, under the reading of the setting.
ghost use Rattle.std.specs.Prelude.{◌≡◌};
ghost use Rattle.reads.specs.Answer.{outcome};
ghost use Rattle.reads.specs.Outcome.{and_then, or_empty};
ghost use Rattle.pointers.specs.Bytes.{string};

use pointers::tables::Tables;
use reads::answer::Missing;
use reads::text::{CstrPair, Text, or_empty, read_cstr, read_cstr_row};

// The text at an address.
pub(crate) fn string(tables: &Tables, va: u64) -> Result<Text, Missing>
    ensures { let t = tables.now in
        outcome result ≡ string t va }
{
    read_cstr(tables.image(), tables.setting().reading, va)
}

// The texts at two addresses of a row; where the first is there, an absent second one counts as the empty one.
pub(crate) fn string_pair(tables: &Tables, first: u64, second: u64) -> CstrPair
    ensures { let t = tables.now in
        (outcome result.first ≡ string t first) × (outcome result.second ≡ or_empty (and_then (string t first) (λ _. string t second))) }
{
    let pair = read_cstr_row(tables.image(), tables.setting().reading, first, second);
    CstrPair {
        first: pair.first,
        second: or_empty(pair.second),
    }
}
