// The records of the lent tables: each is put where there is room for it, and counted in any case.
ghost use Rattle.std.specs.Prelude.{◌≡◌, ◌≤◌, [], ◌∷◌};
ghost use Rattle.fixups.specs.Tables.{part, named_row, put_row};

use crate::name::Bound;
use pointers::table::Rebase;

// The tables, and how many rows are counted for each. Tried: two fields that are each a table with its count, as opcodes' `Binds` is. A slice
// that a struct in a struct holds is not followed to the end of the loan, so that `fill` knows only its length, and the proof did not close.
#[derive(Drop)]
pub(crate) struct Lists<'a> {
    pub(crate) rebases: &'a mut [u64],
    pub(crate) rebased: u64,
    pub(crate) binds: &'a mut [u64],
    pub(crate) bound: u64,
}

// Puts row n of N words into the table, if it has room; counts it, up to what a word holds.
fn put_row<const N: usize>(table: &mut [u64], n: u64, row: [u64; N]) -> u64
    requires { 1 ≤ N }
    ensures { part result table.new ≡ put_row row.entry (part n table.old) }
{
    if n < (table.len() / N) as u64 {
        let i = N * (n as usize);
        table[i..i + N].copy_from_slice(&row);
    }
    n.saturating_add(1)
}

// Puts rebase n into the table, if it has room.
pub(crate) fn put_rebase(table: &mut [u64], n: u64, x: Rebase) -> u64
    ensures { part result table.new ≡ put_row (x.slot ∷ x.target ∷ []) (part n table.old) }
{
    put_row(table, n, [x.slot, x.target])
}

// Puts bind n into the table, if it has room; its name lies in file 0.
pub fn put_bind(table: &mut [u64], n: u64, x: Bound) -> u64
    ensures { part result table.new ≡ put_row (named_row x) (part n table.old) }
{
    put_row(table, n, [x.slot, x.name.at, x.name.len, 0])
}
