// The chains of all classes followed together, in the result buffer.
ghost use Rattle.std.specs.Prelude.{◌≡◌, false, ◌*◌, ◌/◌, ◌<◌, length, drop, IfSome};
ghost use Rattle.std.specs.Simd.{first_chunks};
ghost use mathlib.Core.List.{◌++◌, flat_map};
ghost use Rattle.reads.specs.Reference.{before};
ghost use Rattle.ancestry.specs.Ancestry.{words_of};
ghost use Rattle.ancestry.specs.Doubling.{node_at, ended_state, KnownRow, Following};
ghost use Rattle.ancestry.specs.Following.{ground_of, Ready, Unfollowed};
ghost use Rattle.reads.specs.Outcome.{value};
ghost use Rattle.records.specs.Class.{class_at};

use crate::asked::Falling;
use crate::class_chain::{last_at, limit_of, superclass_at};
use crate::doubling::{Limit, State, finish_all, follow, put_state};
use records::class::{ObjcClass, class_at};

// The rows, three words each.
fn rows_of(res: &[u64]) -> &[[u64; 3]]
    ensures { result.now ≡ first_chunks 3 (length (before res) / 3) (before res) }
{
    let (rows, _) = res.as_chunks::<3>();
    rows
}

// The addresses of the rows ascend; this decides only how rows are looked for.
fn ascending(res: &[u64]) -> bool {
    rows_of(res).is_sorted_by_key(|row| row[2])
}

// A row with an address: by bisection, or one by one. Where the addresses do not ascend a bisection may miss it.
fn row_of(res: &[u64], sorted: bool, address: u64) -> Option<usize>
    ensures { IfSome result (λ row. (row < length (before res) / 3) × (node_at (before res) row ≡ address)) }
{
    let rows = rows_of(res);
    if sorted {
        return rows.binary_search_by_key(&address, |row| row[2]).ok();
    }
    rows.iter().position(|row| row[2] == address)
}

// What a walk tells that finds no class above the one at `top`, `count` classes up.
fn ended_state(count: u64, top: u64) -> State
    ensures { result ≡ ended_state count top }
{
    State::Ended {
        count,
        last: last_at(count, top),
    }
}

// What is known of the class in row i after a walk up from it to the next class that has a row. The loop is that of `climb_from`, which
// looks for no row: one function for both would need a closure and a type for four ends, and be no shorter.
fn first_from(falling: &Falling, res: &[u64], sorted: bool, class: ObjcClass, i: usize) -> State
    requires { let t = falling.now.asked.now.tables.now in
        class_at t (node_at res.now i) false ≡ value class }
    ensures { let t = falling.now.asked.now.tables.now in let listed = length (before res) / 3 in
        KnownRow (ground_of t (before res) listed) 1 i result }
{
    let tables = falling.asked.tables;
    let most = limit_of(falling.asked);
    let mut at = class;
    let mut held = class.address;
    let mut hold = 1;
    for count in 0..most {
        let up = match superclass_at(tables, at) {
            Ok(up) => up,
            Err(m) => return ended_state(count, at.address),
        };
        at = up;
        if let Some(row) = row_of(res, sorted, up.address) {
            if count + 1 < most {
                return State::Followed {
                    count: count + 1,
                    row: row as u64,
                };
            }
        }
        if up.address == held {
            return State::Looping;
        }
        if count + 1 == hold {
            held = up.address;
            hold *= 2;
        }
    }
    State::Looping
}

// The same, from the address in the row. A struct of the tables, the rows and `sorted` would be no plainer: the rows are written between
// two calls, so it would be made anew for each row.
fn first(falling: &Falling, res: &[u64], sorted: bool, i: usize) -> State
    requires { let t = falling.now.asked.now.tables.now in let listed = length res.now / 3 in
        Ready t res.now listed i }
    ensures { let t = falling.now.asked.now.tables.now in let listed = length (before res) / 3 in
        KnownRow (ground_of t (before res) listed) 1 i result }
{
    match class_at(falling.asked.tables, res[i * 3 + 2], false) {
        Ok(class) => first_from(falling, res, sorted, class, i),
        // Not met: the class of a row decoded when the row was written (`Ready`). Without this arm the classes themselves would have to be kept
        // beside their rows, and nothing is lent for them.
        Err(_) => State::Looping,
    }
}

// Every chain is followed to the next class that has a row.
fn first_all(falling: &Falling, sorted: bool, res: &mut [u64])
    requires { let t = falling.now.asked.now.tables.now in let listed = length res.old / 3 in
        Unfollowed t listed res.old }
    ensures { let t = falling.now.asked.now.tables.now in let listed = length res.old / 3 in
        Following (ground_of t res.old listed) 1 res.old res.new }
{
    for i in 0..res.len() / 3 {
        let s = first(falling, res, sorted, i);
        put_state(res, i, s);
    }
}

// Every chain is followed to its end, or as far as can be, and the rows become the records.
pub(crate) fn follow_all(falling: &Falling, res: &mut [u64])
    requires { let t = falling.now.asked.now.tables.now in let listed = length res.old / 3 in
        Unfollowed t listed res.old }
    ensures { let t = falling.now.asked.now.tables.now in let listed = length res.old / 3 in
        ((s : Unfollowed t listed res.old) → res.new ≡ flat_map words_of s.told ++ drop (listed * 3) res.old) }
{
    let most = Limit {
        classes: limit_of(falling.asked),
    };
    let sorted = ascending(res);
    first_all(falling, sorted, res);
    follow(most, res);
    finish_all(res);
}
