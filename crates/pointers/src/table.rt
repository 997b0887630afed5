// The rebase and bind tables, lent as words.
ghost use Rattle.std.specs.Prelude.{ℕ, Bool, ◌≡◌, ◌<◌};
ghost use Rattle.reads.specs.Reference.{before};
ghost use Rattle.reads.specs.Table.{records};
ghost use Rattle.pointers.specs.Tables.{rebase_words, bind_words, rebase_record, bind_record};
ghost use Rattle.pointers.specs.Question.{every};

use reads::text::Text;

// Whether each of n rows passes a test of their numbers, counted from 0.
pub(crate) fn every<F: Fn(usize) -> bool>(n: usize, passes: F) -> bool
    requires { (i : _) → i < n → F.pre passes i }
    ensures { (test : ℕ → Bool) → ((i : ℕ) (r : Bool) → i < n → F.post passes i r → r ≡ test i) → result ≡ every test n }
{
    // `all` was tried: that the test can be called at each item of the range the check does not find, and the proof would be longer than the loop.
    for i in 0..n {
        if !passes(i) {
            return false;
        }
    }
    true
}

// A rebase: the slot, and the address that it points to.
#[derive(Clone, Copy)]
pub struct Rebase {
    pub slot: u64,
    pub target: u64,
}

impl Rebase {
    // The words of a record: slot, target.
    pub const WORDS: usize = 2;

    // Record i of the table, counted from 0.
    pub(crate) fn at(rebases: &[u64], i: usize) -> Rebase
        requires { i < records rebase_words rebases.now }
        ensures { result ≡ rebase_record (before rebases) i }
    {
        let first = i * Rebase::WORDS;
        Rebase {
            slot: rebases[first],
            target: rebases[first + 1],
        }
    }
}

// A bind: the slot, and the name of its symbol, a part of a file of the image.
#[derive(Clone, Copy)]
pub struct Bind {
    pub slot: u64,
    pub name: Text,
}

impl Bind {
    // The words of a record: slot, name offset, name length, name's file.
    pub const WORDS: usize = 4;

    // Record i of the table, counted from 0.
    pub(crate) fn at(binds: &[u64], i: usize) -> Bind
        requires { i < records bind_words binds.now }
        ensures { result ≡ bind_record (before binds) i }
    {
        let first = i * Bind::WORDS;
        let name = Text {
            file: binds[first + 3],
            offset: binds[first + 1],
            len: binds[first + 2],
        };
        Bind {
            slot: binds[first],
            name,
        }
    }
}
