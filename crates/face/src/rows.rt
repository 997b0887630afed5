// The rows of a list, as many a call as the lent words hold: methods, ivars, properties and protocol names.
ghost use Rattle.std.specs.Prelude.{◌≡◌, ◌+◌, ◌/◌, ◌^◌, ◌≤◌, length, ltb};
ghost use Rattle.std.proofs.lemmas.List.Edits.{sets};
ghost use Rattle.reads.specs.Outcome.{choose};
ghost use Rattle.reads.specs.declared.answer.Question.TheVariants.{WalkState};
ghost use Rattle.pointers.specs.Tables.{lent};
ghost use Rattle.face.specs.Rows.{Lists, refused_turn, moved_to, list_turn, name_turn, list_over, names_over, turn_over, row_turn, gather};

use crate::decoding::lent;
use crate::row::{ROW_WORDS, list_said, names_said};
use crate::status::Status;
use crate::words::setting_in;
use pointers::question::ask;
use pointers::tables::Tables;
use reads::answer::Question;
use records::list::ListKind;
use walks::list_walk::ListWalk;
use walks::protocol_names::ProtocolNameWalk;

// Where a walk over rows stands: the list's address, what it lists, the entries taken, and whether texts are read under the old reading.
#[repr(C)]
#[derive(Clone, Copy)]
pub struct RowWalk {
    pub list: u64,
    pub kind: u64,
    pub cursor: u64,
    pub old_reading: u64,
}

// What ended a call, how many rows it gave, and the walk after them.
#[repr(C)]
#[derive(Clone, Copy)]
pub struct RowsTold {
    pub status: Status,
    pub rows: u64,
    pub walk: RowWalk,
}

// What a list lists.
#[derive(Clone, Copy)]
pub enum Listed {
    Rows(ListKind),
    Names,
}

// What a step says, a row's words or what ends the rows, and the walk after it.
#[derive(Clone, Copy)]
pub struct RowTurn {
    pub said: Result<[u64; ROW_WORDS], Status>,
    pub walk: RowWalk,
}

// What the kind of a walk says that its list lists; of another kind it is no state.
impl TryFrom<u64> for Listed {
    type Error = Question;

    ghost try_from_gives = { Lists };

    #[tactic(auto, unfolding(crate::specs::Rows::listed, reads::specs::Outcome::choose), using(std::proofs::lemmas::Bool::Decides::nat_tests))]
    fn try_from(kind: u64) -> Result<Self, Question> {
        match kind {
            0 => Ok(Listed::Rows(ListKind::Methods)),
            1 => Ok(Listed::Rows(ListKind::Ivars)),
            2 => Ok(Listed::Rows(ListKind::Properties)),
            3 => Ok(Listed::Names),
            _ => Err(Question::WalkState),
        }
    }
}

impl RowWalk {
    // A step, with the walk at another cursor.
    fn turn(self, said: Result<[u64; ROW_WORDS], Status>, cursor: u64) -> RowTurn
        ensures { result ≡ record { said = said; walk = moved_to self cursor } }
    {
        RowTurn {
            said,
            walk: RowWalk { cursor, ..self },
        }
    }

    // The walk as given, with a number.
    fn refused(self, k: Question) -> RowTurn
        ensures { result ≡ refused_turn self k }
    {
        let said = Err(Status::refused(k));
        RowTurn { said, walk: self }
    }

    // A step over a list of methods, ivars or properties: what is no cursor of one is 10.
    fn list_turn(self, tables: &Tables, kind: ListKind) -> RowTurn
        ensures { let t = tables.now in
            result ≡ choose (ltb self.cursor (2 ^ 32)) (list_turn (list_over t) self kind) (refused_turn self WalkState) }
    {
        let Ok(cursor) = u32::try_from(self.cursor) else {
            return self.refused(Question::WalkState);
        };
        let setting = setting_in(self.old_reading);
        let walk = ListWalk {
            list: self.list,
            kind,
            setting,
            cursor,
        };
        let stepped = walk.walked_list(tables);
        let walked = stepped.walked;
        let next = stepped.walk;
        let said = list_said(walked);
        self.turn(said, next.cursor as u64)
    }

    // A step over protocol names.
    fn name_turn(self, tables: &Tables) -> RowTurn
        ensures { let t = tables.now in
            result ≡ name_turn (names_over t) self }
    {
        let setting = setting_in(self.old_reading);
        let walk = ProtocolNameWalk {
            list: self.list,
            cursor: self.cursor,
            setting,
        };
        let stepped = walk.walked_list(tables);
        let walked = stepped.walked;
        let next = stepped.walk;
        let said = names_said(walked);
        self.turn(said, next.cursor)
    }

    // A step over tables that no question refuses.
    #[tactic(auto, using(crate::proofs::RowLaws::turn_listed, crate::proofs::RowLaws::turn_names, crate::proofs::RowLaws::turn_nothing))]
    fn next(self, tables: &Tables) -> RowTurn
        ensures { let t = tables.now in
            result ≡ turn_over t self }
    {
        match Listed::try_from(self.kind) {
            Ok(Listed::Rows(kind)) => self.list_turn(tables, kind),
            Ok(Listed::Names) => self.name_turn(tables),
            Err(k) => self.refused(k),
        }
    }
}

impl RowsTold {
    // A call that gives no row.
    fn none(status: Status, walk: RowWalk) -> RowsTold
        ensures { result ≡ record { status = status; rows = 0; walk = walk } }
    {
        RowsTold {
            status,
            rows: 0,
            walk,
        }
    }
}

// Writes a row's words into a table from word `from` on.
fn put_row(table: &mut [u64], from: usize, words: [u64; ROW_WORDS])
    requires { from + 15 ≤ length table.old }
    ensures { table.new ≡ sets table.old from words }
{
    table[from..from + ROW_WORDS].copy_from_slice(&words);
}

// As many steps over tables that no question refuses as the table has room for, each with its row.
fn gather_rows(tables: &Tables, walk: RowWalk, table: &mut [u64]) -> RowsTold
    ensures { let t = tables.now in
        record { told = result; table = table.new } ≡ gather (turn_over t) (length table.old / 15) walk 0 table.old }
{
    let room = table.len() / ROW_WORDS;
    let mut at = walk;
    for n in 0..room {
        let turn = at.next(tables);
        at = turn.walk;
        match turn.said {
            Ok(words) => put_row(table, ROW_WORDS * n, words),
            Err(status) => {
                return RowsTold {
                    status,
                    rows: n as u64,
                    walk: at,
                };
            }
        }
    }
    RowsTold {
        status: Status::of(Status::MORE),
        rows: room as u64,
        walk: at,
    }
}

// The next rows of a list, as many as the table holds.
#[unsafe(no_mangle)]
pub extern "C" fn objclist_rows(
    files: &[&[u8]],
    segments: &[u64],
    sections: &[u64],
    info: &[u8],
    rebases: &[u64],
    binds: &[u64],
    index: &[u32],
    walk: RowWalk,
    table: &mut [u64],
) -> RowsTold
    ensures { let t = lent files segments sections info rebases binds index in
        record { told = result; table = table.new } ≡ gather (row_turn t) (length table.old / 15) walk 0 table.old }
{
    let tables = lent(files, segments, sections, info, rebases, binds, index);
    let room = table.len() / ROW_WORDS;
    match ask(&tables) {
        Ok(()) => gather_rows(&tables, walk, table),
        Err(k) => {
            if room == 0 {
                return RowsTold::none(Status::of(Status::MORE), walk);
            }
            RowsTold::none(Status::refused(k), walk)
        }
    }
}
