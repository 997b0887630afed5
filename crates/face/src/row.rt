// A row as words: a method, an ivar, a property, a protocol name, or an entry that is skipped.
ghost use Rattle.std.specs.Prelude.{◌≡◌};
ghost use Rattle.walks.specs.Walk.{list_answer};
ghost use Rattle.walks.specs.ProtocolNames.{names_answer};
ghost use Rattle.face.specs.Row.{number_words, aligned_code, method_words, ivar_words, property_words, row_words, name_words, skipped_words, list_row, name_row};

use crate::status::Status;
use reads::answer::{Missing, Reason};
use reads::text::Text;
use records::ivar::Ivar;
use records::method::Method;
use records::property::Property;
use records::row::Row;
use walks::list_walk::ListStep;
use walks::protocol_names::NameStep;

// The words of a row.
pub const ROW_WORDS: usize = 15;
// What a row is.
pub const METHOD: u64 = 0;

pub const IVAR: u64 = 1;

pub const PROPERTY: u64 = 2;

pub const NAME: u64 = 3;

pub const SKIPPED: u64 = 4;

// The two words of a number that may be none: whether it is there, and which.
fn number_words(number: Option<u64>) -> (u64, u64)
    ensures { result ≡ number_words number }
{
    match number {
        Some(n) => (1, n),
        None => (0, 0),
    }
}

// Not a cast: the numbers are the C interface's, in another order.
fn aligned_code(aligned: Option<bool>) -> u64
    ensures { result ≡ aligned_code aligned }
{
    match aligned {
        Some(false) => 0,
        Some(true) => 1,
        None => 2,
    }
}

fn method_words(m: Method) -> [u64; ROW_WORDS]
    ensures { result ≡ method_words m }
{
    let name = m.selector;
    let types = m.types;
    let implementation = m.implementation;
    let kind = m.kind;
    let (has_imp, imp) = number_words(implementation);
    [
        METHOD,
        0,
        0,
        name.file,
        name.offset,
        name.len,
        types.file,
        types.offset,
        types.len,
        has_imp,
        imp,
        kind as u64,
        0,
        0,
        0,
    ]
}

fn ivar_words(v: Ivar) -> [u64; ROW_WORDS]
    ensures { result ≡ ivar_words v }
{
    let name = v.name;
    let encoding = v.type_encoding;
    let offset = v.offset;
    let log2_alignment = v.log2_alignment;
    let aligned = v.aligned;
    let (has_place, place) = number_words(offset.map(|n| n as u64));
    let (has_alignment, alignment) = number_words(log2_alignment.map(|n| n as u64));
    let code = aligned_code(aligned);
    [
        IVAR,
        0,
        0,
        name.file,
        name.offset,
        name.len,
        encoding.file,
        encoding.offset,
        encoding.len,
        has_place,
        place,
        v.size as u64,
        has_alignment,
        alignment,
        code,
    ]
}

fn property_words(p: Property) -> [u64; ROW_WORDS]
    ensures { result ≡ property_words p }
{
    let name = p.name;
    let attributes = p.attributes;
    [
        PROPERTY,
        0,
        0,
        name.file,
        name.offset,
        name.len,
        attributes.file,
        attributes.offset,
        attributes.len,
        0,
        0,
        0,
        0,
        0,
        0,
    ]
}

fn row_words(row: Row) -> [u64; ROW_WORDS]
    ensures { result ≡ row_words row }
{
    match row {
        Row::Method(m) => method_words(m),
        Row::Ivar(v) => ivar_words(v),
        Row::Property(p) => property_words(p),
    }
}

fn name_words(name: Text) -> [u64; ROW_WORDS]
    ensures { result ≡ name_words name }
{
    [
        NAME,
        0,
        0,
        name.file,
        name.offset,
        name.len,
        0,
        0,
        0,
        0,
        0,
        0,
        0,
        0,
        0,
    ]
}

fn skipped_words(why: Reason, place: Option<u64>) -> [u64; ROW_WORDS]
    ensures { result ≡ skipped_words why place }
{
    let status = Status::from(why);
    let (has_place, place) = number_words(place);
    [
        SKIPPED,
        status.code,
        status.at,
        0,
        0,
        0,
        0,
        0,
        0,
        has_place,
        place,
        0,
        0,
        0,
        0,
    ]
}

// What a step over a list says: a row's words, or what ends the rows.
pub(crate) fn list_said(walked: Result<ListStep, Missing>) -> Result<[u64; ROW_WORDS], Status>
    ensures { result ≡ list_row (list_answer walked) }
{
    match walked {
        Ok(ListStep::Row(row)) => Ok(row_words(row)),
        Ok(ListStep::Skipped(j, why)) => Ok(skipped_words(why, Some(j as u64))),
        Ok(ListStep::Finished) => Err(Status::of(Status::FINISHED)),
        Err(m) => Err(Status::from(m)),
    }
}

// What a step over protocol names says: a name's words, or what ends the names.
pub(crate) fn names_said(walked: Result<NameStep, Missing>) -> Result<[u64; ROW_WORDS], Status>
    ensures { result ≡ name_row (names_answer walked) }
{
    match walked {
        Ok(NameStep::Name(name)) => Ok(name_words(name)),
        Ok(NameStep::Passed(why)) => Ok(skipped_words(why, None)),
        Ok(NameStep::Finished) => Err(Status::of(Status::FINISHED)),
        Err(m) => Err(Status::from(m)),
    }
}
