// The lines of a listing (document 01, "The program's listing"): each line's fields, which a program only prints.
use frames::frames::Mark;
use pointers::imageinfo::ImageInfo;
use reads::text::{Reading, Text};
use records::category::ObjcCategory;
use records::class::{ClassRo, ObjcClass};
use records::protocol::ObjcProtocol;
use records::row::Row;

// I: the image info, and the reading of the listing.
#[derive(Clone, Copy)]
pub struct InfoLine {
    pub info: ImageInfo,
    pub reading: Reading,
}

// C or M, by `class.is_meta`: a class or metaclass, and its superclass's name.
#[derive(Clone, Copy)]
pub struct ClassLine {
    pub class: ObjcClass,
    pub superclass_name: Option<Text>,
}

// K: a category, and its host class's name.
#[derive(Clone, Copy)]
pub struct CategoryLine {
    pub category: ObjcCategory,
    pub class_name: Option<Text>,
}

// m, v or p: a row of the record's list of that number; and the mark of a method, which crate `marking` sets: `Unmarked` before that, and of v and p.
#[derive(Clone, Copy)]
pub struct RowLine {
    pub list: u16,
    pub row: Row,
    pub mark: Mark,
}

// q: a protocol name of the record's list of that number.
#[derive(Clone, Copy)]
pub struct NameLine {
    pub list: u16,
    pub name: Text,
}

// E: records (lines C, M, P and K), and entries settled.
#[derive(Clone, Copy)]
pub struct EndLine {
    pub records: u64,
    pub settled: u128,
}

#[derive(Clone, Copy)]
pub enum Line {
    Info(InfoLine),
    Class(ClassLine),
    Ro(ClassRo),
    Protocol(ObjcProtocol),
    Category(CategoryLine),
    Row(RowLine),
    Name(NameLine),
    End(EndLine),
}
