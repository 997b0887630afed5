// The ranges of the bytes that a listing uses (document 02, note 13): its reads noted on a sheet, record by record and row by row.
#![tactic(auto)]

mod category;
mod class;
mod class_name;
mod fields;
mod leaf;
mod list;
mod names;
pub mod noting;
mod pass;
mod protocol;
mod protocol_name;
mod row;
mod rows;
pub mod used_ranges;
