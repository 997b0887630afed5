// Which method gets called: the effective methods of a class, with those of its categories (document 02, note 10).
#![tactic(auto)]

pub mod asks;
pub mod effective;
pub mod rows;
pub mod selectors;
pub mod slots;
pub mod sources;
pub mod table;
