// The ancestry of classes (note 9): the decoded classes above a class.
#![tactic(auto)]

pub mod asked;
pub mod class_chain;
pub mod class_list;
mod doubling;
mod following;
mod rebases;
