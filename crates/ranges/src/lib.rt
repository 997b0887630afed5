// Ranges of the bytes of an image's files: the ranges that some reads make together, ascending and merged (document 02, note 13).
#![tactic(auto)]

pub mod answer;
pub mod sheet;
pub mod sweep;
