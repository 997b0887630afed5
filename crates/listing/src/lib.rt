// The bundle that the program reads, and the listing of opened tables.
#![tactic(auto)]

pub mod absence;
pub mod at;
pub mod bundle;
pub mod line;
pub mod listing;
pub mod section;
