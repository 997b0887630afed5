// A listing's methods marked by crash frames known within a range (note 11).
#![tactic(auto)]

pub mod framed;
pub mod marked_listing;
pub mod marks;
