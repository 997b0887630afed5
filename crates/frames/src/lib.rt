// Crash frames known within a range (note 11): which methods a frame can lie in, and which it must.
#![tactic(auto)]

pub mod frames;
