// The listing of a Mach-O file as text, handed out piece by piece (document 02, note 3).
#![tactic(auto)]

pub mod file;
