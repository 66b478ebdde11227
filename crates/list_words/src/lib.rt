//! Words on plain lists: elements seen with their neighbours, sorting, ranges and parts. It has laws only, no program code.
#![tactic(auto)]

pub mod laws;
