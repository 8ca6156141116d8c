// Document 01's edge readings, over the definitions that the exported calls promise. This crate has no code of its own.
#![tactic(auto)]
