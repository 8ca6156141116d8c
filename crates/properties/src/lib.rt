// Laws about the events of the shared state, over the definitions that the code promises. This crate has no code of its own.
#![tactic(auto)]
