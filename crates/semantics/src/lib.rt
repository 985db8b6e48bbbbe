// What a source means: the writes that it makes and how it ends, defined on its typed tree.
#![tactic(auto)]

pub mod laws;
