// The numbers of announced pairs: which number is free, and which pair is renumbered.
#![tactic(auto)]

pub mod free; // free.rt: the least free number of a block
pub mod renumber; // renumber.rt: which pair is renumbered to what
