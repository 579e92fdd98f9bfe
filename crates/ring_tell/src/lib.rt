// What the entries of a ring have the box say: ASKs, INVALID and NEW, and the SET of a renumbering.
#![tactic(auto)]

pub mod asks; // asks.rt: the ASKs
pub mod changes; // changes.rt: INVALID and NEW
pub mod told; // told.rt: what is told of changed entries, and the SET
