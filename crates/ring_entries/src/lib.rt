// The entries of a ring: what holds of some entry, and what becomes of every entry.
#![tactic(auto)]

pub mod changes; // changes.rt: what becomes of every entry
pub mod claims; // claims.rt: who claims an address
pub mod limit; // limit.rt: who reaches the limit of bad announcements
pub mod outlook; // outlook.rt: what the entries leave open
pub mod verdict; // verdict.rt: what an announced address is
