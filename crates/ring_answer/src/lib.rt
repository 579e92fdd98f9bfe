// An announcement: what the other entries say of it, and what it comes to.
#![tactic(auto)]

pub mod hear; // hear.rt: what an announcement comes to
pub mod survey; // survey.rt: what the other entries say of it
