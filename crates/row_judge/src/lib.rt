// Announced pairs judged: which of them other entries keep, and which are good.
#![tactic(auto)]

pub mod held; // held.rt: which announced pairs other entries keep
pub mod judge; // judge.rt: which announced pairs are good
