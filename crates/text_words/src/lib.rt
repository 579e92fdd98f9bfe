// The text of a bench script: blanks, words, decimal and hexadecimal numbers.
#![tactic(auto)]

pub mod digits;
pub mod numbers;
pub mod words;
