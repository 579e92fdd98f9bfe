// The library that others link: the proved functions under C names, with numbers in place of enums.
#![tactic(auto)]

mod compare;
mod ring;
mod telegrams;
mod unit;
