// The central registry: the ring picture, and what each record makes of it.
#![tactic(auto)]

mod answer; // answer.rt: ANSWER and NONE
mod ending; // ending.rt: the ending of every event
pub mod image; // image.rt: the ring picture, made and shown
pub mod record; // record.rt: one record taken or refused
mod scan; // scan.rt: START, NCE, SHUTDOWN, DELAY and restarts
mod show; // show.rt: what a picture shows
