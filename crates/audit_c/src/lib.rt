//! The checks of the store for programs in C: an archive whose exports are named `audit_store_*`.
#![tactic(auto)]

mod answers;
mod commitment;
mod feeding;
mod given_event;
mod holding;
mod judging;
mod opening;
mod proof_views;
mod proofs;
mod replies;
mod reply;
mod requests;
mod resuming;
mod verifier;
mod words;
