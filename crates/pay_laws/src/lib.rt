//! Laws that span crates: about members that start again, about what the rollback check of such a
//! member finds, and about what an auditor finds in the exports of correct members.
//!
//! A member that continues from a prefix of its history violates no protocol, if no correct member
//! received what it said beyond that. The crate has no calls; [`laws`] has the statements, and
//! restarts worked by hand.
#![tactic(auto)]

pub mod laws;
