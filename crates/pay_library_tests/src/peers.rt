//! Peers' streams: whose a connection is, how a node is fed, and two workers of whom neither waits
//! for the other.

mod admissions;
mod feeding;
mod overlap;
mod rows;
mod told;
