//! Nodes: calls from one seat, and seats that agree with a history or don't.

mod compares;
mod plays;
pub(crate) mod rows;
pub(crate) mod step;
pub(crate) mod trial;
