//! Tests of the libraries: the plain forms beside those that the program runs, and the calls that
//! it doesn't make; and of a member's log over a disk that fails, and below a running node; and of
//! four nodes in one process. Each gives what was worked out by hand or by another program.
#![tactic(auto)]

#[cfg(test)]
mod book;
#[cfg(test)]
mod cuts;
#[cfg(test)]
mod failing;
#[cfg(test)]
mod four;
#[cfg(test)]
mod kept;
#[cfg(test)]
mod logs;
#[cfg(test)]
mod members;
#[cfg(test)]
mod node;
#[cfg(test)]
mod peers;
#[cfg(test)]
mod runs;
#[cfg(test)]
mod streams;
#[cfg(test)]
mod tags;
