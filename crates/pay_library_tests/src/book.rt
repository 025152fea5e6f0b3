//! Both books over lists held in memory, which are drawn.

mod both;
mod drawn;
mod draws;
mod ledger;
mod lists;
