//! Lines of text: their words and numbers, a cutter that splits arriving text into lines, and the
//! loop that answers each line.
//!
//! [`Words`] takes a line apart, [`push_word`] and [`push_number`] make one, and [`run_lines`] has
//! an [`Answerer`] answer the lines of an input.
//!
//! ```
//! let mut words = Words::new(b"BALANCE 2");
//! assert_eq!(words.next_word(), Some(b"BALANCE"));
//! assert_eq!(words.next_number(), Some(2));
//! assert!(words.is_done());
//! ```
#![tactic(auto)]

mod cutter;
mod engine;
mod laws;
mod words;

pub use cutter::LineCutter;
pub use engine::{Answer, Answerer, Text, run_lines};
pub use laws::{a_word_is_one_number, lines_come_in_order, words_are_joined};
pub use words::{Pairs, Words, number, push_number, push_word, read_pairs};
