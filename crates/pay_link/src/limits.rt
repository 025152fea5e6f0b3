//! The limits of this crate. The limit of members is in `pay_frame`.

use pay_frame::{HEAD_LEN, TAG_LEN};

/// The size of a WANT in bytes.
pub const WANT_LEN: usize = HEAD_LEN + TAG_LEN;

/// The greatest sum of all opening balances: 2^63 - 1.
pub const GREATEST_TOTAL: u64 = 9_223_372_036_854_775_807;
