//! Authentication tags: HMAC (RFC 2104) with SHA-256.
//!
//! `specs/Mac.antt` defines a tag. Callers that tag and check frames are generic over [`Tagger`],
//! and its one clause says that the answer is that tag. [`HmacSha256`] hashes the key at each call.
//! [`PreparedHmac`] keeps the pads of some keys hashed.
//!
//! Nothing here compares tags, and no comparison in constant time is promised.
//!
//! ```
//! let tag = HmacSha256.tag(&key, head, value);
//! assert_eq!(tag, mac(&key, &joined));
//! ```
#![tactic(auto)]

pub use hmac::{HmacSha256, PreparedHmac, PreparedKey, Tagger, mac};

mod hmac;
pub mod laws;
