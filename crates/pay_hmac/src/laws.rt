//! Laws of the definition of a tag. The functions do nothing: their contracts are the laws.

ghost use Rattle.std.specs.Prelude.{◌≡◌, ◌<◌, ℕ, List, length};
ghost use Rattle.pay_hmac.specs.Mac.{block_bytes, mac};
ghost use Rattle.pay_hmac.specs.PublishedTags.{case_2_key, case_2_tag, case_2_text, case_6_key};
ghost use Rattle.pay_hmac.specs.PublishedTags.{case_6_tag, case_6_text};
ghost use Rattle.sha2.specs.Sha256.{sha256};

/// States that the definition gives two of the tags that RFC 4231 publishes. One has a key shorter
/// than a block, the other a longer key.
// promise: tags
pub fn published_tags()
    ensures short_key { mac case_2_key case_2_text ≡ case_2_tag }
    ensures long_key { mac case_6_key case_6_text ≡ case_6_tag }
{}

/// States that a key longer than a block tags as its digest does.
// promise: tags
pub fn long_key()
    ensures { (key text : List ℕ) → block_bytes < length key
        → mac key text ≡ mac (sha256 key) text }
{}

/// States that every tag has 32 bytes.
// promise: tags
pub fn tag_length()
    ensures { (key text : List ℕ) → length (mac key text) ≡ 32 }
{}
