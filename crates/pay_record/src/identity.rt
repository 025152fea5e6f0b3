//! The identity of a log: its key, and its header.

ghost use Rattle.std.specs.Prelude.{◌≡◌, ◌<◌, IfOk, length};
ghost use Rattle.std.specs.List.{range_with_len, flat_map};
ghost use Rattle.pay_record.specs.Identity.{all_keys, genesis_bytes, header_of, log_key_of};
ghost use Rattle.pay_record.specs.Identity.{shared_key};

use pay_hmac::mac;
use pay_link::{Genesis, Keys};
use pay_log::Header;
use sha2::{Digest, Sha256};
use std::alloc::{AllocError, Global};

/// The text that the key of a log is computed from.
const KEY_TEXT: &[u8] = b"payd log 1";

/// The text that a header's fingerprint of the keys is computed from.
const FINGERPRINT_TEXT: &[u8] = b"payd log keys 4";

/// Returns the key of the log of the member with these `keys`. Nobody else can compute it, since it
/// depends on all keys of the member.
pub fn log_key(alloc: Global, keys: &Keys) -> Result<[u8; 32], AllocError>
    ensures { IfOk result (λ key. key ≡ log_key_of keys.now) }
{
    let all = all_keys(alloc, keys)?;
    Ok(mac(&all, KEY_TEXT))
}

/// Returns the header of the log of the member of `genesis` with these `keys`.
pub fn log_header(alloc: Global, genesis: &Genesis, keys: &Keys) -> Result<Header, AllocError>
    ensures { IfOk result (λ header. header ≡ header_of genesis.now keys.now) }
{
    let bytes = genesis_bytes(alloc, genesis)?;
    let key = log_key(alloc, keys)?;
    Ok(Header {
        genesis: Sha256::digest(bytes.as_slice()),
        member: keys.own(),
        keys: mac(&key, FINGERPRINT_TEXT),
    })
}

// Returns the keys that the member shares with each member, in their order.
fn all_keys(alloc: Global, keys: &Keys) -> Result<Vec<u8>, AllocError>
    ensures { IfOk result (λ bytes. bytes.items ≡ all_keys keys.now) }
{
    let mut bytes = Vec::new(alloc);
    for member in 0..keys.members() {
        bytes.extend_from_slice(&shared_key(keys, member))?;
    }
    Ok(bytes)
}

// Returns the key that a member shares with `member`, and zeros for itself.
fn shared_key(keys: &Keys, member: u16) -> [u8; 32]
    requires { member < length keys.now.keys }
    ensures { result ≡ shared_key keys.now member }
{
    if member == keys.own() {
        [0; 32]
    } else {
        *keys.key(member)
    }
}

// Returns the members, the faults, and what each account opens with, as bytes.
fn genesis_bytes(alloc: Global, genesis: &Genesis) -> Result<Vec<u8>, AllocError>
    ensures { IfOk result (λ bytes. bytes.items ≡ genesis_bytes genesis.now) }
{
    let mut bytes = Vec::new(alloc);
    bytes.extend_from_slice(&genesis.members().to_be_bytes())?;
    bytes.extend_from_slice(&genesis.faults().to_be_bytes())?;
    for account in 0..genesis.members() {
        bytes.extend_from_slice(&genesis.opening(account).to_be_bytes())?;
    }
    Ok(bytes)
}
