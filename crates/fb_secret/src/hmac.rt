//! Codes that only those can compute who have the key.
ghost use Rattle.std.specs.Prelude.{◌≡◌, ◌↔◌, IsTrue, bit_xor, map};
ghost use Rattle.fb_secret.specs.Hmac.{hmac_sha256, padded_key};

use sha2::{Digest, Sha256};

/// Bytes of a block of SHA-256.
const BLOCK_SIZE: usize = 64;

/// Bytes of a digest of SHA-256.
const DIGEST_SIZE: usize = 32;

const INNER_PAD: u8 = 0x36;

const OUTER_PAD: u8 = 0x5c;

/// The key as a block: its digest if it is longer than that, followed by zeros.
fn key_block(key: &[u8]) -> [u8; BLOCK_SIZE]
    ensures { result ≡ padded_key key.now }
{
    let mut block = [0; BLOCK_SIZE];
    if BLOCK_SIZE < key.len() {
        let digest = Sha256::digest(key);
        block[..DIGEST_SIZE].copy_from_slice(&digest);
    } else {
        block[..key.len()].copy_from_slice(key);
    }
    block
}

/// The block, each byte with this pad.
fn with_pad(block: [u8; BLOCK_SIZE], pad: u8) -> [u8; BLOCK_SIZE]
    ensures { result ≡ map (λ byte. bit_xor byte pad) block }
{
    let mut padded = block;
    for byte in padded.iter_mut() {
        *byte ^= pad;
    }
    padded
}

#[tactic(auto, unfolding(crate::specs::Hmac::hmac_sha256))]
/// HMAC (RFC 2104) of a message, with SHA-256 (FIPS 180-4) as its hash function.
pub fn hmac_sha256(key: &[u8], message: &[u8]) -> [u8; 32]
    ensures { result ≡ hmac_sha256 key.now message.now }
{
    let block = key_block(key);
    let mut inner = Sha256::new();
    inner.update(with_pad(block, INNER_PAD));
    inner.update(message);
    let mut outer = Sha256::new();
    outer.update(with_pad(block, OUTER_PAD));
    outer.update(inner.finalize());
    outer.finalize()
}

/// Whether the bytes are those that are wanted. How long it takes depends only on how many there are.
pub fn is_same(bytes: &[u8], wanted: &[u8]) -> bool
    ensures { IsTrue result ↔ (bytes.now ≡ wanted.now) }
{
    let mut same = bytes.len() == wanted.len();
    for place in 0..bytes.len() {
        let byte = wanted.get(place).copied().unwrap_or(0);
        same &= bytes[place] == byte;
    }
    same
}
