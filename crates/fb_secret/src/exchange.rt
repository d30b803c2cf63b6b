//! The three lines by which a host and its client prove to each other that they have one secret.
ghost use Rattle.std.specs.Prelude.{◌≡◌, ◌++◌, IfOk, MatchOption, codes, string_bytes};
ghost use Rattle.std.specs.Int.{to_be_bytes, w64};
ghost use Rattle.hex.specs.Hex.{encode_lower};
ghost use Rattle.fb_secret.specs.{Exchange.{IsAnswer, IsForeign, challenge_line, client_line, host_line, proof}, Hmac.{hmac_sha256}};

use crate::hmac::{hmac_sha256, is_same};
use std::alloc::{AllocError, Global};

/// Bytes of a challenge.
const CHALLENGE_SIZE: usize = 64;

/// Bytes of a line of a client, with its line feed.
const CLIENT_LINE_SIZE: usize = 156;

/// Where the client's own challenge ends in its line.
const CHALLENGE_END: usize = 153;

/// The challenge of a connection: 64 digits that only those can foresee who have the key. Each number gives another one.
pub fn challenge(alloc: Global, key: &[u8], number: u64) -> Result<String, AllocError>
    ensures { IfOk result (λ text.
        string_bytes text ≡ encode_lower (hmac_sha256 key.now (to_be_bytes w64 number))) }
{
    hex::encode(alloc, hmac_sha256(key, &number.to_be_bytes()))
}

/// The line that a host sends first.
pub fn challenge_line(alloc: Global, challenge: &[u8]) -> Result<Vec<u8>, AllocError>
    ensures { IfOk result (λ line. line.items ≡ challenge_line challenge.now) }
{
    let mut line = Vec::new(alloc);
    line.extend_from_slice(b"{\"challenge\":\"")?;
    line.extend_from_slice(challenge)?;
    line.extend_from_slice(b"\"}\n")?;
    Ok(line)
}

/// The proof of who has this role, in hexadecimal.
fn proof(
    alloc: Global,
    secret: &[u8],
    role: &[u8],
    host: &[u8],
    client: &[u8],
) -> Result<String, AllocError>
    ensures { IfOk result (λ text.
        string_bytes text ≡ proof secret.now (role.now ++ (host.now ++ client.now))) }
{
    let mut message = Vec::new(alloc);
    message.extend_from_slice(role)?;
    message.extend_from_slice(host)?;
    message.extend_from_slice(client)?;
    hex::encode(alloc, hmac_sha256(secret, &message))
}

/// The line by which a client proves that it has the secret, for the challenge of the host, with a challenge of its own.
pub fn client_line(
    alloc: Global,
    secret: &[u8],
    host: &[u8],
    client: &[u8],
) -> Result<Vec<u8>, AllocError>
    ensures { IfOk result (λ line. line.items ≡ client_line secret.now host.now client.now) }
{
    let proof = proof(alloc, secret, b"client", host, client)?;
    let mut line = Vec::new(alloc);
    line.extend_from_slice(b"{\"proof\":\"")?;
    line.extend_from_slice(proof.as_bytes())?;
    line.extend_from_slice(b"\",\"challenge\":\"")?;
    line.extend_from_slice(client)?;
    line.extend_from_slice(b"\"}\n")?;
    Ok(line)
}

/// The line by which a host proves that it has the secret, for the challenge of a client.
fn host_line(
    alloc: Global,
    secret: &[u8],
    host: &[u8],
    client: &[u8],
) -> Result<Vec<u8>, AllocError>
    ensures { IfOk result (λ line. line.items ≡ host_line secret.now host.now client.now) }
{
    let proof = proof(alloc, secret, b"host", host, client)?;
    let mut line = Vec::new(alloc);
    line.extend_from_slice(b"{\"proof\":\"")?;
    line.extend_from_slice(proof.as_bytes())?;
    line.extend_from_slice(b"\"}\n")?;
    Ok(line)
}

/// What the host answers to the first line of a client: its own proof, if the line proves that the client has the secret, for this challenge of the host.
pub fn host_answer(
    alloc: Global,
    secret: &[u8],
    host: &[u8],
    line: &[u8],
) -> Result<Option<Vec<u8>>, AllocError>
    ensures { IfOk result (λ answer.
        MatchOption answer (IsForeign secret.now host.now line.now)
        (λ bytes. IsAnswer secret.now host.now line.now bytes.items)) }
{
    if line.len() != CLIENT_LINE_SIZE {
        return Ok(None);
    }
    let client = &line[CHALLENGE_END - CHALLENGE_SIZE..CHALLENGE_END];
    let wanted = client_line(alloc, secret, host, client)?;
    if !is_same(line, &wanted) {
        return Ok(None);
    }
    let answer = host_line(alloc, secret, host, client)?;
    Ok(Some(answer))
}
