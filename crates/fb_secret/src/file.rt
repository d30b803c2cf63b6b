//! Files of secrets.
ghost use Rattle.std.specs.Prelude.{◌≡◌, ◌≤◌, ◌↔◌, IfErr, IfOk, IsTrue, bit_and, length, take};
ghost use Rattle.std.specs.List.{position, position_or_len};
ghost use Rattle.fb_secret.specs.File.{IsNoSecret, first_line, is_line_end};

use std::io::Write;

/// How many bytes a secret has at least: who has listened to a proof can try secrets against it for as long as they like.
const LEAST_SECRET: usize = 16;

/// How many bytes a secret may have.
const MOST_SECRET: usize = 4_096;

/// The rights of those who are neither the owner of a file nor in its group.
const OTHERS: u32 = 0o007;

/// Why the first line of a file is no secret.
#[derive(Clone, Copy, Debug, PartialEq, Eq)]
pub enum NoSecret {
    Empty,
    TooShort,
    TooLong,
}

/// Where the first line ends, if there is an LF.
fn line_end(bytes: &[u8]) -> Option<usize>
    ensures { result ≡ position is_line_end bytes.now }
{
    bytes.iter().position(|byte| *byte == b'\n')
}

/// How many bytes the first line has.
fn line_length(bytes: &[u8]) -> usize
    ensures length { result ≡ position_or_len is_line_end bytes.now }
    ensures within { result ≤ length bytes.now }
{
    line_end(bytes).unwrap_or(bytes.len())
}

/// The first line of a file, if it has 16 to 4,096 bytes.
pub fn secret_in(bytes: &[u8]) -> Result<&[u8], NoSecret>
    ensures line { IfOk result (λ line. line.now ≡ first_line bytes.now) }
    ensures prefix { IfOk result (λ line. line.now ≡ take (length line.now) bytes.now) }
    ensures enough { IfOk result (λ line. 16 ≤ length line.now) }
    ensures few { IfOk result (λ line. length line.now ≤ 4096) }
    ensures refused { IfErr result (IsNoSecret (first_line bytes.now)) }
{
    let end = line_length(bytes);
    if end == 0 {
        return Err(NoSecret::Empty);
    }
    if end < LEAST_SECRET {
        return Err(NoSecret::TooShort);
    }
    if MOST_SECRET < end {
        return Err(NoSecret::TooLong);
    }
    Ok(&bytes[..end])
}

/// Whether a file of this mode is kept from all but its owner and its group.
pub fn is_private(mode: u32) -> bool
    ensures { IsTrue result ↔ (bit_and mode 7 ≡ 0) }
{
    mode & OTHERS == 0
}

/// Prints why the file has no secret, and gives the status of the program.
pub fn refuse_secret<E: Write>(path: &str, reason: NoSecret, errors: &mut E) -> u8
    ensures { result ≡ 1 }
{
    let reason = match reason {
        NoSecret::Empty => "is empty",
        NoSecret::TooShort => "has fewer than 16 bytes",
        NoSecret::TooLong => "has more than 4096 bytes",
    };
    let _ = writeln!(
        errors,
        "bench61499: no secret in {path}: its first line {reason}"
    );
    1
}

/// Prints that others can read the secret in the file, and gives the status of the program.
pub fn refuse_open_file<E: Write>(path: &str, errors: &mut E) -> u8
    ensures { result ≡ 1 }
{
    let _ = writeln!(
        errors,
        "bench61499: other users of this machine can read or write the secret in {path}; chmod 600 keeps it from them"
    );
    1
}
