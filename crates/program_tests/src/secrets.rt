//! The secret in a file, the messages if there is none, and those of files, folders and ports that can't be used.
use fb_program::{
    refuse_both, refuse_file, refuse_folder, refuse_port, refuse_secret_file, tell_secret_file,
};
use fb_secret::{NoSecret, is_private, refuse_open_file, refuse_secret, secret_in};
use std::io;
use std::test::Fail;

const EMPTY: Result<usize, NoSecret> = Err(NoSecret::Empty);

const TOO_SHORT: Result<usize, NoSecret> = Err(NoSecret::TooShort);

const TOO_LONG: Result<usize, NoSecret> = Err(NoSecret::TooLong);

// Files of this number of letters and a rest, and the length of the secret, or why there is none. A CR is a byte of it.
const FILES: &[(usize, &str, Result<usize, NoSecret>); 19] = &[
    (0, "", EMPTY),
    (0, "\n", EMPTY),
    (0, "\nsecret\n", EMPTY),
    (1, "", TOO_SHORT),
    (0, "\r\n", TOO_SHORT),
    (14, "\r\n", TOO_SHORT),
    (15, "\nanother\n", TOO_SHORT),
    (16, "", Ok(16)),
    (16, "\n", Ok(16)),
    (16, "\nanother\n", Ok(16)),
    (16, "\r\n", Ok(17)),
    (16, "\ranother\r", Ok(25)),
    (4_095, "\n", Ok(4_095)),
    (4_096, "", Ok(4_096)),
    (4_096, "\n", Ok(4_096)),
    (4_095, "\r\n", Ok(4_096)),
    (4_096, "\r\n", TOO_LONG),
    (4_097, "", TOO_LONG),
    (10_000, "\n", TOO_LONG),
];

#[test]
fn the_first_line_of_a_file(rt: HostRuntime) -> Result<(), Fail> {
    for (letters, rest, wanted) in FILES {
        let mut bytes = vec![in rt.alloc(); b's'; *letters]?;
        bytes.extend_from_slice(rest.as_bytes())?;
        let is_right = match secret_in(&bytes) {
            Ok(line) => *wanted == Ok(line.len()) && bytes.starts_with(line),
            Err(reason) => *wanted == Err(reason),
        };
        assert!(rt; is_right, "{letters} letters and {rest:?}");
    }
    Ok(())
}

#[test]
fn files_that_others_can_read(rt: HostRuntime) {
    for mode in [0o100_600, 0o100_400, 0o100_640, 0o660] {
        assert!(rt; is_private(mode), "{mode}");
    }
    for mode in [0o100_644, 0o604, 0o602, 0o601, 0o777] {
        assert!(rt; !is_private(mode), "{mode}");
    }
}

#[test]
fn a_file_without_a_secret(rt: HostRuntime) {
    let mut errors = Vec::new(rt.alloc());
    let empty = refuse_secret("a/b", NoSecret::Empty, &mut errors);
    let too_short = refuse_secret("a", NoSecret::TooShort, &mut errors);
    let too_long = refuse_secret("c", NoSecret::TooLong, &mut errors);
    let open = refuse_open_file("d", &mut errors);
    let said = "bench61499: no secret in a/b: its first line is empty\n\
        bench61499: no secret in a: its first line has fewer than 16 bytes\n\
        bench61499: no secret in c: its first line has more than 4096 bytes\n\
        bench61499: other users of this machine can read or write the secret in d; chmod 600 keeps it from them\n";
    assert!(rt; empty == 1 && too_short == 1 && too_long == 1 && open == 1);
    assert!(rt; errors.as_slice() == said.as_bytes());
}

#[test]
fn where_secrets_are(rt: HostRuntime) {
    let mut errors = Vec::new(rt.alloc());
    let denied = io::Error::from(io::ErrorKind::PermissionDenied);
    tell_secret_file("a/6149.secret", &mut errors);
    let both = refuse_both(&mut errors);
    let folder = refuse_folder(&mut errors);
    let file = refuse_secret_file("a/6149.secret", &denied, &mut errors);
    let said = "bench61499: the secret is in a/6149.secret\n\
        bench61499: --open and --secret exclude each other\n\
        bench61499: no folder for a secret: neither XDG_RUNTIME_DIR nor HOME is set; name a file with --secret, or give --open\n\
        bench61499: cannot put a secret into a/6149.secret: permission denied; name a file with --secret, or give --open\n";
    assert!(rt; both == 2 && folder == 1 && file == 1);
    assert!(rt; errors.as_slice() == said.as_bytes());
}

#[test]
fn what_cannot_be_opened(rt: HostRuntime) {
    let mut errors = Vec::new(rt.alloc());
    let absent = io::Error::from(io::ErrorKind::NotFound);
    let taken = io::Error::from(io::ErrorKind::AddrInUse);
    let file = refuse_file("a/b", &absent, &mut errors);
    let port = refuse_port(61499, &taken, &mut errors);
    let said = "bench61499: cannot read a/b: entity not found\n\
        bench61499: cannot listen on 127.0.0.1:61499: address in use\n";
    assert!(rt; file == 1 && port == 1 && errors.as_slice() == said.as_bytes());
}
