//! What the program prints of files, folders and ports that it can't use.
ghost use Rattle.std.specs.Prelude.{◌≡◌};

use std::io::{self, Write};

/// Prints why the file can't be read, and gives the status of the program.
pub fn refuse_file<E: Write>(path: &str, error: &io::Error, errors: &mut E) -> u8
    ensures { result ≡ 1 }
{
    let _ = writeln!(errors, "bench61499: cannot read {path}: {error}");
    1
}

/// Prints why the port of 127.0.0.1 can't be listened on, and gives the status of the program.
pub fn refuse_port<E: Write>(port: u16, error: &io::Error, errors: &mut E) -> u8
    ensures { result ≡ 1 }
{
    let _ = writeln!(
        errors,
        "bench61499: cannot listen on 127.0.0.1:{port}: {error}"
    );
    1
}

/// Prints that the words name a secret and ask for none, and gives the status of the program.
pub fn refuse_both<E: Write>(errors: &mut E) -> u8
    ensures { result ≡ 2 }
{
    let _ = writeln!(errors, "bench61499: --open and --secret exclude each other");
    2
}

/// Prints that the user has no folder for secrets, and gives the status of the program.
pub fn refuse_folder<E: Write>(errors: &mut E) -> u8
    ensures { result ≡ 1 }
{
    let _ = writeln!(
        errors,
        "bench61499: no folder for a secret: neither XDG_RUNTIME_DIR nor HOME is set; name a file with --secret, or give --open"
    );
    1
}

/// Prints why the secret can't be put into the file, and gives the status of the program.
pub fn refuse_secret_file<E: Write>(path: &str, error: &io::Error, errors: &mut E) -> u8
    ensures { result ≡ 1 }
{
    let _ = writeln!(
        errors,
        "bench61499: cannot put a secret into {path}: {error}; name a file with --secret, or give --open"
    );
    1
}

/// Prints in which file the secret is.
pub fn tell_secret_file<E: Write>(path: &str, errors: &mut E) {
    let _ = writeln!(errors, "bench61499: the secret is in {path}");
}
