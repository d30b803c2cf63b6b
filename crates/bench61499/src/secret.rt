//! The secret of a host: read from a file that is named, or made and put into one.

use fb_program::{
    HostSettings, refuse_both, refuse_file, refuse_folder, refuse_secret_file, tell_secret_file,
};
use fb_secret::{is_private, refuse_open_file, refuse_secret, secret_in};
use std::alloc::AllocError;
use std::env::VarError;
use std::fs::{DirBuilder, File, OpenOptions};
use std::io::{ErrorKind, Read, Write};
use std::os::unix::fs::{DirBuilderExt, MetadataExt, OpenOptionsExt};
use std::{env, fs, io};

/// The system's randomness.
pub(crate) const RANDOMNESS: &str = "/dev/urandom";

/// The rights of a folder and of a file that are their owner's alone.
const OWN_FOLDER: u32 = 0o700;

const OWN_FILE: u32 = 0o600;

/// The status of the program if memory runs out before it has begun.
const NO_MEMORY: u8 = 1;

/// Random bytes.
pub(crate) fn draw(rt: &HostRuntime) -> io::Result<[u8; 32]> {
    let mut bytes = [0; 32];
    let mut source = File::open(rt, RANDOMNESS)?;
    source.read_exact(&mut bytes)?;
    Ok(bytes)
}

/// A variable of the environment, if it is set and not empty.
fn variable(rt: &HostRuntime, name: &str) -> Result<Option<String>, AllocError> {
    match env::var(rt, name) {
        Ok(value) => Ok((!value.is_empty()).then_some(value)),
        Err(VarError::OutOfMemory) => Err(AllocError),
        Err(_) => Ok(None),
    }
}

/// The folder in which hosts of this user put their secrets, where clients look for them. None if the user has none.
fn folder(rt: &HostRuntime) -> Result<Option<String>, AllocError> {
    let alloc = rt.alloc();
    if let Some(runtime) = variable(rt, "XDG_RUNTIME_DIR")? {
        return Ok(Some(format!(in alloc; "{runtime}/bench61499")?));
    }
    match variable(rt, "HOME")? {
        Some(home) => Ok(Some(format!(in alloc; "{home}/.cache/bench61499")?)),
        None => Ok(None),
    }
}

/// Removes a file, if it is there.
fn remove(rt: &HostRuntime, path: &str) -> io::Result<()> {
    match fs::remove_file(rt, path) {
        Err(error) if error.kind() != ErrorKind::NotFound => Err(error),
        _ => Ok(()),
    }
}

/// Puts a new secret into a new file.
fn write_secret(rt: &HostRuntime, folder: &str, path: &str) -> io::Result<String> {
    let mut builder = DirBuilder::new();
    builder.recursive(true).mode(OWN_FOLDER);
    builder.create(rt, folder)?;
    remove(rt, path)?;
    let secret = hex::encode(rt.alloc(), draw(rt)?)?;
    let mut options = OpenOptions::new();
    options.write(true).create_new(true).mode(OWN_FILE);
    let mut file = options.open(rt, path)?;
    file.write_all(secret.as_bytes())?;
    file.write_all(b"\n")?;
    Ok(secret)
}

/// The bytes of a file, and its mode.
fn read_file(rt: &HostRuntime, path: &str) -> io::Result<(Vec<u8>, u32)> {
    let mut file = File::open(rt, path)?;
    let mode = file.metadata()?.mode();
    let mut bytes = Vec::new(rt.alloc());
    file.read_to_end(&mut bytes)?;
    Ok((bytes, mode))
}

/// The secret in a file. If it has none, or others can read it, this says so, and gives the status of the program.
fn read_secret<E: Write>(rt: &HostRuntime, path: &str, errors: &mut E) -> Result<Vec<u8>, u8> {
    let (mut bytes, mode) = match read_file(rt, path) {
        Ok(read) => read,
        Err(error) => return Err(refuse_file(path, &error, errors)),
    };
    if !is_private(mode) {
        return Err(refuse_open_file(path, errors));
    }
    let length = match secret_in(&bytes) {
        Ok(line) => line.len(),
        Err(reason) => return Err(refuse_secret(path, reason, errors)),
    };
    bytes.truncate(length);
    Ok(bytes)
}

/// The secret that the words ask for, or no bytes if they ask for none. None if they do neither, and the host has to make one.
pub(crate) fn wanted_secret<E: Write>(
    rt: &HostRuntime,
    settings: &HostSettings<'_>,
    errors: &mut E,
) -> Result<Option<Vec<u8>>, u8> {
    match (settings.secret, settings.is_open) {
        (Some(_), true) => Err(refuse_both(errors)),
        (Some(path), false) => Ok(Some(read_secret(rt, path, errors)?)),
        (None, true) => Ok(Some(Vec::new(rt.alloc()))),
        (None, false) => Ok(None),
    }
}

/// The secret of a host, or no bytes if it has none, and the file that it is in if the host has made it.
#[derive(Drop)]
pub(crate) struct HostSecret {
    pub(crate) bytes: Vec<u8>,
    file: Option<String>,
}

impl HostSecret {
    /// The secret that is wanted, or a new one. A file that an earlier host at this port has left is removed.
    pub(crate) fn at<E: Write>(
        rt: &HostRuntime,
        port: u16,
        wanted: Option<Vec<u8>>,
        errors: &mut E,
    ) -> Result<HostSecret, u8> {
        let Ok(folder) = folder(rt) else {
            return Err(NO_MEMORY);
        };
        let Some(folder) = folder else {
            let Some(bytes) = wanted else {
                return Err(refuse_folder(errors));
            };
            return Ok(HostSecret { bytes, file: None });
        };
        let Ok(file) = format!(in rt.alloc(); "{folder}/{port}.secret") else {
            return Err(NO_MEMORY);
        };
        if let Some(bytes) = wanted {
            let _ = remove(rt, &file);
            return Ok(HostSecret { bytes, file: None });
        }
        match write_secret(rt, &folder, &file) {
            Ok(secret) => {
                tell_secret_file(&file, errors);
                Ok(HostSecret {
                    bytes: secret.into_bytes(),
                    file: Some(file),
                })
            }
            Err(error) => Err(refuse_secret_file(&file, &error, errors)),
        }
    }

    /// Removes the file that was made.
    pub(crate) fn forget(&self, rt: &HostRuntime) {
        if let Some(file) = &self.file {
            let _ = remove(rt, file);
        }
    }
}
