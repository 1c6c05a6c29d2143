//! Names of the system's files, and what they lead to.

ghost use Rattle.std.specs.Prelude.{◌≡◌};

use crate::FileKind;
use crate::open::has_exactly;
use std::alloc::Global;
use std::fs::{self, File, FileType, Metadata, OpenFile, OpenOptions, Permissions};
use std::io::{self, ErrorKind};
use std::os::unix::fs::{MetadataExt, OpenOptionsExt, PermissionsExt, lchown};
use std::rt::Files;

/// The mode of a file that is nobody else's as long as it hasn't got another one.
const OWN_MODE: u32 = 0o600;

/// The mode of a new file, from which the system takes what the caller doesn't allow.
const NEW_MODE: u32 = 0o666;

/// The bits of a mode that say who may read, write and run a file.
const ACCESS: u32 = 0o777;

/// Those, and the bits that lend the rights of the owner or the group to who runs the file.
const ALL_BITS: u32 = 0o7777;

/// The folder that a name is in.
pub fn folder_of(name: &str) -> &str {
    match name.rsplit_once('/') {
        Some(("", _)) => "/",
        Some((folder, _)) => folder,
        None => ".",
    }
}

/// True where an error says that nothing has the name.
fn says_missing(error: &io::Error) -> bool {
    matches!(error.kind(), ErrorKind::NotFound | ErrorKind::NotADirectory)
}

/// What the name leads to, with links followed. None where nothing has the name, or a link leads nowhere.
fn target_of<R: Files>(rt: &R, name: &str) -> io::Result<Option<Metadata>> {
    match fs::metadata(rt, name) {
        Ok(target) => Ok(Some(target)),
        Err(error) if says_missing(&error) => Ok(None),
        Err(error) => Err(error),
    }
}

/// True where a link has the name.
fn is_link<R: Files>(rt: &R, name: &str) -> io::Result<bool> {
    match fs::symlink_metadata(rt, name) {
        Ok(own) => Ok(own.is_symlink()),
        Err(error) if says_missing(&error) => Ok(false),
        Err(error) => Err(error),
    }
}

/// What the name leads to. A link that leads nowhere, or round in a circle, is no file.
pub fn kind_of<R: Files>(rt: &R, name: &str) -> io::Result<FileKind> {
    match target_of(rt, name) {
        Ok(Some(target)) if !target.is_file() => Ok(FileKind::Other),
        Ok(Some(target)) if target.nlink() > 1 => Ok(FileKind::Shared),
        Ok(Some(_)) => Ok(FileKind::Regular),
        Ok(None) if is_link(rt, name)? => Ok(FileKind::Other),
        Ok(None) => Ok(FileKind::Missing),
        Err(error) if error.kind() == ErrorKind::FilesystemLoop => Ok(FileKind::Other),
        Err(error) => Err(error),
    }
}

/// The name of the file that a link leads to, with all links followed, or the name itself where it is no link.
pub fn real_name<R: Files>(rt: &R, alloc: Global, name: &str) -> io::Result<String> {
    if is_link(rt, name)? {
        return Ok(rt.canonicalize(alloc, name)?.into_string());
    }
    match String::from_str(alloc, name) {
        Ok(own) => Ok(own),
        Err(_) => Err(io::Error::from(ErrorKind::OutOfMemory)),
    }
}

/// True where both names lead to one file.
pub fn is_one_file<R: Files>(rt: &R, one: &str, other: &str) -> io::Result<bool> {
    let Some(one) = target_of(rt, one)? else {
        return Ok(false);
    };
    let Some(other) = target_of(rt, other)? else {
        return Ok(false);
    };
    Ok(one.dev() == other.dev() && one.ino() == other.ino())
}

/// True where the regular file with this name has exactly these bytes, or is missing where there are none. What is no regular
/// file isn't opened, so that no pipe is waited for.
pub fn is_still<R: Files>(rt: &R, name: &str, bytes: &Option<Vec<u8>>) -> io::Result<bool> {
    match kind_of(rt, name)? {
        FileKind::Missing => Ok(bytes.is_none()),
        FileKind::Regular | FileKind::Shared => match bytes {
            Some(bytes) => has_bytes(rt, name, bytes),
            None => Ok(false),
        },
        FileKind::Other => Err(io::Error::from(ErrorKind::InvalidInput)),
    }
}

/// True where the regular file with this name has exactly these bytes.
fn has_bytes<R: Files>(rt: &R, name: &str, bytes: &[u8]) -> io::Result<bool> {
    let mut file = File::open(rt, name)?;
    if !file.metadata()?.is_file() {
        return Err(io::Error::from(ErrorKind::InvalidInput));
    }
    has_exactly(&mut file, bytes)
}

/// Makes an empty file with the mode of the file with the name `like`, if there is one, and gives it, opened to be written.
/// None where something has the name. Nobody may read it who may not read that other file.
pub fn make<R: Files>(rt: &R, name: &str, like: &str) -> io::Result<Option<R::File>> {
    let model = target_of(rt, like)?;
    let mode = match &model {
        Some(_) => OWN_MODE,
        None => NEW_MODE,
    };
    match OpenOptions::new()
        .write(true)
        .create_new(true)
        .mode(mode)
        .open(rt, name)
    {
        Ok(file) => match give_rights(rt, name, &file, &model) {
            Ok(()) => Ok(Some(file)),
            Err(error) => {
                let _ = fs::remove_file(rt, name);
                Err(error)
            }
        },
        Err(error) if error.kind() == ErrorKind::AlreadyExists => Ok(None),
        Err(error) => Err(error),
    }
}

/// Gives a new file the group, the owner and the mode of another one. Where it can't have the first two, its rights aren't
/// lent to who runs it.
fn give_rights<R: Files>(
    rt: &R,
    name: &str,
    file: &R::File,
    model: &Option<Metadata>,
) -> io::Result<()> {
    let Some(model) = model else {
        return Ok(());
    };
    if !model.is_file() {
        return Err(io::Error::from(ErrorKind::InvalidInput));
    }
    let own = file.metadata()?;
    if own.gid() != model.gid() {
        let _ = lchown(rt, name, None, Some(model.gid()));
    }
    if own.uid() != model.uid() {
        let _ = lchown(rt, name, Some(model.uid()), None);
    }
    let own = file.metadata()?;
    let is_alike = own.gid() == model.gid() && own.uid() == model.uid();
    let bits = if is_alike { ALL_BITS } else { ACCESS };
    file.set_permissions(Permissions::from_mode(model.mode() & bits))
}
