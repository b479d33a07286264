ghost use Rattle.std.specs.Prelude.{◌++◌, IsErr, Contains, codes};

use crate::ready_names::{Held, ReadyNames};
use crate::seen::Seen;
use crate::stream::write_whole;
use std::fs::{Metadata, OpenFile, OpenOptions};
use std::io::{ErrorKind, Write};
use std::os::unix::fs::{MetadataExt, OpenOptionsExt, fchown};
use std::os::unix::io::AsFd;
use std::rt::Files;
use std::{fs, io};

/// The permission bit by which a file's owner may write it.
const OWNER_WRITES: u32 = 0o200;

/// The permission bits of a second file while it is written: nobody but its owner reads it.
const PRIVATE: u32 = 0o600;

/// Writes the bytes into a second file beside the file of the name, and moves it into that one's
/// place. The answer is how the new file was seen. After an error the old file stands, and a second
/// one that was begun is gone.
pub(crate) fn exchange<R: Files>(
    files: &R,
    ready: &ReadyNames,
    name: &str,
    bytes: &[u8],
) -> io::Result<Seen>
where
    R::File: AsFd,
    requires { Contains ready.now name.now }
    ensures spared { Contains ready.now (name.now ++ codes ".hare") → IsErr result }
{
    let held = ready.of(name);
    let beside = held.beside.as_str();
    if ready.has(beside) {
        return Err(io::Error::from(ErrorKind::AlreadyExists));
    }
    let old = as_seen(files, name, &held.seen)?;
    check_writable(files, name, &old)?;
    take_away(files, ready, beside)?;
    let second = create_private(files, beside)?;
    let moved = fill(second, &old, bytes).and_then(|new| move_over(files, held, name, new));
    if moved.is_err() {
        let _ = fs::remove_file(files, beside);
    }
    moved
}

/// What stands at the path, where that is a file, no link, and the one that was seen so.
fn as_seen<R: Files>(files: &R, path: &str, seen: &Seen) -> io::Result<Metadata> {
    let now = fs::symlink_metadata(files, path)?;
    if now.is_file() && Seen::of(&now) == *seen {
        Ok(now)
    } else {
        Err(io::Error::from(ErrorKind::InvalidInput))
    }
}

/// An error where the file could not be written in place.
fn check_writable<R: Files>(files: &R, path: &str, old: &Metadata) -> io::Result<()> {
    if old.mode() & OWNER_WRITES == 0 {
        return Err(io::Error::from(ErrorKind::PermissionDenied));
    }
    let _opened = OpenOptions::new().write(true).open(files, path)?;
    Ok(())
}

/// Removes what stands at the path, unless that is one of the files that were read.
fn take_away<R: Files>(files: &R, ready: &ReadyNames, path: &str) -> io::Result<()> {
    match fs::symlink_metadata(files, path) {
        Ok(there) if ready.has_file(&Seen::of(&there)) => {
            Err(io::Error::from(ErrorKind::AlreadyExists))
        }
        Ok(_) => fs::remove_file(files, path),
        Err(error) if error.kind() == ErrorKind::NotFound => Ok(()),
        Err(error) => Err(error),
    }
}

/// A new file at the path, where nothing stands.
fn create_private<R: Files>(files: &R, path: &str) -> io::Result<R::File> {
    OpenOptions::new()
        .write(true)
        .create_new(true)
        .mode(PRIVATE)
        .open(files, path)
}

/// Writes the bytes to the disk, under the owner, the group and the permissions of the old file.
fn fill<F: OpenFile + Write + AsFd + Drop>(
    mut second: F,
    old: &Metadata,
    bytes: &[u8],
) -> io::Result<Seen> {
    write_whole(&mut second, bytes).map_err(|_| io::Error::from(ErrorKind::WriteZero))?;
    let new = second.metadata()?;
    if new.uid() != old.uid() || new.gid() != old.gid() {
        fchown(&second, Some(old.uid()), Some(old.gid()))?;
    }
    second.set_permissions(old.permissions())?;
    second.sync_all()?;
    Ok(Seen::of(&second.metadata()?))
}

/// Moves the second file over the old one, where both are still as they were seen.
fn move_over<R: Files>(files: &R, held: &Held, name: &str, new: Seen) -> io::Result<Seen> {
    as_seen(files, held.beside.as_str(), &new)?;
    as_seen(files, name, &held.seen)?;
    fs::rename(files, held.beside.as_str(), name)?;
    Ok(new)
}
