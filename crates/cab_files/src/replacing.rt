//! The file of an archive, which is replaced as a whole: at each moment it has all its old bytes or all its new ones.
ghost use Rattle.std.specs.Prelude.{◌≡◌, ◌↔◌, IsTrue};
ghost use Rattle.std.specs.Fs.{metadata_len};
ghost use Rattle.std.specs.IoError.{error_kind};
ghost use Rattle.cabinet_text_grammar.specs.Tree.{Tree};
ghost use Rattle.cabinet_documents.specs.Accepted.{Accepted};
ghost use Rattle.cab_files.specs.Beside.{folder_of, IsIrreplaceable};

use crate::beside::Beside;
use std::fs::{File, Metadata, OpenOptions, TryLockError};
use std::io::{ErrorKind, Write};
use std::os::unix::fs::MetadataExt;
use std::path::Path;
use std::rt::Files;
use std::{fs, io};

/// What is at the path of an archive.
#[derive(Drop)]
enum Place {
    /// Nothing.
    Free,
    /// A regular file.
    File(Metadata),
    /// A link that leads to a regular file.
    Link(Metadata),
    /// A folder, a device, a pipe, or a link that leads to no regular file.
    Other,
}

/// Returns what is at a path.
fn place_at<R: Files>(rt: &R, path: &str) -> io::Result<Place> {
    let found = match fs::symlink_metadata(rt, path) {
        Ok(found) => found,
        Err(refusal) if refusal.kind() == ErrorKind::NotFound => return Ok(Place::Free),
        Err(refusal) => return Err(refusal),
    };
    if found.is_file() {
        return Ok(Place::File(found));
    }
    match fs::metadata(rt, path) {
        Ok(target) if found.is_symlink() && target.is_file() => Ok(Place::Link(target)),
        _ => Ok(Place::Other),
    }
}

/// Returns whether two metadata are of one file, which was not written between them.
fn is_same(one: &Metadata, other: &Metadata) -> bool
    ensures { IsTrue result → metadata_len one.now ≡ metadata_len other.now }
{
    one.len() == other.len()
        && one.mtime() == other.mtime()
        && one.mtime_nsec() == other.mtime_nsec()
        && one.ino() == other.ino()
        && one.dev() == other.dev()
}

/// Locks the open file at a path, and fails if another program has locked it, or if it is not the one that was read, as
/// it was then. On a file system that has no locks, only the files are compared.
fn lock_same<R: Files>(rt: &R, file: &File, path: &str, read: &Metadata) -> io::Result<()> {
    if let Err(TryLockError::WouldBlock) = file.try_lock() {
        return Err(io::Error::from(ErrorKind::WouldBlock));
    }
    if is_same(read, &fs::metadata(rt, path)?) {
        Ok(())
    } else {
        Err(io::Error::from(ErrorKind::Other))
    }
}

/// Renames a file over the one at a path, if that may be written, and is the one that was read where one was read.
fn rename_over<R: Files<File = File>>(
    rt: &R,
    beside: &str,
    path: &str,
    read: Option<&Metadata>,
) -> io::Result<()> {
    match (OpenOptions::new().write(true).open(rt, path), read) {
        (Ok(old), Some(read)) => {
            lock_same(rt, &old, path, read)?;
            // The lock is released as the old file is closed.
            fs::rename(rt, beside, path)
        }
        (Ok(_), None) => fs::rename(rt, beside, path),
        (Err(refusal), None) if refusal.kind() == ErrorKind::NotFound => {
            fs::rename(rt, beside, path)
        }
        (Err(refusal), _) => Err(refusal),
    }
}

/// Returns the folder of a path.
fn folder_of(path: &str) -> &str
    ensures { result.now ≡ folder_of path.now }
{
    match Path::new(path).parent() {
        Some(folder) if !folder.as_str().is_empty() => folder.as_str(),
        _ => ".",
    }
}

/// Writes the entries of a path's folder to its disk. Where a system cannot do that, its own order of writes counts.
fn sync_folder<R: Files<File = File>>(rt: &R, path: &str) {
    if let Ok(folder) = fs::open(rt, folder_of(path)) {
        let _ = folder.sync_all();
    }
}

/// Ends the replacing of the file at a path by one beside it: after a fault the file beside it is removed.
fn finish<R: Files<File = File>>(
    rt: &R,
    beside: &Beside,
    path: &str,
    outcome: io::Result<()>,
) -> io::Result<()> {
    if outcome.is_ok() {
        sync_folder(rt, path);
    } else {
        let _ = fs::remove_file(rt, beside.path.as_str());
    }
    outcome
}

/// Replaces the file at a path, which no link ends. After a fault the file beside it is removed.
fn replace_file<R: Files<File = File> + AllocGlobal>(
    rt: &R,
    path: &str,
    archive: &[u8],
    old: Option<&Metadata>,
    read: Option<&Metadata>,
) -> io::Result<()> {
    let mut beside = Beside::create(rt, path, old.is_some())?;
    let outcome = match beside.fill(archive, old) {
        Ok(()) => rename_over(rt, beside.path.as_str(), path, read),
        refused => refused,
    };
    finish(rt, &beside, path, outcome)
}

/// Replaces the file at a path, or the one that a link there leads to.
fn replace<R: Files<File = File> + AllocGlobal>(
    rt: &R,
    path: &str,
    archive: &[u8],
    read: Option<&Metadata>,
) -> io::Result<()> {
    match place_at(rt, path)? {
        Place::Free => replace_file(rt, path, archive, None, read),
        Place::File(old) => replace_file(rt, path, archive, Some(&old), read),
        Place::Link(old) => {
            let target = fs::canonicalize(rt, path)?;
            replace_file(rt, target.as_str(), archive, Some(&old), read)
        }
        Place::Other => Err(io::Error::from(ErrorKind::Unsupported)),
    }
}

/// Returns whether a file that was not replaced for a reason may still be written as it lies.
fn is_irreplaceable(refusal: &io::Error) -> bool
    ensures { IsTrue result ↔ IsIrreplaceable (error_kind refusal.now) }
{
    let kind = refusal.kind();
    kind == ErrorKind::PermissionDenied
        || kind == ErrorKind::ReadOnlyFilesystem
        || kind == ErrorKind::ResourceBusy
        || kind == ErrorKind::InvalidFilename
        || kind == ErrorKind::Unsupported
}

/// Writes an archive as the file at a path, which it replaces if one is there.
pub fn write<R: Files<File = File> + AllocGlobal>(
    rt: &R,
    path: &str,
    archive: &[u8],
) -> io::Result<()> {
    match replace(rt, path, archive, None) {
        Err(refusal) if is_irreplaceable(&refusal) => fs::write(rt, path, archive),
        outcome => outcome,
    }
}

/// Writes an archive over the file at a path, which gets its length.
fn write_over<R: Files<File = File>>(
    rt: &R,
    path: &str,
    archive: &[u8],
    read: &Metadata,
) -> io::Result<()> {
    let mut file = OpenOptions::new().write(true).open(rt, path)?;
    if read.is_file() {
        lock_same(rt, &file, path, read)?;
    }
    file.write_all(archive)?;
    if (archive.len() as u64) < read.len() {
        file.set_len(archive.len() as u64)?;
    }
    Ok(())
}

/// Writes an archive back to the file that it was read from, which it replaces.
pub fn write_back<R: Files<File = File> + AllocGlobal>(
    rt: &R,
    path: &str,
    archive: &[u8],
    read: &Metadata,
) -> io::Result<()>
    requires { ∥ ((t : Tree) × Accepted archive.now t) ∥₁ }
{
    match replace(rt, path, archive, Some(read)) {
        Err(refusal) if is_irreplaceable(&refusal) => write_over(rt, path, archive, read),
        outcome => outcome,
    }
}

/// Returns whether nothing is at a path, not even a link that leads to nothing.
pub fn is_free<R: Files>(rt: &R, path: &str) -> bool {
    matches!(place_at(rt, path), Ok(Place::Free))
}

/// Renames a file to a path where nothing is.
fn rename_to_free<R: Files>(rt: &R, beside: &str, path: &str) -> io::Result<()> {
    if is_free(rt, path) {
        fs::rename(rt, beside, path)
    } else {
        Err(io::Error::from(ErrorKind::AlreadyExists))
    }
}

/// Writes an archive as a new file at a path where nothing is.
pub fn write_new<R: Files<File = File> + AllocGlobal>(
    rt: &R,
    path: &str,
    archive: &[u8],
) -> io::Result<()> {
    let mut beside = Beside::create(rt, path, false)?;
    let outcome = match beside.fill(archive, None) {
        Ok(()) => rename_to_free(rt, beside.path.as_str(), path),
        refused => refused,
    };
    finish(rt, &beside, path, outcome)
}
