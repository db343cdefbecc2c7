//! The file beside an archive, which has the new bytes of the archive before it is renamed over the old ones.
ghost use Rattle.std.specs.Prelude.{◌≡◌, true, Some, IfOk, OnOk};
ghost use Rattle.std.specs.Fs.{new_options, with_write, with_create_new};
ghost use Rattle.std.specs.Io.KnownBytes.{Appends};
ghost use Rattle.std.specs.Path.{path_buf_bytes};
ghost use Rattle.cab_files.specs.Beside.{path_beside, IsBeside};

use std::alloc::Global;
use std::fs::{File, Metadata, OpenFile, OpenOptions};
use std::io;
use std::io::{ErrorKind, Write};
use std::os::fd::AsFd;
use std::os::unix::fs::{MetadataExt, OpenOptionsExt, fchown};
use std::path::{Path, PathBuf};
use std::rt::Files;

/// How many paths beside an archive are tried.
const TRIES: u32 = 1000;

/// The permissions of a file that will get those of an old one: its owner alone may read and write it.
const PRIVATE: u32 = 0o600;

/// A new file in the folder of an archive.
#[derive(Drop)]
pub struct Beside {
    file: File,
    pub path: PathBuf,
}

/// Returns the path of file `n` beside the one at a path: in the same folder, with the name `.NAME.cab-N`.
fn path_beside(alloc: Global, path: &str, n: u32) -> io::Result<PathBuf>
    ensures { IfOk result (λ beside. path_beside path.now n ≡ Some (path_buf_bytes beside)) }
{
    let path = Path::new(path);
    let Some(name) = path.file_name() else {
        return Err(io::Error::from(ErrorKind::InvalidInput));
    };
    let name = format!(in alloc; ".{name}.cab-{n}")?;
    Ok(path.with_file_name(alloc, name.as_str())?)
}

/// Returns the options that open a file only where there is none at its path.
fn new_file() -> OpenOptions
    ensures { result ≡ with_create_new (with_write new_options true) true }
{
    let mut options = OpenOptions::new();
    options.write(true).create_new(true);
    options
}

/// Gives a new file the owner, the group and the permissions of an old one, if there is one.
fn give_access<F: OpenFile + AsFd>(file: &F, old: Option<&Metadata>) -> io::Result<()> {
    let Some(old) = old else {
        return Ok(());
    };
    let new = file.metadata()?;
    if new.uid() != old.uid() || new.gid() != old.gid() {
        fchown(file, Some(old.uid()), Some(old.gid()))?;
    }
    file.set_permissions(old.permissions())
}

/// Writes all the bytes of an archive to a new file, and to its disk.
fn fill<F: Write + OpenFile + AsFd>(
    file: &mut F,
    archive: &[u8],
    old: Option<&Metadata>,
) -> io::Result<()>
    ensures { OnOk result (Appends (F.contents file.old) (F.contents file.new) archive.now) }
{
    file.write_all(archive)?;
    give_access(file, old)?;
    file.sync_all()
}

impl Beside {
    /// Creates the first file beside a path that is not there yet. If it will replace a file, it is private until it
    /// has the permissions of that one.
    pub fn create<R: Files<File = File> + AllocGlobal>(
        rt: &R,
        path: &str,
        replaces: bool,
    ) -> io::Result<Beside>
        ensures { IfOk result (λ beside. IsBeside path.now TRIES (path_buf_bytes beside.path)) }
    {
        let mut options = new_file();
        if replaces {
            options.mode(PRIVATE);
        }
        for n in 0..TRIES {
            let path = path_beside(rt.alloc(), path, n)?;
            match options.open(rt, path.as_str()) {
                Ok(file) => return Ok(Beside { file, path }),
                Err(refusal) if refusal.kind() == ErrorKind::AlreadyExists => {}
                Err(refusal) => return Err(refusal),
            }
        }
        Err(io::Error::from(ErrorKind::AlreadyExists))
    }

    /// Writes all the bytes of an archive to the file, and gives it the owner and the permissions of an old one.
    pub fn fill(&mut self, archive: &[u8], old: Option<&Metadata>) -> io::Result<()> {
        fill(&mut self.file, archive, old)
    }
}
