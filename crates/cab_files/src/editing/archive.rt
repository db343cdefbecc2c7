//! Editing the document of an archive file, so that it may grow.
ghost use Rattle.cab_files.specs.Editing.{EndsEdit};

use crate::editing::session::edit_file;
use crate::reading::read;
use cabinet::Fault;
use std::fs::File;
use std::io::IsTerminal;
use std::rt::Files;

/// Carries out the lines of the standard input in the document of an archive file. If an edit was done, the archive of the
/// document replaces the file.
pub fn edit_archive_file<R: Files<File = File> + Input + Print + AllocGlobal>(
    rt: &R,
    path: String,
) -> Result<(), Fault>
where
    R::Reader: IsTerminal,
    ensures { EndsEdit path result }
{
    match read(rt, path.as_str()) {
        Ok((archive, read)) => edit_file(rt, path, archive.as_slice(), Some(&read)),
        Err(_) => Err(Fault::CannotRead(path)),
    }
}
