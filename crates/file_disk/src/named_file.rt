ghost use Rattle.std.specs.Prelude.{◌≡◌, true, OnOk, OnErr, IsErr};
ghost use Rattle.std.specs.Io.KnownBytes.{Appends, Consumes};

use std::fs::{File, OpenFile, OpenOptions};
use std::io::{ErrorKind, Read, Seek, SeekFrom, Write};
use std::path::Path;
use std::rt::Files;
use std::{fs, io};

// What became of the file.
#[derive(Drop)]
pub(crate) enum Stage<F> {
    Unopened,
    Open(F),

    // Opening it or a sync failed: the system may have let go of what was written, and a later sync wouldn't show it.
    Lost,
}

// A file that is opened when it is first asked for.
#[derive(Drop)]
pub(crate) struct NamedFile<'a, R: Files> {
    rt: &'a R,
    path: &'a str,
    stage: Stage<R::File>,
}

impl<'a, R: Files> NamedFile<'a, R> {
    ghost use Rattle.file_disk.specs.Files.{is_open, is_lost, StaysLost};

    pub(crate) fn new(rt: &'a R, path: &'a str) -> NamedFile<'a, R>
        ensures { result.stage ≡ Stage.Unopened }
    {
        NamedFile {
            rt,
            path,
            stage: Stage::Unopened,
        }
    }

    // Opens the file where no call did.
    fn open(&mut self) -> io::Result<()>
        ensures ok { OnOk result (is_open self.new ≡ true) }
        ensures err { OnErr result (is_lost self.new ≡ true) }
        ensures lost { StaysLost self.old self.new result }
    {
        match self.stage {
            Stage::Open(_) => Ok(()),
            Stage::Lost => Err(gone()),
            Stage::Unopened => {
                self.stage = Stage::Lost;
                self.stage = Stage::Open(open(self.rt, self.path)?);
                Ok(())
            }
        }
    }

    pub(crate) fn len(&mut self) -> io::Result<u64>
        ensures ok { OnOk result (is_open self.new ≡ true) }
        ensures lost { StaysLost self.old self.new result }
    {
        self.open()?;
        match &self.stage {
            Stage::Open(file) => Ok(file.metadata()?.len()),
            _ => Err(gone()),
        }
    }

    pub(crate) fn read_at(&mut self, at: u64, into: &mut [u8]) -> io::Result<()>
        ensures ok { OnOk result (is_open self.new ≡ true) }
        ensures lost { StaysLost self.old self.new result }
    {
        self.open()?;
        match &mut self.stage {
            Stage::Open(file) => {
                file.seek(SeekFrom::Start(at))?;
                read_whole(file, into)
            }
            _ => Err(gone()),
        }
    }

    pub(crate) fn write_at(&mut self, at: u64, piece: &[u8]) -> io::Result<()>
        ensures ok { OnOk result (is_open self.new ≡ true) }
        ensures lost { StaysLost self.old self.new result }
    {
        self.open()?;
        match &mut self.stage {
            Stage::Open(file) => {
                file.seek(SeekFrom::Start(at))?;
                write_whole(file, piece)
            }
            _ => Err(gone()),
        }
    }

    pub(crate) fn sync(&mut self) -> io::Result<()>
        ensures ok { OnOk result (is_open self.new ≡ true) }
        ensures err { OnErr result (is_lost self.new ≡ true) }
        ensures lost { StaysLost self.old self.new result }
    {
        self.open()?;
        let synced = match &self.stage {
            Stage::Open(file) => file.sync_data(),
            _ => Err(gone()),
        };
        if synced.is_err() {
            self.stage = Stage::Lost;
        }
        synced
    }
}

fn gone() -> io::Error {
    io::Error::from(ErrorKind::Other)
}

// Fills the buffer, in as many calls as it takes.
fn read_whole<F: Read>(file: &mut F, into: &mut [u8]) -> io::Result<()>
    ensures { OnOk result (Consumes (F.remaining file.old) (F.remaining file.new) into.new) }
{
    file.read_exact(into)
}

// Writes all of the piece, in as many calls as it takes.
fn write_whole<F: Write>(file: &mut F, piece: &[u8]) -> io::Result<()>
    ensures { OnOk result (Appends (F.contents file.old) (F.contents file.new) piece.now) }
{
    file.write_all(piece)
}

// Opens the file, or makes it where nothing is at the path, and then syncs it and its folder: what is read from now
// on, and the file's name, outlast a crash.
fn open<R: Files>(rt: &R, path: &str) -> io::Result<R::File> {
    let file = open_or_make(rt, path)?;
    file.sync_all()?;
    File::open(rt, folder_of(path))?.sync_all()?;
    Ok(file)
}

// Follows no link, so the file lies in the folder that the path names.
fn open_or_make<R: Files>(rt: &R, path: &str) -> io::Result<R::File> {
    match OpenOptions::new()
        .read(true)
        .write(true)
        .create_new(true)
        .open(rt, path)
    {
        Err(e) if e.kind() == ErrorKind::AlreadyExists => {
            if !fs::symlink_metadata(rt, path)?.is_file() {
                return Err(io::Error::from(ErrorKind::Unsupported));
            }
            OpenOptions::new().read(true).write(true).open(rt, path)
        }
        made => made,
    }
}

// The folder that a file of this path lies in.
fn folder_of(path: &str) -> &str {
    match Path::new(path).parent() {
        Some(folder) if !folder.as_os_str().is_empty() => folder.as_os_str(),
        _ => ".",
    }
}
