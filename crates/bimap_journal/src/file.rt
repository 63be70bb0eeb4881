//! The file of a journal on a disk. It does not know what stands in the file.
use crate::storage::Storage;
use std::alloc::Global;
use std::fs::{self, Metadata, OpenOptions, Permissions, TryLockError};
use std::io::{self, ErrorKind, Read, Seek, SeekFrom};
use std::os::fd::AsRawFd;
use std::os::unix::fs::{FileExt, MetadataExt, OpenOptionsExt, PermissionsExt, fchown};
use std::path::PathBuf;
use thiserror::Error;

/// Why a file was not opened.
#[derive(Debug, Drop, Error)]
pub enum FileError {
    /// The path leads to a folder.
    #[error("it is a folder")]
    IsFolder,
    /// The path leads to something that is neither a folder nor a regular file, such as a pipe or a device.
    #[error("it is no regular file")]
    NotRegular,
    /// The file has a second name, made by a hard link. A replacement would change the file under one name alone.
    #[error("the file has a second name")]
    SecondName,
    /// This process may not read and write the file, or may not make a file in this folder.
    #[error("permission denied")]
    Denied,
    /// Another process has opened the file, or another [`File`] of this process.
    #[error("the file is in use")]
    InUse,
    /// The system refused a call for another reason, or memory ran out.
    #[error("{0}")]
    Failed(io::Error),
}

impl From<io::Error> for FileError {
    fn from(error: io::Error) -> FileError {
        match error.kind() {
            ErrorKind::IsADirectory => FileError::IsFolder,
            ErrorKind::PermissionDenied => FileError::Denied,
            ErrorKind::WouldBlock => FileError::InUse,
            _ => FileError::Failed(error),
        }
    }
}

/// A file on a disk. No other process opens it as a `File` at the same time.
///
/// The file is locked until this value is dropped or the process ends. The lock stops only programs that ask for it.
/// While the file is open, no other program may write to it, rename it or remove it. Changes could be lost, and no call
/// would say so.
///
/// No proof says what the system does. A `File` does what [`Storage`] asks for if all of this is true:
/// - After a sync that succeeded, the content of the file is on the disk. After a sync of a folder, its names are.
/// - After a sync that failed, a later process that opens the file reads what is on the disk.
/// - A crash during a write or a cut changes no byte in front of the place where it begins.
/// - A crash during a write of one byte leaves the old byte or the new one.
/// - A crash while a file is renamed over another leaves the old file under the name, or the new one.
/// - A lock keeps other processes out. On a network file system it may not.
#[derive(Drop)]
pub struct File {
    rt: HostRuntime,
    file: fs::File,
    // The path of the file itself. No part of it is a link.
    path: PathBuf,
    folder: fs::File,
}

// The name of a replacement is the name of the file and this.
const NEW: &str = ".jetukoma-new";

// Opens a file. If the program was started with a closed standard stream, the system gives the number of that stream to
// the file. Then what the program prints would land in the file. So this function takes another number.
fn opened(rt: &HostRuntime, path: &str, how: &OpenOptions) -> io::Result<fs::File> {
    let file = how.open(rt, path)?;
    if file.as_raw_fd() <= 2 {
        return file.try_clone();
    }
    Ok(file)
}

// Returns an `Err` unless this is a regular file with one name.
fn check(found: &Metadata) -> Result<(), FileError> {
    if found.is_dir() {
        return Err(FileError::IsFolder);
    }
    if !found.is_file() {
        return Err(FileError::NotRegular);
    }
    if found.nlink() > 1 {
        return Err(FileError::SecondName);
    }
    Ok(())
}

// Returns whether a path, which is no link, leads to this open file.
fn is_at(rt: &HostRuntime, path: &str, file: &fs::File) -> io::Result<bool> {
    let (named, found) = (fs::symlink_metadata(rt, path)?, file.metadata()?);
    Ok(named.dev() == found.dev() && named.ino() == found.ino())
}

// Gives a new file the owner and the group of the old one if this process may set them. Then it sets the mode. If the
// new file has another group, its group and all others get only the access that both had before.
fn copy_access(old: &Metadata, new: &fs::File) -> io::Result<()> {
    let _ = fchown(new, None, Some(old.gid()));
    let _ = fchown(new, Some(old.uid()), None);
    let mode = old.mode() & 0o777;
    if new.metadata()?.gid() == old.gid() {
        return new.set_permissions(Permissions::from_mode(mode));
    }
    let both = mode & (mode >> 3) & 0o7;
    new.set_permissions(Permissions::from_mode(mode & 0o700 | both << 3 | both))
}

// Removes a file, if there is one.
fn remove_if_there(rt: &HostRuntime, path: &str) -> io::Result<()> {
    match fs::remove_file(rt, path) {
        Err(error) if error.kind() == ErrorKind::NotFound => Ok(()),
        removed => removed,
    }
}

impl File {
    /// Opens a file, and locks it. Makes the file if it is missing.
    ///
    /// If the path is a link, the file is the one that the link leads to. If there is none, it is made there.
    ///
    /// A replacement is first written to a file whose name has `.jetukoma-new` at its end. After a crash this file may
    /// stay. The next replacement removes it. So keep nothing of your own under this name.
    ///
    /// Time: O(length of the path). It reads nothing of the content.
    ///
    /// Memory: It allocates for the path.
    ///
    /// `Err`: [`FileError`] says why, and the content of the file has not changed. If the file was missing, it may be
    /// there now, and is empty.
    pub fn open(rt: &HostRuntime, path: &str) -> Result<File, FileError> {
        match fs::metadata(rt, path) {
            Ok(found) => check(&found)?,
            Err(error) if error.kind() == ErrorKind::NotFound => {}
            Err(error) => return Err(error.into()),
        }
        let mut how = OpenOptions::new();
        let file = opened(rt, path, how.read(true).write(true).create(true))?;
        let path = fs::canonicalize(rt, path)?;
        if let Err(error) = file.try_lock() {
            return Err(io::Error::from(error).into());
        }
        // Another process may have replaced the file before it was locked here.
        if !is_at(rt, path.as_str(), &file)? {
            return Err(FileError::InUse);
        }
        check(&file.metadata()?)?;
        let Some(folder) = path.parent() else {
            return Err(FileError::IsFolder);
        };
        let folder = fs::open(rt, folder)?;
        Ok(File {
            rt: *rt,
            file,
            path,
            folder,
        })
    }

    // Writes a new file, and gives it the name of this one.
    fn put(&self, new: &str, file: &fs::File, bytes: &[u8]) -> io::Result<()> {
        file.try_lock()?;
        copy_access(&self.file.metadata()?, file)?;
        file.write_all_at(bytes, 0)?;
        file.sync_all()?;
        if !is_at(&self.rt, self.path.as_str(), &self.file)? {
            let why = "the name of the file leads to another file by now";
            return Err(io::Error::new(ErrorKind::StaleNetworkFileHandle, why));
        }
        fs::rename(&self.rt, new, self.path.as_str())
    }
}

impl Storage for File {
    // An earlier process may have ended before its last sync. So this method first syncs the file.
    fn read(&mut self, alloc: Global) -> io::Result<Vec<u8>> {
        self.file.sync_all()?;
        self.folder.sync_all()?;
        self.file.seek(SeekFrom::Start(0))?;
        let mut bytes = Vec::new(alloc);
        self.file.read_to_end(&mut bytes)?;
        Ok(bytes)
    }

    fn write_at(&mut self, at: usize, bytes: &[u8]) -> io::Result<()> {
        self.file.write_all_at(bytes, at as u64)
    }

    // `sync_data` need not put a shorter length on the disk.
    fn set_len(&mut self, len: usize) -> io::Result<()> {
        self.file.set_len(len as u64)?;
        self.file.sync_all()
    }

    fn sync(&mut self) -> io::Result<()> {
        self.file.sync_data()
    }

    // The new file is locked before it gets the name. So no other process can lock it first. The new file always has
    // the same name. So crashes leave at most one.
    fn replace(&mut self, bytes: &[u8]) -> io::Result<()> {
        let path = self.path.as_str();
        let new = format!(in self.rt.alloc(); "{path}{NEW}")?;
        let new = new.as_str();
        remove_if_there(&self.rt, new)?;
        let mut how = OpenOptions::new();
        how.read(true).write(true).create_new(true).mode(0o600);
        let file = opened(&self.rt, new, &how)?;
        if let Err(error) = self.put(new, &file, bytes) {
            let _ = fs::remove_file(&self.rt, new);
            return Err(error);
        }
        self.file = file;
        self.folder.sync_all()
    }
}
