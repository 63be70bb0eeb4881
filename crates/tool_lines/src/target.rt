//! A file whose text is read, and later replaced as a whole.
use std::fs::{self, Metadata, OpenOptions, Permissions};
use std::io::{self, Error, ErrorKind, Write};
use std::os::unix::fs::{MetadataExt, OpenOptionsExt, PermissionsExt, fchown};
use std::path::Path;

/// A regular file, or the name of a file that does not exist yet.
#[derive(Drop)]
pub struct Target {
    // The path of the file itself, which is no link.
    path: String,
    // The name of the new file that will replace it.
    new: String,
    folder: fs::File,
    // What the system said about the file when it was read.
    old: Option<Metadata>,
}

// Returns the path of the file that a link points to. Returns the path itself if it is no link.
fn followed(rt: &HostRuntime, path: &str) -> io::Result<String> {
    match fs::symlink_metadata(rt, path) {
        Ok(found) if found.is_symlink() => Ok(fs::canonicalize(rt, path)?.into_string()),
        _ => Ok(String::from_str(rt.alloc(), path)?),
    }
}

// Returns what the system knows about a regular file, or `None` if nothing has this name. An `Err` says that the name
// belongs to something else.
fn found(rt: &HostRuntime, path: &str) -> io::Result<Option<Metadata>> {
    match fs::symlink_metadata(rt, path) {
        Ok(found) if found.is_file() => Ok(Some(found)),
        Ok(_) => Err(Error::new(ErrorKind::InvalidInput, "it is no regular file")),
        Err(error) if error.kind() == ErrorKind::NotFound && !path.ends_with('/') => Ok(None),
        Err(error) => Err(error),
    }
}

// Opens the folder of the file.
fn open_folder(rt: &HostRuntime, path: &str) -> io::Result<fs::File> {
    match Path::new(path).parent() {
        Some(folder) if folder.to_str() == Some("") => fs::open(rt, "."),
        Some(folder) => fs::open(rt, folder),
        None => Err(ErrorKind::NotFound.into()),
    }
}

fn in_the_way() -> Error {
    let why = "a file whose name has .new behind it is in the way";
    Error::new(ErrorKind::AlreadyExists, why)
}

// Returns an `Err` if a file of this name exists or cannot exist.
fn check_free(rt: &HostRuntime, path: &str) -> io::Result<()> {
    match fs::symlink_metadata(rt, path) {
        Ok(_) => Err(in_the_way()),
        Err(error) if error.kind() == ErrorKind::NotFound => Ok(()),
        Err(error) => Err(error),
    }
}

// Returns the mode for a new file. With it nobody gets more access than the old file gave. If the new file has another
// group, its group and all others get only the access that both had before.
fn mode_of(old: &Metadata, new: &Metadata) -> u32 {
    let mode = old.mode() & 0o777;
    if old.gid() == new.gid() {
        return mode;
    }
    let both = mode & (mode >> 3) & 0o7;
    mode & 0o700 | both << 3 | both
}

// Gives a new file the owner and the group of the old one if this process may set them. Then it sets the mode.
fn copy_access(old: &Metadata, file: &fs::File) -> io::Result<()> {
    let _ = fchown(file, None, Some(old.gid()));
    let _ = fchown(file, Some(old.uid()), None);
    let mode = mode_of(old, &file.metadata()?);
    file.set_permissions(Permissions::from_mode(mode))
}

// Sets the mode of a new file, and then writes the text to it.
fn fill(file: &mut fs::File, old: Option<Metadata>, text: &str) -> io::Result<()> {
    if let Some(old) = old {
        copy_access(&old, file)?;
    }
    file.write_all(text.as_bytes())?;
    file.sync_all()
}

impl Target {
    /// Opens a file, and returns it with its text if it exists. The function changes nothing.
    ///
    /// Returns an `Err` if the file is no regular file or could not be read. It also returns an `Err` if another file
    /// has the name of this one with `.new` after it.
    pub fn open(rt: &HostRuntime, path: &str) -> io::Result<(Target, Option<String>)> {
        let path = followed(rt, path)?;
        let old = found(rt, path.as_str())?;
        let folder = open_folder(rt, path.as_str())?;
        let new = format!(in rt.alloc(); "{path}.new")?;
        check_free(rt, new.as_str())?;
        let text = match old {
            Some(_) => Some(fs::read_to_string(rt, path.as_str())?),
            None => None,
        };
        Ok((
            Target {
                path,
                new,
                folder,
                old,
            },
            text,
        ))
    }

    // Makes the new file. It never overwrites another file. Only the owner can read a private file.
    fn create(&self, rt: &HostRuntime, is_private: bool) -> io::Result<fs::File> {
        let mode = if is_private { 0o600 } else { 0o666 };
        let mut how = OpenOptions::new();
        match how
            .write(true)
            .create_new(true)
            .mode(mode)
            .open(rt, self.new.as_str())
        {
            Err(error) if error.kind() == ErrorKind::AlreadyExists => Err(in_the_way()),
            made => made,
        }
    }

    // Writes the new file, and gives it the name of the old one.
    fn put(
        &self,
        rt: &HostRuntime,
        file: &mut fs::File,
        old: Option<Metadata>,
        text: &str,
    ) -> io::Result<()> {
        fill(file, old, text)?;
        fs::rename(rt, self.new.as_str(), self.path.as_str())
    }

    /// Gives the file another text. It writes a new file, which replaces the old one when it is complete. If the
    /// process ends before, the file has its whole old text. The new file gets the mode of the old one. It also gets
    /// the owner and the group if this process may set them.
    ///
    /// After an `Err` the new file is gone, and the file has its old text. There is one exception: if only the folder
    /// could not be synced, the file has its new text.
    pub fn replace(&self, rt: &HostRuntime, text: &str) -> io::Result<()> {
        let old = match found(rt, self.path.as_str())? {
            Some(old) => Some(old),
            None => self.old.clone()?,
        };
        let mut file = self.create(rt, old.is_some())?;
        if let Err(why) = self.put(rt, &mut file, old, text) {
            let _ = fs::remove_file(rt, self.new.as_str());
            return Err(why);
        }
        self.folder.sync_all()
    }
}
