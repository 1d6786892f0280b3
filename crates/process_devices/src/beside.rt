// A file beside the one that is to be written. It is made new, and moved over that one when it is
// whole and on the device.
use crate::beside_name::beside_name;
use crate::place::{folder_and_name, path_in, path_of_folder};
use std::alloc::Global;
use std::fs::{Metadata, OpenFile, OpenOptions};
use std::io::{ErrorKind, Write};
use std::os::unix::fs::{MetadataExt, OpenOptionsExt, chown};
use std::rt::Files;
use std::{fs, io};

// So many names are tried.
const MOST_TURNS: u16 = 1000;

// Who may read and write a file whose permissions aren't known yet: its owner alone.
const OWNER_ALONE: u32 = 0o600;

// A file beside another.
#[derive(Drop)]
pub(crate) struct Beside<F: Drop> {
    file: F,
    path: String,
    // The folder of both.
    folder: F,
    // The path that it is moved to.
    place: String,
}

impl<F: Write + OpenFile + Drop> Beside<F> {
    // A new file beside this place, with the permissions of what was found there.
    pub(crate) fn make<R: Files<File = F>>(
        rt: &R,
        alloc: Global,
        place: String,
        found: Option<Metadata>,
    ) -> io::Result<Self> {
        let (folder, name) = folder_and_name(place.as_str());
        let opened = fs::open(rt, path_of_folder(alloc, folder)?.as_str())?;
        for turn in 1..=MOST_TURNS {
            let beside = beside_name(alloc, name, turn)?;
            let path = path_in(alloc, folder, beside.as_str())?;
            if beside.as_str() == name {
                continue;
            }
            match new_file(rt, path.as_str(), found.as_ref()) {
                Ok(file) => {
                    return Ok(Beside {
                        file,
                        path,
                        folder: opened,
                        place,
                    });
                }
                Err(e) if e.kind() == ErrorKind::AlreadyExists => {}
                Err(e) => return Err(e),
            }
        }
        Err(io::Error::from(ErrorKind::AlreadyExists))
    }

    // Writes all of these bytes after those that it has.
    pub(crate) fn write(&mut self, bytes: &[u8]) -> io::Result<()> {
        self.file.write_all(bytes)
    }

    // Moves it to its place, once its bytes are on the device, and then the folder's. What can't be
    // moved is removed.
    pub(crate) fn settle<R: Files<File = F>>(self, rt: &R) -> io::Result<()> {
        if let Err(e) = self.moved(rt) {
            self.remove(rt);
            return Err(e);
        }
        match self.folder.sync_all() {
            Err(e) if !is_unknown(e.kind()) => Err(e),
            Ok(()) | Err(_) => Ok(()),
        }
    }

    fn moved<R: Files<File = F>>(&self, rt: &R) -> io::Result<()> {
        self.file.sync_all()?;
        fs::rename(rt, self.path.as_str(), self.place.as_str())
    }

    // Removes it.
    pub(crate) fn remove<R: Files<File = F>>(self, rt: &R) {
        let _ = fs::remove_file(rt, self.path.as_str());
    }
}

// Whether a device has no such call.
fn is_unknown(kind: ErrorKind) -> bool {
    matches!(kind, ErrorKind::InvalidInput | ErrorKind::Unsupported)
}

// A new file at this path, where nothing stands.
fn new_file<R: Files>(rt: &R, path: &str, like: Option<&Metadata>) -> io::Result<R::File> {
    let mut how = OpenOptions::new();
    how.write(true).create_new(true);
    let Some(found) = like else {
        return how.open(rt, path);
    };
    how.mode(OWNER_ALONE);
    let file = how.open(rt, path)?;
    if let Err(e) = keep_permissions(rt, path, &file, found) {
        let _ = fs::remove_file(rt, path);
        return Err(e);
    }
    Ok(file)
}

// Gives a file the permissions of another, and its owner where the system lets it.
fn keep_permissions<R: Files>(
    rt: &R,
    path: &str,
    file: &R::File,
    like: &Metadata,
) -> io::Result<()> {
    let made = file.metadata()?;
    if made.uid() != like.uid() || made.gid() != like.gid() {
        let _ = chown(rt, path, Some(like.uid()), Some(like.gid()));
    }
    if made.permissions() == like.permissions() {
        return Ok(());
    }
    file.set_permissions(like.permissions())
}
