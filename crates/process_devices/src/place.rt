// Where the bytes that are written to a name go. A link is followed to what it names.
use std::alloc::{AllocError, Global};
use std::fs::{Metadata, OpenOptions};
use std::io::ErrorKind;
use std::os::unix::fs::PermissionsExt;
use std::rt::Files;
use std::{fs, io};

// So many links are followed, one after the other, as the system follows them.
const MOST_LINKS: u64 = 40;

// Where links to open files lie.
const PROCESSES: &str = "/proc";

// What stands at the end of the links.
#[derive(Drop)]
pub(crate) enum Place {
    // A regular file, or none yet.
    File {
        path: String,
        found: Option<Metadata>,
    },
    // What is written where it stands, as a pipe, opened so.
    Device {
        path: String,
        how: OpenOptions,
    },
}

// The place of a name.
pub(crate) fn place_of<R: Files>(rt: &R, alloc: Global, path: &str) -> io::Result<Place> {
    let mut at = String::from_str(alloc, path)?;
    for _link in 0..MOST_LINKS {
        match fs::symlink_metadata(rt, at.as_str()) {
            Ok(found) if !found.is_symlink() => return Ok(place_found(at, found)),
            Ok(_) if lies_in_processes(rt, alloc, at.as_str())? => return Ok(open_file(at)),
            Ok(_) => at = behind_link(rt, alloc, at.as_str())?,
            Err(e) if e.kind() == ErrorKind::NotFound && !at.is_empty() => {
                return Ok(Place::File {
                    path: at,
                    found: None,
                });
            }
            Err(e) => return Err(e),
        }
    }
    Err(io::Error::from(ErrorKind::FilesystemLoop))
}

// The place of what stands there, which is no link.
fn place_found(path: String, found: Metadata) -> Place {
    if found.is_file() {
        return Place::File {
            path,
            found: Some(found),
        };
    }
    let mut how = OpenOptions::new();
    how.write(true);
    Place::Device { path, how }
}

// An open file of a process, as standard output: what is written follows what it has.
fn open_file(path: String) -> Place {
    let mut how = OpenOptions::new();
    how.append(true);
    Place::Device { path, how }
}

// Whether a link is one to an open file of a process. Its text doesn't tell how to reach that.
fn lies_in_processes<R: Files>(rt: &R, alloc: Global, link: &str) -> io::Result<bool> {
    let (folder, _) = folder_and_name(link);
    let folder = rt.canonicalize(alloc, path_of_folder(alloc, folder)?.as_str())?;
    Ok(folder.as_path().starts_with(PROCESSES))
}

// The path that a link tells. One that isn't from the root on starts at the link's folder.
fn behind_link<R: Files>(rt: &R, alloc: Global, link: &str) -> io::Result<String> {
    let told = rt.read_link(alloc, link)?.into_string();
    if told.starts_with('/') {
        return Ok(told);
    }
    let (folder, _) = folder_and_name(link);
    Ok(path_in(alloc, folder, told.as_str())?)
}

// The folder of a path, where it names one, and the name in it.
pub(crate) fn folder_and_name(path: &str) -> (Option<&str>, &str) {
    match path.rsplit_once('/') {
        Some((folder, name)) => (Some(folder), name),
        None => (None, path),
    }
}

// The path of a name in a folder.
pub(crate) fn path_in(
    alloc: Global,
    folder: Option<&str>,
    name: &str,
) -> Result<String, AllocError> {
    match folder {
        Some(folder) => format!(in alloc; "{folder}/{name}"),
        None => String::from_str(alloc, name),
    }
}

// The path of a folder itself.
pub(crate) fn path_of_folder(alloc: Global, folder: Option<&str>) -> Result<String, AllocError> {
    match folder {
        Some(folder) => format!(in alloc; "{folder}/"),
        None => String::from_str(alloc, "."),
    }
}
