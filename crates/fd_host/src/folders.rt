// Folders: how they are made, and which of them are datasets.
use crate::files::{if_there, open};
use std::alloc::Global;
use std::collections::BTreeSet;
use std::fs;
use std::fs::File;
use std::io::{Error, ErrorKind, Result};
use std::os::unix::fs::MetadataExt;
use std::path::AsPath;

fn is_folder<P: AsPath>(rt: HostRuntime, path: P) -> Result<bool> {
    match if_there(fs::metadata(&rt, path))? {
        Some(found) => Ok(found.is_dir()),
        None => Ok(false),
    }
}

/// Makes a folder, and its name firm, unless it is there.
pub(crate) fn make_folder(rt: HostRuntime, path: &str) -> Result<()> {
    if is_folder(rt, path)? {
        return Ok(());
    }
    let names = open(rt, above(path))?;
    make(rt, path)?;
    names.sync_all()
}

/// Makes a folder, unless it is there, and its name firm: a descriptor of it. An empty one is made anew, since its name may be
/// known to the system alone, which failed to write it to the folder above once. Nothing is put into a folder before its
/// name is firm.
pub(crate) fn make_firm(rt: HostRuntime, path: &str) -> Result<File> {
    let names = open(rt, above(path))?;
    let _ = fs::remove_dir(&rt, path);
    make(rt, path)?;
    let folder = open(rt, path)?;
    names.sync_all()?;
    Ok(folder)
}

/// An error where the folder was removed after it was opened.
pub(crate) fn stands(folder: &File) -> Result<()> {
    if folder.metadata()?.nlink() == 0 {
        return Err(Error::from(ErrorKind::NotFound));
    }
    Ok(())
}

// Makes a folder, unless it is there.
fn make(rt: HostRuntime, path: &str) -> Result<()> {
    match fs::create_dir(&rt, path) {
        Ok(()) => Ok(()),
        Err(error) => {
            if is_folder(rt, path)? {
                return Ok(());
            }
            Err(error)
        }
    }
}

/// Makes a folder and those above it, each firm in the one above it, where they aren't there.
pub fn make_folders(rt: HostRuntime, path: &str) -> Result<()> {
    if is_folder(rt, path)? {
        return Ok(());
    }
    for end in 1..path.len() {
        if let Some((front, rest)) = path.split_at_checked(end) {
            if rest.starts_with('/') && !front.ends_with('/') {
                make_folder(rt, front)?;
            }
        }
    }
    make_folder(rt, path)
}

// The folder above one.
fn above(path: &str) -> &str {
    match path.rsplit_once('/') {
        None => ".",
        Some(("", _)) => "/",
        Some((front, _)) => front,
    }
}

/// Adds the names of the datasets' folders that a folder has, which is none where it isn't there itself. What can't be a
/// dataset's text is passed over; a link to a folder is one.
pub fn gather(
    rt: HostRuntime,
    alloc: Global,
    path: &str,
    names: &mut BTreeSet<String>,
) -> Result<()> {
    let Some(entries) = if_there(fs::read_dir(&(rt, alloc), path))? else {
        return Ok(());
    };
    for entry in entries {
        let entry = match entry {
            Ok(entry) => entry,
            // it is no text
            Err(error) if error.kind() == ErrorKind::InvalidFilename => continue,
            Err(error) => return Err(error),
        };
        if entry.file_name().contains('=') && is_folder(rt, entry.path())? {
            names.insert(String::from_str(alloc, entry.file_name())?)?;
        }
    }
    Ok(())
}
