//! Files of modules.

use std::alloc::{AllocError, Global};
use std::{fs, io, str};

/// The ends of the names of files of modules in a folder.
const ENDS: [&str; 2] = [".asn1", ".asn"];

/// Returns the file with this name, or of a folder its files of modules in the order of their names.
///
/// # Errors
/// If the folder can't be read.
pub(crate) fn module_files(rt: &HostRuntime, name: &str) -> io::Result<Vec<String>> {
    let alloc = rt.alloc();
    let mut files = Vec::new(alloc);
    if !is_folder(rt, name) {
        files.push(String::from_str(alloc, name)?)?;
        return Ok(files);
    }
    let folder = name.strip_suffix("/").unwrap_or(name);
    for entry in fs::read_dir(rt, name)? {
        let entry = entry?;
        let file = entry.file_name();
        if ENDS.iter().any(|end| file.ends_with(*end)) {
            files.push(format!(in alloc; "{folder}/{file}")?)?;
        }
    }
    files.sort_unstable();
    Ok(files)
}

/// Returns whether a folder has this name.
fn is_folder(rt: &HostRuntime, name: &str) -> bool {
    match fs::metadata(rt, name) {
        Ok(found) => found.is_dir(),
        Err(_) => false,
    }
}

/// Reads a file of modules. Octets that aren't UTF-8 are characters of ISO 8859-1, which a module
/// has in comments at most.
///
/// # Errors
/// If the file can't be read.
pub(crate) fn read_text(rt: &HostRuntime, name: &str) -> io::Result<String> {
    let octets = fs::read(rt, name)?;
    let mut text = String::new(rt.alloc());
    match str::from_utf8(&octets) {
        Ok(read) => text.push_str(read)?,
        Err(_) => {
            for octet in &octets {
                text.push(char::from(*octet))?;
            }
        }
    }
    Ok(text)
}
