//! The file of a journal.

use crate::fault::OpenFault;
use std::fs::OpenOptions;
use std::io::ErrorKind;
use std::rt::Files;

/// Makes the file of a journal.
///
/// # Errors
///
/// It is there already, or could not be made.
pub(crate) fn make_journal<F: Files>(files: &F, path: &str) -> Result<F::File, OpenFault> {
    let mut how = OpenOptions::new();
    how.write(true).create_new(true);
    match how.open(files, path) {
        Ok(file) => Ok(file),
        Err(error) if error.kind() == ErrorKind::AlreadyExists => Err(OpenFault::Exists),
        Err(_) => Err(OpenFault::Unmade),
    }
}
