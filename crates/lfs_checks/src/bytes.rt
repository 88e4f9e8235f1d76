//! What is asked of a file whose bytes are read, written or cut.

ghost use Rattle.std.specs.Prelude.{◌≡◌, ◌+◌, nat_le};
ghost use Rattle.lfs_types.specs.declared.limits.TheConstants.{FILE_BYTES};
ghost use Rattle.lfs_model.specs.Rules.{change_tests, is_end, judged, length_tests, read_tests, start_in, write_tests};

use crate::asking::ask;
use crate::site::Site;
use lfs_rules::access::grants;
use lfs_rules::flags::{append_only, immutable};
use lfs_types::attrs::{Attrs, Bit};
use lfs_types::cred::Cred;
use lfs_types::limits::FILE_BYTES;
use lfs_types::request::Place;
use lfs_types::rule::{Denial, Rule};

/// Whether a caller may read a file, which stands at component `at` of a call's path, or the first rule that fails: it
/// is no directory, it grants read.
pub fn may_read(file: &Attrs, cred: &Cred, at: u32) -> Result<(), Denial>
    ensures { result ≡ judged (read_tests cred.now file.now at) }
{
    let site = Site { path: 0, at };
    ask(!file.kind.is_directory(), Rule::IsNoDirectory, site)?;
    ask(grants(file, cred, Bit::Read), Rule::GrantsRead, site)
}

/// Whether a caller may put so many bytes at a place into a file, which stands at component `at` of a call's path, or
/// the first rule that fails: those of a change, then that the bytes fit.
pub fn may_write(
    file: &Attrs,
    cred: &Cred,
    place: Place,
    count: usize,
    at: u32,
) -> Result<(), Denial>
    ensures { result ≡ judged (write_tests cred.now place count file.now at) }
{
    may_change(file, cred, is_end(place), at)?;
    let fits = fits_file(start_in(place, file.size), count);
    ask(fits, Rule::FitsFile, Site { path: 0, at })
}

/// Whether a caller may give a file, which stands at component `at` of a call's path, so many bytes, or the first rule
/// that fails: those of a change, then that the bytes fit.
pub fn may_set_length(file: &Attrs, cred: &Cred, len: u64, at: u32) -> Result<(), Denial>
    ensures { result ≡ judged (length_tests cred.now len file.now at) }
{
    may_change(file, cred, false, at)?;
    ask(len <= FILE_BYTES, Rule::FitsFile, Site { path: 0, at })
}

/// Whether a caller may change the bytes or the length of a file, which stands at component `at`, or the first rule
/// that fails; some changes only add bytes at its end.
fn may_change(file: &Attrs, cred: &Cred, appends: bool, at: u32) -> Result<(), Denial>
    ensures { result ≡ judged (change_tests cred.now appends file.now at) }
{
    let site = Site { path: 0, at };
    ask(!file.kind.is_directory(), Rule::IsNoDirectory, site)?;
    ask(!immutable(file), Rule::IsMutable, site)?;
    ask(grants(file, cred, Bit::Write), Rule::GrantsWrite, site)?;
    ask(appends || !append_only(file), Rule::IsNotAppendOnly, site)
}

/// Whether bytes go to the end of a file.
fn is_end(place: Place) -> bool
    ensures { result ≡ is_end place }
{
    match place {
        Place::At(_) => false,
        Place::End => true,
    }
}

/// The byte at which bytes that are put at a place begin, in a file of so many bytes.
pub fn start_in(place: Place, size: u64) -> u64
    ensures { result ≡ start_in place size }
{
    match place {
        Place::At(start) => start,
        Place::End => size,
    }
}

/// Whether a file may have so many bytes at this place.
fn fits_file(start: u64, count: usize) -> bool
    ensures { result ≡ nat_le (start + count) FILE_BYTES }
{
    start <= FILE_BYTES && count as u64 <= FILE_BYTES - start
}
