//! Users' calls as lines of a script, which are read back as these calls.

ghost use Rattle.std.specs.Prelude.{◌≡◌, ◌++◌, ◌∷◌, [], true, Ok, OnOk};
ghost use Rattle.lfs_types.specs.declared.request.Request.TheVariants as asks;
ghost use Rattle.lfs_words.specs.NameText.{mode_text};
ghost use Rattle.lfs_words.specs.Numbers.{mode_of};
ghost use Rattle.lfs_words.specs.PathText.{can_spell, path_of, path_word};
ghost use Rattle.lfs_words.specs.Spelling.{ReadsBack};
ghost use Rattle.lfs_words.specs.Wording.{spaced};
ghost use Rattle.lfs_script.specs.Plans.{line_said};
ghost use Rattle.lfs_script.specs.Spelling.{IsSaid, can_say, kind_of, operands, request_line};
ghost use Rattle.lfs_script.specs.declared.plan.Act.TheVariants.{User};
ghost use Rattle.lfs_script.specs.declared.plan.Line.TheVariants as says;

use crate::verb::{RequestKind, request_word};
use lfs_types::file_flags::FileFlags;
use lfs_types::mode::Mode;
use lfs_types::path::Path;
use lfs_types::payload::Payload;
use lfs_types::request::{Place, Request};
use lfs_words::append::push_word;
use lfs_words::spelling::{
    spell_bytes, spell_flags, spell_level, spell_long, spell_mode, spell_path, spell_short,
};
use std::alloc::AllocError;

/// Appends a user's call as a line of a script, without a line feed. Where a script can spell its paths, the line says
/// this call; else it says none.
pub fn push_request(out: &mut Vec<u8>, request: &Request) -> Result<(), AllocError>
    ensures spelled { OnOk result (out.new.items ≡ out.old.items ++ request_line request.now) }
    ensures back { OnOk result (can_say request.now ≡ true
        → line_said (request_line request.now) ≡ Ok (says.Act (User request.now))) }
{
    out.extend_from_slice(request_word(kind_of(request)).as_bytes())?;
    push_operands(out, request)
}

/// Which call it is.
fn kind_of(request: &Request) -> RequestKind
    ensures { result ≡ kind_of request.now }
{
    match request {
        Request::Stat { .. } => RequestKind::Stat,
        Request::Read { .. } => RequestKind::Read,
        Request::Write { .. } => RequestKind::Write,
        Request::List { .. } => RequestKind::List,
        Request::SetLength { .. } => RequestKind::SetLength,
        Request::Create { .. } => RequestKind::Create,
        Request::Mkdir { .. } => RequestKind::Mkdir,
        Request::Unlink { .. } => RequestKind::Unlink,
        Request::Rmdir { .. } => RequestKind::Rmdir,
        Request::Rename { .. } => RequestKind::Rename,
        Request::Chmod { .. } => RequestKind::Chmod,
        Request::Chown { .. } => RequestKind::Chown,
        Request::Chflags { .. } => RequestKind::Chflags,
        Request::SetLevel { .. } => RequestKind::SetLevel,
        Request::Sync => RequestKind::Sync,
    }
}

/// Appends what stands behind the name of a call.
fn push_operands(out: &mut Vec<u8>, request: &Request) -> Result<(), AllocError>
    ensures spelled { OnOk result (out.new.items ≡ out.old.items ++ spaced (operands request.now)) }
    ensures back { OnOk result (can_say request.now ≡ true → IsSaid request.now) }
{
    match request {
        Request::Stat { path } => spell_path(out, path),
        Request::Read { path, off, len } => push_read(out, path, *off, *len),
        Request::Write { path, place, bytes } => push_write(out, path, *place, bytes),
        Request::List { path } => spell_path(out, path),
        Request::SetLength { path, len } => push_set_length(out, path, *len),
        Request::Create { path, mode } => push_path_and_mode(out, path, *mode),
        Request::Mkdir { path, mode } => push_path_and_mode(out, path, *mode),
        Request::Unlink { path } => spell_path(out, path),
        Request::Rmdir { path } => spell_path(out, path),
        Request::Rename { from, to } => push_rename(out, from, to),
        Request::Chmod { path, mode } => push_path_and_mode(out, path, *mode),
        Request::Chown { path, uid, gid } => push_chown(out, path, *uid, *gid),
        Request::Chflags { path, flags } => push_chflags(out, path, *flags),
        Request::SetLevel { level } => spell_level(out, *level),
        Request::Sync => Ok(()),
    }
}

/// Appends the path, the offset and the length of a Read.
fn push_read(out: &mut Vec<u8>, path: &Path, off: u64, len: u32) -> Result<(), AllocError>
    ensures spelled { OnOk result (out.new.items
        ≡ out.old.items ++ spaced (operands (asks.Read path.now off len))) }
    ensures back { OnOk result (can_say (asks.Read path.now off len) ≡ true
        → IsSaid (asks.Read path.now off len)) }
{
    spell_path(out, path)?;
    spell_long(out, off)?;
    spell_short(out, len)
}

/// Appends the path, the place and the bytes of a Write.
fn push_write(
    out: &mut Vec<u8>,
    path: &Path,
    place: Place,
    bytes: &Payload,
) -> Result<(), AllocError>
    ensures spelled { OnOk result (out.new.items
        ≡ out.old.items ++ spaced (operands (asks.Write path.now place bytes.now))) }
    ensures back { OnOk result (can_say (asks.Write path.now place bytes.now) ≡ true
        → IsSaid (asks.Write path.now place bytes.now)) }
{
    spell_path(out, path)?;
    match place {
        Place::At(off) => {
            push_word(out, "at")?;
            spell_long(out, off)?;
            spell_bytes(out, bytes)
        }
        Place::End => {
            push_word(out, "end")?;
            spell_bytes(out, bytes)
        }
    }
}

/// Appends the path and the length of a SetLength.
fn push_set_length(out: &mut Vec<u8>, path: &Path, len: u64) -> Result<(), AllocError>
    ensures spelled { OnOk result (out.new.items
        ≡ out.old.items ++ spaced (operands (asks.SetLength path.now len))) }
    ensures back { OnOk result (can_say (asks.SetLength path.now len) ≡ true
        → IsSaid (asks.SetLength path.now len)) }
{
    spell_path(out, path)?;
    spell_long(out, len)
}

/// Appends a path and a mode.
fn push_path_and_mode(out: &mut Vec<u8>, path: &Path, mode: Mode) -> Result<(), AllocError>
    ensures spelled { OnOk result (out.new.items ≡ out.old.items
        ++ spaced (path_word path.now ∷ mode_text mode ∷ [])) }
    ensures path { OnOk result (can_spell path.now ≡ true
        → ReadsBack path_of (path_word path.now) path.now) }
    ensures mode { OnOk result (ReadsBack mode_of (mode_text mode) mode) }
{
    spell_path(out, path)?;
    spell_mode(out, mode)
}

/// Appends both paths of a Rename.
fn push_rename(out: &mut Vec<u8>, from: &Path, to: &Path) -> Result<(), AllocError>
    ensures spelled { OnOk result (out.new.items
        ≡ out.old.items ++ spaced (operands (asks.Rename from.now to.now))) }
    ensures back { OnOk result (can_say (asks.Rename from.now to.now) ≡ true
        → IsSaid (asks.Rename from.now to.now)) }
{
    spell_path(out, from)?;
    spell_path(out, to)
}

/// Appends the path, the user and the group of a Chown.
fn push_chown(out: &mut Vec<u8>, path: &Path, uid: u32, gid: u32) -> Result<(), AllocError>
    ensures spelled { OnOk result (out.new.items
        ≡ out.old.items ++ spaced (operands (asks.Chown path.now uid gid))) }
    ensures back { OnOk result (can_say (asks.Chown path.now uid gid) ≡ true
        → IsSaid (asks.Chown path.now uid gid)) }
{
    spell_path(out, path)?;
    spell_short(out, uid)?;
    spell_short(out, gid)
}

/// Appends the path and the flags of a Chflags.
fn push_chflags(out: &mut Vec<u8>, path: &Path, flags: FileFlags) -> Result<(), AllocError>
    ensures spelled { OnOk result (out.new.items
        ≡ out.old.items ++ spaced (operands (asks.Chflags path.now flags))) }
    ensures back { OnOk result (can_say (asks.Chflags path.now flags) ≡ true
        → IsSaid (asks.Chflags path.now flags)) }
{
    spell_path(out, path)?;
    spell_flags(out, flags)
}
