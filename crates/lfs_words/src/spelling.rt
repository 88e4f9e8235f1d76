//! Words that are appended to a text, each behind a space, and that are read back as the value that they spell.

ghost use Rattle.std.specs.Prelude.{◌≡◌, ◌≤◌, ◌∷◌, ◌++◌, decimal, length, None, true, OnOk, map};
ghost use Rattle.std.specs.List.{list_all};
ghost use Rattle.lfs_types.specs.Naming.{name_fault};
ghost use Rattle.lfs_types.specs.Paths.{names_fault, path_text, slashed};
ghost use Rattle.lfs_words.specs.BytesText.{bytes_of, bytes_text};
ghost use Rattle.lfs_words.specs.FlagText.{flags_of};
ghost use Rattle.lfs_words.specs.LevelText.{level_text, level_word};
ghost use Rattle.lfs_words.specs.NameText.{flags_text, mode_text, name_text};
ghost use Rattle.lfs_words.specs.Numbers.{long_of, mode_of, short_of};
ghost use Rattle.lfs_words.specs.PathText.{can_spell, path_of, path_word};
ghost use Rattle.lfs_words.specs.Spelling.{ReadsBack};
ghost use Rattle.lfs_words.specs.Wording.{is_word_byte};

use crate::append::{push_bytes, push_flags, push_mode, push_name_text, push_number, push_word};
use lfs_types::file_flags::FileFlags;
use lfs_types::level::Level;
use lfs_types::mode::Mode;
use lfs_types::name::Name;
use lfs_types::path::Path;
use lfs_types::payload::Payload;
use std::alloc::AllocError;

/// Appends a number below 2^64.
pub fn spell_long(out: &mut Vec<u8>, number: u64) -> Result<(), AllocError>
    ensures spelled { OnOk result (out.new.items ≡ out.old.items ++ 32 ∷ decimal number) }
    ensures back { ReadsBack long_of (decimal number) number }
{
    push_number(out, number)
}

/// Appends a number below 2^32.
pub fn spell_short(out: &mut Vec<u8>, number: u32) -> Result<(), AllocError>
    ensures spelled { OnOk result (out.new.items ≡ out.old.items ++ 32 ∷ decimal number) }
    ensures back { ReadsBack short_of (decimal number) number }
{
    push_number(out, u64::from(number))
}

/// Appends a mode.
pub fn spell_mode(out: &mut Vec<u8>, mode: Mode) -> Result<(), AllocError>
    ensures spelled { OnOk result (out.new.items ≡ out.old.items ++ 32 ∷ mode_text mode) }
    ensures back { ReadsBack mode_of (mode_text mode) mode }
{
    push_mode(out, mode)
}

/// Appends flags.
pub fn spell_flags(out: &mut Vec<u8>, flags: FileFlags) -> Result<(), AllocError>
    ensures spelled { OnOk result (out.new.items ≡ out.old.items ++ 32 ∷ flags_text flags) }
    ensures back { ReadsBack flags_of (flags_text flags) flags }
{
    push_flags(out, flags)
}

/// Appends the bytes of a Write.
pub fn spell_bytes(out: &mut Vec<u8>, bytes: &Payload) -> Result<(), AllocError>
    ensures spelled { OnOk result (out.new.items ≡ out.old.items ++ 32 ∷ bytes_text bytes.now) }
    ensures back { ReadsBack bytes_of (bytes_text bytes.now) bytes.now }
{
    spell_slice(out, bytes.as_slice())
}

/// Appends bytes.
fn spell_slice(out: &mut Vec<u8>, bytes: &[u8]) -> Result<(), AllocError>
    ensures spelled { OnOk result (out.new.items ≡ out.old.items ++ 32 ∷ bytes_text bytes.now) }
    ensures back { length bytes.now ≤ 4096
        → ReadsBack bytes_of (bytes_text bytes.now) bytes.now }
{
    push_bytes(out, bytes)
}

/// Appends a securelevel.
pub fn spell_level(out: &mut Vec<u8>, level: Level) -> Result<(), AllocError>
    ensures spelled { OnOk result (out.new.items ≡ out.old.items ++ 32 ∷ level_text level) }
    ensures back { ReadsBack level_word (level_text level) level }
{
    push_word(out, level_text(level))
}

/// The word of a securelevel.
fn level_text(level: Level) -> &'static str
    ensures { result.now ≡ level_text level }
{
    match level {
        Level::PermanentlyInsecure => "-1",
        Level::Insecure => "0",
        Level::Secure => "1",
        Level::HighlySecure => "2",
    }
}

/// Appends a path: as a script spells it where it can, which is read back. Else `%`, and each name behind a slash as a
/// List's answer has it; a script has no such word.
pub fn spell_path(out: &mut Vec<u8>, path: &Path) -> Result<(), AllocError>
    ensures spelled { OnOk result (out.new.items ≡ out.old.items ++ 32 ∷ path_word path.now) }
    ensures back { can_spell path.now ≡ true → ReadsBack path_of (path_word path.now) path.now }
{
    let names = path.names();
    if can_spell(names) {
        push_spelled(out, names)
    } else {
        push_escaped(out, names)
    }
}

/// Whether a script can spell names.
fn can_spell(names: &[Name]) -> bool
    ensures value { result ≡ can_spell names.now }
    ensures valid { result ≡ true → names_fault 1 names.now ≡ None }
{
    for name in names {
        if !has_word_bytes_alone(name) {
            return false;
        }
    }
    true
}

/// Whether each byte of a name may stand in a word.
fn has_word_bytes_alone(name: &Name) -> bool
    ensures value { result ≡ list_all is_word_byte name.now }
    ensures valid { name_fault name.now ≡ None }
{
    are_word_bytes(name.as_bytes())
}

/// Whether each byte may stand in a word.
fn are_word_bytes(bytes: &[u8]) -> bool
    ensures { result ≡ list_all is_word_byte bytes.now }
{
    bytes.iter().all(|byte| *byte >= 0x21 && *byte <= 0x7e)
}

/// Appends names as the path that they are.
fn push_spelled(out: &mut Vec<u8>, names: &[Name]) -> Result<(), AllocError>
    ensures { OnOk result (out.new.items ≡ out.old.items ++ 32 ∷ path_text names.now) }
{
    if names.is_empty() {
        return push_word(out, "/");
    }
    out.push(b' ')?;
    for name in names {
        out.push(b'/')?;
        out.extend_from_slice(name.as_bytes())?;
    }
    Ok(())
}

/// Appends `%` and names as a List's answer has them.
fn push_escaped(out: &mut Vec<u8>, names: &[Name]) -> Result<(), AllocError>
    ensures { OnOk result (out.new.items
        ≡ out.old.items ++ 32 ∷ 37 ∷ slashed (map name_text names.now)) }
{
    push_word(out, "%")?;
    for name in names {
        out.push(b'/')?;
        push_name_text(out, name)?;
    }
    Ok(())
}
