//! Block infos in scripts.

ghost use Rattle.std.specs.Prelude.{◌≡◌, ◌∷◌, ◌++◌, decimal, map, OnOk};
ghost use Rattle.lfs_words.specs.Faults.{ReadsAs};
ghost use Rattle.lfs_words.specs.Infos.{AreReadBack, IsShortInfo, are_decimals, info_from, info_of, info_of_parts, info_text, infos_within};
ghost use Rattle.lfs_words.specs.Wording.{spaced};

use crate::append::{push_decimal, push_number};
use crate::fault::FaultKind;
use crate::number::{is_decimal, short_decimal};
use crate::words::pieces;
use lfs_types::cleaner::{BlockInfo, BlockInfos};
use std::alloc::{AllocError, Global};

/// The infos that words spell, where the list takes as many.
pub fn infos<const LIMIT: usize>(
    alloc: Global,
    words: &[&str],
) -> Result<BlockInfos<LIMIT>, FaultKind>
    ensures { ReadsAs (infos_within LIMIT (map (λ x. x.now) words.now)) result }
{
    if words.len() > LIMIT {
        return Err(FaultKind::Many);
    }
    let mut infos = BlockInfos::empty();
    for word in words {
        let found = info(alloc, word)?;
        infos.push(found);
    }
    Ok(infos)
}

/// The info that a word spells.
fn info(alloc: Global, word: &str) -> Result<BlockInfo, FaultKind>
    ensures { ReadsAs (info_of word.now) result }
{
    let parts = pieces(alloc, word, ':')?;
    info_of_parts(parts.as_slice())
}

/// The info of parts that are to be four.
fn info_of_parts(parts: &[&str]) -> Result<BlockInfo, FaultKind>
    ensures { result ≡ info_of_parts (map (λ x. x.now) parts.now) }
{
    match parts {
        [ino, version, lbn, addr] => info_from(ino, version, lbn, addr),
        _ => Err(FaultKind::Number),
    }
}

/// The info of four parts: that each is a decimal is asked before any range.
fn info_from(ino: &str, version: &str, lbn: &str, addr: &str) -> Result<BlockInfo, FaultKind>
    ensures { result ≡ info_from ino.now version.now lbn.now addr.now }
{
    if !are_decimals(ino, version, lbn, addr) {
        return Err(FaultKind::Number);
    }
    let ino = short_decimal(ino)?;
    let version = short_decimal(version)?;
    let lbn = short_decimal(lbn)?;
    let addr = short_decimal(addr)?;
    Ok(BlockInfo {
        ino,
        version,
        lbn,
        addr,
    })
}

/// Whether each of four parts is a decimal.
fn are_decimals(first: &str, second: &str, third: &str, fourth: &str) -> bool
    ensures { result ≡ are_decimals first.now second.now third.now fourth.now }
{
    is_decimal(first) && is_decimal(second) && is_decimal(third) && is_decimal(fourth)
}

/// Appends infos, each as a word, which are read back as they are.
pub fn spell_infos(out: &mut Vec<u8>, infos: &[BlockInfo]) -> Result<(), AllocError>
    ensures spelled { OnOk result (out.new.items
        ≡ out.old.items ++ spaced (map info_text infos.now)) }
    ensures back { OnOk result (AreReadBack infos.now) }
{
    for info in infos {
        push_info(out, info)?;
    }
    Ok(())
}

/// Appends an info as a word.
fn push_info(out: &mut Vec<u8>, info: &BlockInfo) -> Result<(), AllocError>
    ensures spelled { OnOk result (out.new.items ≡ out.old.items ++ 32 ∷ info_text info.now) }
    ensures short { OnOk result (IsShortInfo info.now) }
{
    push_number(out, u64::from(info.ino))?;
    push_part(out, info.version)?;
    push_part(out, info.lbn)?;
    push_part(out, info.addr)
}

/// Appends a part of an info behind a colon.
fn push_part(out: &mut Vec<u8>, number: u32) -> Result<(), AllocError>
    ensures { OnOk result (out.new.items ≡ out.old.items ++ 58 ∷ decimal number) }
{
    out.push(b':')?;
    push_decimal(out, u64::from(number))
}
