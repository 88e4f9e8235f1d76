//! Names in a directory.

ghost use Rattle.std.specs.List.{list_any};
ghost use Rattle.std.specs.Prelude.{◌≡◌, ◌==◌, ◌<◌, ◌≤◌, All, false, true, None, length, take, IfOk, MatchOption};
ghost use Rattle.lfs_types.specs.Naming.{ParsesName, name_fault, stops};
ghost use Rattle.lfs_types.specs.NameBytes.{stored_bytes};

use smallvec::SmallVec;
use std::alloc::{AllocError, Global};
use std::marker::Model;
use thiserror::Error;

/// The most bytes that a name may have (4.4BSD's `NAME_MAX`).
pub const NAME_MAX: usize = 255;

/// A name of at most so many bytes lies in the value itself and takes no memory.
const SHORT_BYTES: usize = 14;

/// A longer name of at most so many bytes takes memory once, and one that is longer still twice.
const LONG_BYTES: usize = 40;

/// Why bytes are no name: the first of these that holds (this project's profile).
#[derive(Clone, Copy, PartialEq, Eq, Debug, Error)]
pub enum BadName {
    /// There are no bytes.
    #[error("the name is empty")]
    Empty,
    /// There are more than 255 bytes.
    #[error("the name has more than 255 bytes")]
    Long,
    /// There is a `/`.
    #[error("the name holds a slash")]
    Slash,
    /// There is a zero byte.
    #[error("the name holds a zero byte")]
    Nul,
    /// The bytes are `.` or `..`.
    #[error("the name is . or ..")]
    Dot,
    /// A growth was refused.
    #[error("no memory")]
    Memory,
}

/// At most fourteen bytes, and behind them zeros.
#[derive(Clone, Copy, Debug)]
pub(crate) struct ShortBytes {
    count: u8,
    bytes: [u8; SHORT_BYTES],
}

impl Model for ShortBytes {
    ghost use Rattle.std.specs.Prelude.{◌≡◌, ◌-◌, ◌≤◌, ◌++◌, ℕ, List, length, take, drop, replicate};

    ghost Value = { List ℕ };

    ghost view = { λ s. take s.count s.bytes };

    ghost invariant = { λ s. (length s.bytes ≡ 14) × (s.count ≤ 14)
        × (drop s.count s.bytes ≡ replicate (14 - s.count) 0) };

    ghost inverse = { λ v. record {
      count = length v;
      bytes = v ++ replicate (14 - length v) 0;
    } };

    ghost use Rattle.lfs_types.specs.Padded.{length_front, padded_front};
    ghost use Rattle.std.proofs.Common.{arith};

    ghost inverse_ok = { λ s h. λ i. record {
      count = length_front s.count s.bytes (Prim.omega arith) i;
      bytes = padded_front 14 s.count s.bytes h.0 h.1 h.2 i;
    } };
}

impl ShortBytes {
    /// These bytes, where there are at most fourteen.
    #[inline(always)]
    fn of(bytes: &[u8]) -> Option<ShortBytes>
        ensures { MatchOption result (14 < length bytes.now) (λ short. short ≡ bytes.now) }
    {
        if bytes.len() > SHORT_BYTES {
            return None;
        }
        let mut padded = [0; SHORT_BYTES];
        padded[..bytes.len()].copy_from_slice(bytes);
        Some(ShortBytes {
            count: bytes.len() as u8,
            bytes: padded,
        })
    }

    /// The bytes at the front of a text, up to its first slash or zero byte, or fourteen of them.
    #[inline(always)]
    pub(crate) fn front_of(text: &[u8]) -> ShortBytes
        ensures front { result ≡ take (length result) text.now }
        ensures clean { All (λ b. stops b ≡ false) result }
    {
        let mut bytes = [0; SHORT_BYTES];
        let mut count = 0;
        while count < text.len() && count < SHORT_BYTES && !stops(text[count]) {
            bytes[count] = text[count];
            count += 1;
        }
        ShortBytes {
            count: count as u8,
            bytes,
        }
    }

    /// The bytes.
    #[inline(always)]
    pub(crate) fn as_slice(&self) -> &[u8]
        ensures { result.now ≡ self.now }
    {
        &self.bytes[..usize::from(self.count)]
    }

    /// Whether the bytes, of which none is a slash or zero, are a name.
    #[inline(always)]
    pub(crate) fn is_name(&self) -> bool
        requires { All (λ b. stops b ≡ false) self.now }
        ensures { result ≡ true → name_fault self.now ≡ None }
    {
        fault_of_part(self.as_slice()).is_none()
    }
}

/// Whether a byte is a slash or zero.
#[inline(always)]
fn stops(byte: u8) -> bool
    ensures { result ≡ stops byte }
{
    byte == b'/' || byte == 0
}

/// Where the bytes of a name lie. A name takes sixteen bytes of a path or a list.
#[derive(Drop, Debug)]
enum Stored {
    /// In the value itself.
    Short(ShortBytes),
    /// In memory of their own.
    Long(Box<SmallVec<u8, LONG_BYTES>>),
}

/// A name in a directory: 1 to 255 bytes without `/` and the zero byte, and neither `.` nor `..`.
#[derive(Drop, Debug)]
pub struct Name {
    stored: Stored,
}

impl Model for Name {
    ghost use Rattle.std.specs.Prelude.{◌≡◌, List, ℕ, None};
    ghost use Rattle.lfs_types.specs.Naming.{name_fault};
    ghost use Rattle.lfs_types.specs.NameBytes.{stored_bytes};

    ghost Value = { List ℕ };

    ghost view = { λ n. stored_bytes n.stored };

    ghost invariant = { λ n. name_fault (stored_bytes n.stored) ≡ None };
}

impl Name {
    /// The name that these bytes are, or the first fault in the order of `BadName`.
    #[inline(always)]
    pub fn parse(alloc: Global, bytes: &[u8]) -> Result<Name, BadName>
        ensures { ParsesName bytes.now result }
    {
        if let Some(fault) = fault_of(bytes) {
            return Err(fault);
        }
        match store(alloc, bytes) {
            Ok(stored) => Ok(Name { stored }),
            Err(AllocError) => Err(BadName::Memory),
        }
    }

    /// The name of these bytes, which are one.
    #[inline(always)]
    pub(crate) fn of_short(short: ShortBytes) -> Name
        requires { name_fault short ≡ None }
        ensures { result ≡ short }
    {
        Name {
            stored: Stored::Short(short),
        }
    }

    /// The bytes of the name.
    pub fn as_bytes(&self) -> &[u8]
        ensures value { result.now ≡ self.now }
        ensures valid { name_fault self.now ≡ None }
        ensures some { 0 < length self.now }
        ensures bounded { length self.now ≤ 255 }
    {
        bytes_of(&self.stored)
    }

    /// A name equal to this one.
    pub fn try_clone(&self, alloc: Global) -> Result<Name, AllocError>
        ensures { IfOk result (λ copy. copy ≡ self.now) }
    {
        let stored = match &self.stored {
            Stored::Short(short) => Stored::Short(*short),
            Stored::Long(long) => stored_long(alloc, long.as_slice())?,
        };
        Ok(Name { stored })
    }
}

/// Bytes, stored for a name.
#[inline(always)]
fn store(alloc: Global, bytes: &[u8]) -> Result<Stored, AllocError>
    ensures { IfOk result (λ stored. stored_bytes stored ≡ bytes.now) }
{
    match ShortBytes::of(bytes) {
        Some(short) => Ok(Stored::Short(short)),
        None => stored_long(alloc, bytes),
    }
}

/// Bytes, stored in memory of their own.
fn stored_long(alloc: Global, bytes: &[u8]) -> Result<Stored, AllocError>
    ensures { IfOk result (λ stored. stored_bytes stored ≡ bytes.now) }
{
    let long = SmallVec::from_slice(alloc, bytes)?;
    Ok(Stored::Long(Box::new(alloc, long)?))
}

/// The bytes that are stored.
#[inline(always)]
fn bytes_of(stored: &Stored) -> &[u8]
    ensures { result.now ≡ stored_bytes stored.now }
{
    match stored {
        Stored::Short(short) => short.as_slice(),
        Stored::Long(long) => long.as_slice(),
    }
}

/// Names equal to these.
pub fn clone_names(alloc: Global, names: &[Name]) -> Result<Vec<Name>, AllocError>
    ensures { IfOk result (λ copies. copies.items ≡ names.now) }
{
    let mut copies = Vec::with_capacity(alloc, names.len())?;
    for name in names {
        copies.push(name.try_clone(alloc)?)?;
    }
    Ok(copies)
}

/// The first fault of bytes that are to be a name.
#[inline(always)]
fn fault_of(bytes: &[u8]) -> Option<BadName>
    ensures { result ≡ name_fault bytes.now }
{
    if bytes.is_empty() {
        return Some(BadName::Empty);
    }
    if bytes.len() > NAME_MAX {
        return Some(BadName::Long);
    }
    if bytes.contains(&b'/') {
        return Some(BadName::Slash);
    }
    if bytes.contains(&0) {
        return Some(BadName::Nul);
    }
    match bytes {
        [b'.'] | [b'.', b'.'] => Some(BadName::Dot),
        _ => None,
    }
}

/// The first fault of bytes that are to be a name, and hold neither a slash nor a zero byte.
#[inline(always)]
fn fault_of_part(bytes: &[u8]) -> Option<BadName>
    requires no_slash { list_any (λ b. b == 47) bytes.now ≡ false }
    requires no_nul { list_any (λ b. b == 0) bytes.now ≡ false }
    ensures { result ≡ name_fault bytes.now }
{
    if bytes.len() > NAME_MAX {
        return Some(BadName::Long);
    }
    match bytes {
        [] => Some(BadName::Empty),
        [b'.'] | [b'.', b'.'] => Some(BadName::Dot),
        _ => None,
    }
}

impl PartialEq for Name {
    ghost use Rattle.std.specs.Prelude.{nat_eq};
    ghost use Rattle.std.specs.Cmp.Lexicographic.{pointwise};
    ghost use Rattle.std.proofs.Common.{rules};
    ghost use Rattle.std.specs.Cmp.Rules.{comparing};

    ghost eq = { pointwise nat_eq };

    ghost laws = { Prim.search (comparing, rules) };

    fn eq(&self, other: &Name) -> bool {
        self.as_bytes() == other.as_bytes()
    }
}

impl Eq for Name {
    ghost use Rattle.std.proofs.Common.{rules};
    ghost use Rattle.std.specs.Cmp.Rules.{comparing};

    ghost laws = { Prim.search (comparing, rules) };
}
