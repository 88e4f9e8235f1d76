//! What is known of attributes follows the changes of a content.

ghost use Rattle.std.specs.Prelude.{◌≡◌, ◌≤◌, ◌+◌, Some, IfSome, option_map};
ghost use Rattle.lfs_types.specs.Changes.{applied, changed};
ghost use Rattle.lfs_types.specs.Tree.{Content};
ghost use Rattle.lfs_types.specs.declared.attrs.Attrs.{Attrs};
ghost use Rattle.lfs_known.specs.Says.{SaysTheSame, kept_of, says};
ghost use Rattle.lfs_known.specs.Shown.{AreShown};

use crate::slots::Slots;
use lfs_types::attrs::Attrs;
use lfs_types::store::Change;

/// What is known of the attributes of inode numbers.
pub type AttrCache = Slots<Attrs>;

/// Follows changes that were made, in order: what is known of a content is so of that with the changes.
pub fn follow_attributes(cache: &mut AttrCache, changes: &[Change<'_>])
    ensures { (c : Content) → AreShown cache.old c → AreShown cache.new (applied changes.now c) }
{
    for change in changes {
        follow_one(cache, change);
    }
}

/// Follows a change.
fn follow_one(cache: &mut AttrCache, change: &Change<'_>)
    ensures { (c : Content) → AreShown cache.old c → AreShown cache.new (changed change.now c) }
{
    match *change {
        Change::Make { ino, attrs } => cache.enter(ino, Attrs { size: 0, ..attrs }),
        Change::Remove { ino } => cache.forget(ino),
        Change::SetAttrs { ino, attrs } => set_attrs(cache, ino, attrs),
        Change::Put { ino, off, bytes } => put_bytes(cache, ino, off, bytes.len() as u64),
        Change::SetLength { ino, len } => set_size(cache, ino, len),
    }
}

/// A number has these attributes, and the size that it had.
fn set_attrs(cache: &mut AttrCache, ino: u32, attrs: Attrs)
    ensures set { says cache.new ino ≡ kept_of ino
        (option_map (λ (old : Attrs). record attrs { size = old.size }) (says cache.old ino)) }
    ensures others { SaysTheSame cache.old cache.new ino }
{
    if let Some(Attrs { size, .. }) = cache.look(ino) {
        cache.enter(ino, Attrs { size, ..attrs });
    }
}

/// A number has this size.
fn set_size(cache: &mut AttrCache, ino: u32, size: u64)
    ensures set { says cache.new ino ≡ kept_of ino
        (option_map (λ (old : Attrs). record old { size = size }) (says cache.old ino)) }
    ensures others { SaysTheSame cache.old cache.new ino }
{
    if let Some(attrs) = cache.look(ino) {
        cache.enter(ino, Attrs { size, ..attrs });
    }
}

/// So many bytes were put into a file. Where they reached past its end, nothing is known of it any more.
fn put_bytes(cache: &mut AttrCache, ino: u32, off: u64, len: u64)
    ensures within { IfSome (says cache.new ino)
        (λ attrs. (says cache.old ino ≡ Some attrs) × (off + len ≤ attrs.size)) }
    ensures others { SaysTheSame cache.old cache.new ino }
{
    if let Some(attrs) = cache.look(ino)
        && (off > attrs.size || len > attrs.size - off)
    {
        cache.forget(ino);
    }
}
