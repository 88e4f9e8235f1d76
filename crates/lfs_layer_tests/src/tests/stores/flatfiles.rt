//! What no clause says of the plain store: that its calls succeed, with values worked out by hand.

ghost use Rattle.std.specs.Prelude.{◌≡◌};
ghost use Rattle.lfs_flatfiles.specs.FlatFiles.{opening_state};

use crate::tests::expect_eq;
use lfs_flatfiles::flat_files::FlatFiles;
use lfs_types::attrs::{Attrs, Kind};
use lfs_types::fault::FormatFault;
use lfs_types::file_flags::FileFlags;
use lfs_types::mode::Mode;
use lfs_types::store::{Change, FileStore, Reserve};
use std::alloc::Global;
use std::process::Abort;

/// Why a store is not made, if it is not.
fn fault_of(alloc: Global, inodes: u32) -> Option<FormatFault> {
    FlatFiles::new(alloc, inodes).err()
}

#[test]
fn takes_16_to_4096_inode_numbers(rt: HostRuntime) {
    expect_eq(&rt, fault_of(rt.alloc(), 15), Some(FormatFault::TooFew));
    expect_eq(&rt, fault_of(rt.alloc(), 16), None);
    expect_eq(&rt, fault_of(rt.alloc(), 4096), None);
    expect_eq(&rt, fault_of(rt.alloc(), 4097), Some(FormatFault::TooMany));
}

/// A new store with 16 inode numbers.
fn fresh(rt: &impl Abort, alloc: Global) -> FlatFiles
    ensures { ⟦<FlatFiles as FileStore>⟧.state result ≡ opening_state 16 }
{
    match FlatFiles::new(alloc, 16) {
        Ok(store) => store,
        Err(_) => panic!(rt; "no store"),
    }
}

/// The root directory of a new store.
fn root_attrs(rt: &impl Abort) -> Attrs {
    Attrs {
        kind: Kind::Directory,
        uid: 0,
        gid: 0,
        mode: Mode::new(0o755).expect(rt, "a mode"),
        flags: FileFlags::none(),
        size: 0,
    }
}

#[test]
fn a_new_store_has_the_root_alone(rt: HostRuntime) {
    let root = root_attrs(&rt);
    let store = fresh(&rt, rt.alloc());
    expect_eq(&rt, store.attrs(2), Some(root));
    expect_eq(&rt, store.attrs(3), None);
    expect_eq(&rt, store.attrs(16), None);
    expect_eq(&rt, store.least_free(), Some(4));
    expect_eq(&rt, store.clean_segments(), 1024);
}

#[test]
fn sync_succeeds(rt: HostRuntime) {
    let mut store = fresh(&rt, rt.alloc());
    expect_eq(&rt, store.sync(), Ok(()));
    expect_eq(&rt, store.least_free(), Some(4));
}

/// The attributes of a file of user 7 and group 8, with a size that counts for nothing.
fn attrs_of(rt: &impl Abort, mode: u16) -> Attrs
    ensures { result.kind ≡ Kind.File }
{
    Attrs {
        kind: Kind::File,
        uid: 7,
        gid: 8,
        mode: Mode::new(mode).expect(rt, "a mode"),
        flags: FileFlags::none(),
        size: 99,
    }
}

/// Reads file 4 from a place on, and asserts how many bytes there were.
fn expect_read(rt: &impl Abort, store: &mut FlatFiles, off: u64, into: &mut [u8], count: usize)
    ensures { ⟦<FlatFiles as FileStore>⟧.state store.new ≡ ⟦<FlatFiles as FileStore>⟧.state store.old }
{
    assert!(rt; store.attrs(4).is_some());
    expect_eq(rt, store.read(4, off, into), count);
}

#[test]
fn applies_changes_in_order(rt: HostRuntime) {
    let mut store = fresh(&rt, rt.alloc());
    let made = attrs_of(&rt, 0o600);
    let set = attrs_of(&rt, 0o644);
    let changes = [
        Change::Make {
            ino: 4,
            attrs: made,
        },
        Change::Put {
            ino: 4,
            off: 0,
            bytes: b"abc",
        },
        Change::Put {
            ino: 4,
            off: 5,
            bytes: b"xy",
        },
        Change::SetAttrs { ino: 4, attrs: set },
    ];
    store.apply(&changes, Reserve::Users).expect(&rt, "room");
    let shown = Attrs {
        size: 7,
        ..attrs_of(&rt, 0o644)
    };
    expect_eq(&rt, store.attrs(4), Some(shown));
    expect_eq(&rt, store.least_free(), Some(5));
    let mut bytes = [9; 9];
    expect_read(&rt, &mut store, 1, &mut bytes, 6);
    expect_eq(&rt, bytes, [b'b', b'c', 0, 0, b'x', b'y', 9, 9, 9]);
    expect_read(&rt, &mut store, 7, &mut bytes, 0);
    expect_read(&rt, &mut store, u64::MAX, &mut bytes, 0);
    expect_read(&rt, &mut store, 2, &mut bytes[..2], 2);
    expect_eq(&rt, bytes, [b'c', 0, 0, 0, b'x', b'y', 9, 9, 9]);
}

#[test]
fn knows_the_least_free_number(rt: HostRuntime) {
    let mut store = fresh(&rt, rt.alloc());
    let first = [Change::Make {
        ino: 5,
        attrs: attrs_of(&rt, 0o600),
    }];
    store.apply(&first, Reserve::Users).expect(&rt, "room");
    assert_eq!(rt; store.least_free(), Some(4));
    let second = [Change::Make {
        ino: 4,
        attrs: attrs_of(&rt, 0o600),
    }];
    store.apply(&second, Reserve::Users).expect(&rt, "room");
    expect_eq(&rt, store.least_free(), Some(6));
}

#[test]
fn shows_zeros_where_a_file_was_cut(rt: HostRuntime) {
    let mut store = fresh(&rt, rt.alloc());
    let made = attrs_of(&rt, 0o600);
    let cut = [
        Change::Make {
            ino: 4,
            attrs: made,
        },
        Change::Put {
            ino: 4,
            off: 0,
            bytes: b"abcd",
        },
        Change::SetLength { ino: 4, len: 1 },
    ];
    store.apply(&cut, Reserve::Users).expect(&rt, "room");
    let shown = attrs_of(&rt, 0o600);
    assert_eq!(rt; store.attrs(4), Some(Attrs { size: 1, ..shown }));
    let mut bytes = [9; 5];
    expect_read(&rt, &mut store, 0, &mut bytes, 1);
    expect_eq(&rt, bytes, [b'a', 9, 9, 9, 9]);
    let grown = [Change::SetLength { ino: 4, len: 4 }];
    store.apply(&grown, Reserve::Users).expect(&rt, "room");
    expect_eq(&rt, store.attrs(4), Some(Attrs { size: 4, ..shown }));
    expect_read(&rt, &mut store, 0, &mut bytes, 4);
    expect_eq(&rt, bytes, [b'a', 0, 0, 0, 9]);
}

#[test]
fn gives_out_a_removed_number(rt: HostRuntime) {
    let mut store = fresh(&rt, rt.alloc());
    let made = attrs_of(&rt, 0o600);
    let first = [
        Change::Make {
            ino: 4,
            attrs: made,
        },
        Change::Put {
            ino: 4,
            off: 0,
            bytes: b"abc",
        },
    ];
    store.apply(&first, Reserve::Users).expect(&rt, "room");
    assert_eq!(rt; store.least_free(), Some(5));
    let removed = [Change::Remove { ino: 4 }];
    store
        .apply(&removed, Reserve::Users)
        .expect(&rt, "no room wanted");
    assert_eq!(rt; store.attrs(4), None);
    assert_eq!(rt; store.least_free(), Some(4));
    let second = [Change::Make {
        ino: 4,
        attrs: attrs_of(&rt, 0o644),
    }];
    store.apply(&second, Reserve::Users).expect(&rt, "room");
    assert_eq!(rt; store.least_free(), Some(5));
    expect_read(&rt, &mut store, 0, &mut [9; 3], 0);
}
