//! Stores that show a tree, and stores that show none: what is wrong with each is worked out by hand.

ghost use Rattle.std.specs.Prelude.{◌≡◌};

use super::{block_of, expect_eq, fresh_log, mode};
use lfs_flatfiles::flat_files::FlatFiles;
use lfs_trees::checking::check_tree;
use lfs_trees::fault::TreeFault;
use lfs_types::attrs::{Attrs, Kind};
use lfs_types::file_flags::FileFlags;
use lfs_types::store::{Change, FileStore, Reserve};
use std::alloc::Global;
use std::process::Abort;

/// A new store with 16 inode numbers.
fn fresh(rt: &impl Abort, alloc: Global) -> FlatFiles
    ensures { (⟦<FlatFiles as FileStore>⟧.state result).shape.numbers ≡ 16 }
{
    match FlatFiles::new(alloc, 16) {
        Ok(store) => store,
        Err(_) => panic!(rt; "no store"),
    }
}

/// Puts an empty file or directory at a number.
fn make(rt: &impl Abort, store: &mut FlatFiles, ino: u32, kind: Kind)
    requires { (⟦<FlatFiles as FileStore>⟧.state store.old).shape.numbers ≡ 16 }
    ensures { (⟦<FlatFiles as FileStore>⟧.state store.new).shape.numbers ≡ 16 }
{
    let attrs = Attrs {
        kind,
        uid: 7,
        gid: 8,
        mode: mode(0o755),
        flags: FileFlags::none(),
        size: 0,
    };
    assert!(rt; ino >= 4);
    assert!(rt; ino < 16);
    assert!(rt; store.attrs(ino).is_none());
    let changes = [Change::Make { ino, attrs }];
    store.apply(&changes, Reserve::Users).expect(rt, "room");
}

/// Takes a number's file away.
fn remove(rt: &impl Abort, store: &mut FlatFiles, ino: u32)
    requires { (⟦<FlatFiles as FileStore>⟧.state store.old).shape.numbers ≡ 16 }
    ensures { (⟦<FlatFiles as FileStore>⟧.state store.new).shape.numbers ≡ 16 }
{
    assert!(rt; store.attrs(ino).is_some());
    let changes = [Change::Remove { ino }];
    store.apply(&changes, Reserve::Users).expect(rt, "room");
}

/// Puts a block that begins with these bytes behind those of a directory.
fn list(rt: &impl Abort, store: &mut FlatFiles, ino: u32, entries: &[u8])
    requires { (⟦<FlatFiles as FileStore>⟧.state store.old).shape.numbers ≡ 16 }
    ensures { (⟦<FlatFiles as FileStore>⟧.state store.new).shape.numbers ≡ 16 }
{
    let block = block_of(entries);
    let Some(Attrs { size, .. }) = store.attrs(ino) else {
        panic!(rt; "no such number")
    };
    assert!(rt; size <= 8192);
    assert!(rt; size % 512 == 0);
    let changes = [Change::Put {
        ino,
        off: size,
        bytes: &block,
    }];
    store.apply(&changes, Reserve::Users).expect(rt, "room");
}

/// Asserts what the check of a store says.
fn expect_check(
    rt: &impl Abort,
    alloc: Global,
    store: &mut FlatFiles,
    wanted: Result<(), TreeFault>,
)
    requires { (⟦<FlatFiles as FileStore>⟧.state store.old).shape.numbers ≡ 16 }
    ensures { (⟦<FlatFiles as FileStore>⟧.state store.new).shape.numbers ≡ 16 }
{
    expect_eq(rt, check_tree(alloc, store, 16), wanted);
}

#[test]
fn fresh_stores_show_a_tree(rt: HostRuntime) {
    let alloc = rt.alloc();
    expect_check(&rt, alloc, &mut fresh(&rt, alloc), Ok(()));
    let mut store = fresh_log(&rt, alloc);
    expect_eq(&rt, check_tree(alloc, &mut store, 16), Ok(()));
}

#[test]
fn tree_of_two_directories_is_one(rt: HostRuntime) {
    let alloc = rt.alloc();
    let mut store = fresh(&rt, alloc);
    make(&rt, &mut store, 4, Kind::Directory);
    make(&rt, &mut store, 5, Kind::File);
    make(&rt, &mut store, 6, Kind::File);
    list(&rt, &mut store, 2, b"\0\0\0\x04\x01a\0\0\0\x05\x02ab");
    expect_check(
        &rt,
        alloc,
        &mut store,
        Err(TreeFault::Unreached { number: 6 }),
    );
    list(&rt, &mut store, 4, b"\0\0\0\x06\x01a");
    expect_check(&rt, alloc, &mut store, Ok(()));
}

#[test]
fn directories_that_list_each_other_are_not_reached(rt: HostRuntime) {
    let alloc = rt.alloc();
    let mut store = fresh(&rt, alloc);
    make(&rt, &mut store, 5, Kind::Directory);
    make(&rt, &mut store, 7, Kind::Directory);
    list(&rt, &mut store, 5, b"\0\0\0\x07\x01a");
    list(&rt, &mut store, 7, b"\0\0\0\x05\x01a");
    expect_check(
        &rt,
        alloc,
        &mut store,
        Err(TreeFault::Unreached { number: 5 }),
    );
}

#[test]
fn number_may_be_listed_once(rt: HostRuntime) {
    let alloc = rt.alloc();
    let mut store = fresh(&rt, alloc);
    make(&rt, &mut store, 4, Kind::Directory);
    make(&rt, &mut store, 5, Kind::File);
    list(&rt, &mut store, 2, b"\0\0\0\x04\x01a\0\0\0\x05\x01b");
    list(&rt, &mut store, 4, b"\0\0\0\x05\x01c");
    expect_check(
        &rt,
        alloc,
        &mut store,
        Err(TreeFault::NumberTwice { number: 5 }),
    );
}

#[test]
fn name_may_be_listed_once_in_all_blocks(rt: HostRuntime) {
    let alloc = rt.alloc();
    let mut store = fresh(&rt, alloc);
    make(&rt, &mut store, 4, Kind::File);
    make(&rt, &mut store, 5, Kind::File);
    list(&rt, &mut store, 2, b"\0\0\0\x04\x02ab");
    list(&rt, &mut store, 2, b"\0\0\0\x05\x02ab");
    let fault = TreeFault::NameTwice {
        directory: 2,
        number: 5,
    };
    expect_check(&rt, alloc, &mut store, Err(fault));
}

#[test]
fn listed_number_is_in_use_and_not_the_root(rt: HostRuntime) {
    let alloc = rt.alloc();
    let mut store = fresh(&rt, alloc);
    list(&rt, &mut store, 2, b"\0\0\x01\x09\x01a");
    let fault = TreeFault::Unused {
        directory: 2,
        number: 265,
    };
    expect_check(&rt, alloc, &mut store, Err(fault));
    let mut store = fresh(&rt, alloc);
    list(&rt, &mut store, 2, b"\0\0\0\x02\x01a");
    expect_check(
        &rt,
        alloc,
        &mut store,
        Err(TreeFault::RootListed { directory: 2 }),
    );
}

#[test]
fn blocks_are_directory_blocks(rt: HostRuntime) {
    let alloc = rt.alloc();
    let mut store = fresh(&rt, alloc);
    make(&rt, &mut store, 4, Kind::File);
    list(&rt, &mut store, 2, b"\0\0\0\x04\x01a");
    list(&rt, &mut store, 2, b"\0\0\0\x05\x01/");
    let fault = TreeFault::Block {
        directory: 2,
        index: 1,
    };
    expect_check(&rt, alloc, &mut store, Err(fault));
}

#[test]
fn root_is_a_directory(rt: HostRuntime) {
    let alloc = rt.alloc();
    let mut store = fresh(&rt, alloc);
    remove(&rt, &mut store, 2);
    expect_check(&rt, alloc, &mut store, Err(TreeFault::Root));
}
