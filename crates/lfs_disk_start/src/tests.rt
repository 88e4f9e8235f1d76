//! A volume that outlives its store, and files in which none is found.

use crate::{StartFault, Started, start};
use lfs_disk_store::DiskStore;
use lfs_file_disk::{FileDisk, FileFault};
use lfs_rescue::RecoverFault;
use lfs_types::attrs::{Attrs, Kind};
use lfs_types::file_flags::FileFlags;
use lfs_types::mode::Mode;
use lfs_types::store::{Change, FileStore, Params, Reserve};
use std::fs::{self, File};
use std::process::Abort;
use std::test::Fail;

/// The folder of a test, and the file of its disk.
const FOLDER: &str = "lfs_disk_start_test";

const PATH: &str = "lfs_disk_start_test/blocks";

/// Those of another.
const OTHERS: &str = "lfs_disk_start_others";

const ODD: &str = "lfs_disk_start_others/odd";

/// The least numbers of a volume.
const LEAST: Params = Params {
    segments: 6,
    inodes: 16,
    frames: 32,
    journal: 16,
};

/// The root's number.
const ROOT: u32 = 2;

/// A store on a file.
type Stored = DiskStore<FileDisk<File>>;

/// Makes an empty file, and gives its number.
fn make(rt: &impl Abort, store: &mut Stored) -> u32 {
    let Some(ino) = store.least_free() else {
        panic!(rt; "no number")
    };
    let attrs = Attrs {
        kind: Kind::File,
        uid: 7,
        gid: 7,
        mode: Mode::new(0o644).expect(rt, "a mode"),
        flags: FileFlags::none(),
        size: 0,
    };
    let made = store.apply(&[Change::Make { ino, attrs }], Reserve::Users);
    assert!(rt; made.is_ok());
    ino
}

/// Puts bytes into a file.
fn put(rt: &impl Abort, store: &mut Stored, ino: u32, bytes: &[u8]) {
    let Some(attrs) = store.attrs(ino) else {
        panic!(rt; "no file")
    };
    assert!(rt; !attrs.kind.is_directory());
    assert!(rt; attrs.size <= 65_536);
    assert!(rt; bytes.len() <= 4_096);
    let change = Change::Put { ino, off: 0, bytes };
    assert!(rt; store.apply(&[change], Reserve::Users).is_ok());
}

/// Gives the file of a number the one name `f` in the root directory.
fn name(rt: &impl Abort, store: &mut Stored, number: u8) {
    let mut block = [0; 512];
    block[3] = number;
    block[4] = 1;
    block[5] = b'f';
    let Some(root) = store.attrs(ROOT) else {
        panic!(rt; "no root")
    };
    assert!(rt; root.kind.is_directory());
    assert!(rt; root.size == 0);
    let change = Change::Put {
        ino: ROOT,
        off: 0,
        bytes: &block,
    };
    assert!(rt; store.apply(&[change], Reserve::Users).is_ok());
}

/// Asserts that a file has these three bytes.
fn expect_bytes(rt: &impl Abort, store: &mut Stored, ino: u32, wanted: [u8; 3]) {
    assert!(rt; store.attrs(ino).is_some());
    let mut bytes = [0; 3];
    assert!(rt; store.read(ino, 0, &mut bytes) == 3);
    assert!(rt; bytes == wanted);
}

#[test]
fn volume_outlives_its_store(rt: HostRuntime) -> Result<(), Fail> {
    let alloc = rt.alloc();
    let _ = fs::remove_dir_all(&rt, FOLDER);
    fs::create_dir(&rt, FOLDER)?;
    let Started { store, is_found } = start(&rt, alloc, PATH, LEAST)?;
    assert!(rt; !is_found);
    let mut store = Box::new(alloc, store)?;
    let ino = make(&rt, &mut store);
    assert!(rt; ino == 4);
    name(&rt, &mut store, 4);
    put(&rt, &mut store, ino, b"abc");
    assert!(rt; store.sync().is_ok());
    put(&rt, &mut store, ino, b"xyz");
    assert!(rt; store.fault().is_none());
    drop(store);
    let Started { store, is_found } = start(&rt, alloc, PATH, LEAST)?;
    assert!(rt; is_found);
    let mut again = Box::new(alloc, store)?;
    expect_bytes(&rt, &mut again, ino, *b"abc");
    drop(again);
    fs::remove_dir_all(&rt, FOLDER)?;
    Ok(())
}

#[test]
fn file_without_a_volume_is_left_as_it_is(rt: HostRuntime) -> Result<(), Fail> {
    let alloc = rt.alloc();
    let _ = fs::remove_dir_all(&rt, OTHERS);
    fs::create_dir(&rt, OTHERS)?;
    fs::write(&rt, ODD, b"odd".as_slice())?;
    let odd = start(&rt, alloc, ODD, LEAST).err();
    assert!(rt; odd == Some(StartFault::File(FileFault::Length)));
    assert!(rt; fs::read(&rt, ODD)?.as_slice() == b"odd".as_slice());
    fs::write(&rt, ODD, [0; 512].as_slice())?;
    let short = start(&rt, alloc, ODD, LEAST).err();
    assert!(rt; short == Some(StartFault::Length));
    let zeros = vec![in alloc; 0; 196_608]?;
    fs::write(&rt, ODD, zeros.as_slice())?;
    let blank = start(&rt, alloc, ODD, LEAST).err();
    assert!(rt; blank == Some(StartFault::Recovery(RecoverFault::Empty)));
    fs::remove_dir_all(&rt, OTHERS)?;
    Ok(())
}
