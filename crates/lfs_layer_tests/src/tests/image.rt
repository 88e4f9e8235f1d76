//! An image by hand, and what is loaded from it.

use super::{expect_bytes, expect_eq, fresh_log};
use lfs_fsck::LogFault;
use lfs_image::{ImageFault, load, save};
use lfs_log::Log;
use lfs_logstore::LogStore;
use lfs_types::fault::FormatFault;
use lfs_types::level::Level;
use lfs_types::store::Params;
use std::alloc::Global;
use std::process::Abort;

/// Asserts that these bytes stand from a place of an image on.
fn expect_at(rt: &impl Abort, image: &[u8], place: usize, wanted: &[u8]) {
    assert!(rt; place <= 200_000 && wanted.len() <= 1_000);
    for (k, byte) in wanted.iter().enumerate() {
        expect_eq(rt, image.get(place + k), Some(byte));
    }
}

/// The image of a log at the raised level.
fn image_of(rt: &impl Abort, alloc: Global, log: &Log) -> Vec<u8> {
    let mut image = Vec::new(alloc);
    save(log, Level::Secure, &mut image).expect(rt, "an image");
    image
}

/// Places of an image, and bytes that stand there: the sizes; the active segment, its blocks and the level; zeros; the label;
/// the head of the ifile, and segment 0, which has no live bytes and is active.
const NEW: [(usize, &[u8]); 6] = [
    (
        0,
        &[0x4c, 0x46, 0x53, 0x49, 0, 0, 0, 1, 0, 0, 0, 6, 0, 0, 0, 16],
    ),
    (16, &[0, 0, 0, 0, 0, 0, 0, 1, 0, 0, 0, 2]),
    (28, &[0; 484]),
    (512, &[0x4c, 0x46, 0x53, 0x31, 0, 0, 0, 6, 0, 0, 0, 16]),
    (197_120, &[0x4c, 0x46, 0x49, 0x46, 0, 0, 0, 6, 0, 0, 0, 16]),
    (197_132, &[0, 0, 0, 0, 0, 0, 0, 2]),
];

/// The image of a log that was made.
fn image_with(rt: &impl Abort, alloc: Global, made: Result<Log, FormatFault>) -> Vec<u8> {
    match made {
        Ok(log) => image_of(rt, alloc, &log),
        Err(_) => panic!(rt; "no log"),
    }
}

#[test]
fn image_of_a_new_log(rt: HostRuntime) {
    let image = image_with(&rt, rt.alloc(), Log::format(rt.alloc(), 6, 16));
    // The head, 384 blocks, and the ifile of 252 bytes.
    expect_eq(&rt, image.len(), 512 + 196_608 + 252);
    for (place, bytes) in NEW {
        expect_at(&rt, &image, place, bytes);
    }
}

#[test]
fn image_tells_the_next_serial(rt: HostRuntime) {
    let made = Log::format_as(rt.alloc(), 6, 16, Some(258));
    let image = image_with(&rt, rt.alloc(), made);
    expect_at(&rt, &image, 24, &[0, 0, 0, 2, 0, 0, 1, 2]);
    expect_at(&rt, &image, 32, &[0; 480]);
}

/// The image of a new volume of 6 segments and 16 inode numbers.
fn fresh(rt: &impl Abort, alloc: Global) -> Vec<u8> {
    let store = fresh_log(rt, alloc);
    image_of(rt, alloc, &store.parts().log)
}

/// The image of such a volume whose summaries have serials.
fn fresh_with_serials(rt: &impl Abort, alloc: Global) -> Vec<u8> {
    let params = Params {
        segments: 6,
        inodes: 16,
        frames: 32,
        journal: 1,
    };
    match LogStore::format_with_serials(alloc, params) {
        Ok(store) => image_of(rt, alloc, &store.parts().log),
        Err(_) => panic!(rt; "no store"),
    }
}

/// Asserts that some bytes are the image of no store, and why.
fn expect_fault(rt: &impl Abort, alloc: Global, image: &[u8], wanted: ImageFault) {
    expect_eq(rt, load(alloc, image, 32).err(), Some(wanted));
}

/// Asserts what an image is called in which one byte has another value.
fn expect_told(
    rt: &impl Abort,
    alloc: Global,
    image: &mut Vec<u8>,
    place: usize,
    byte: u8,
    wanted: ImageFault,
) {
    assert!(rt; place < image.len());
    let kept = image[place];
    image[place] = byte;
    expect_fault(rt, alloc, image, wanted);
    assert!(rt; place < image.len());
    image[place] = kept;
}

/// What a store that is loaded from an image shows: its level, the next address and the next serial of its log.
type Shown = (Level, u32, Option<u32>);

/// What a log shows at a level, and its image.
fn shown_and_saved(rt: &impl Abort, alloc: Global, log: &Log, level: Level) -> (Shown, Vec<u8>) {
    let mut image = Vec::new(alloc);
    save(log, level, &mut image).expect(rt, "an image");
    ((level, log.next_address(), log.serial()), image)
}

/// Loads an image and saves it again. Gives what its store shows, and the image that is saved.
fn saved_again(rt: &impl Abort, alloc: Global, image: &[u8]) -> (Shown, Vec<u8>) {
    match load(alloc, image, 32) {
        Ok((store, level)) => shown_and_saved(rt, alloc, &store.parts().log, level),
        Err(_) => panic!(rt; "not loaded"),
    }
}

/// Asserts what a store shows that is loaded from an image, which it is saved as again.
fn expect_loaded(rt: &impl Abort, alloc: Global, image: &[u8], wanted: Shown) {
    let (shown, again) = saved_again(rt, alloc, image);
    expect_eq(rt, shown, wanted);
    expect_bytes(rt, &again, image);
}

#[test]
fn image_of_a_new_volume_is_loaded(rt: HostRuntime) {
    let image = fresh(&rt, rt.alloc());
    expect_loaded(&rt, rt.alloc(), &image, (Level::Secure, 3, None));
}

#[test]
fn image_with_serials_is_loaded(rt: HostRuntime) {
    let image = fresh_with_serials(&rt, rt.alloc());
    // The next serial; the summary of the root's record, with serial 1.
    expect_at(&rt, &image, 28, &[0, 0, 0, 2]);
    let summary = [
        0x4c, 0x46, 0x53, 0x53, 0, 0, 0, 0, 0, 1, 0, 1, 0, 0, 0, 1, 0, 0, 0, 0, 0, 0, 0, 0, 0xff,
        0xff, 0xff, 0xff,
    ];
    expect_at(&rt, &image, 1024, &summary);
    expect_loaded(&rt, rt.alloc(), &image, (Level::Secure, 3, Some(2)));
}

/// What the image of a new volume is called where the byte of this place has this value.
const HEAD: [(usize, u8, ImageFault); 9] = [
    (0, 0, ImageFault::Mark),
    (7, 2, ImageFault::Form),
    (11, 5, ImageFault::Segments { number: 5 }),
    (15, 15, ImageFault::Inodes { number: 15 }),
    (19, 6, ImageFault::Active { segment: 6 }),
    (23, 65, ImageFault::Used { blocks: 65 }),
    (27, 4, ImageFault::Securelevel { number: 4 }),
    // Its summaries would have serials, and the first one has none.
    (
        31,
        1,
        ImageFault::Log {
            fault: LogFault::Unfinished { segment: 0 },
        },
    ),
    (32, 1, ImageFault::Gap),
];

/// The same of what stands behind the head.
const BEHIND: [(usize, u8, ImageFault); 5] = [
    // A segment more: the image ends too early. A segment less would go on.
    (11, 7, ImageFault::Short),
    // The label's mark, the ifile's, the active segment's state.
    (512, 0, ImageFault::Label),
    (197_120, 0, ImageFault::IfileHead),
    (197_139, 9, ImageFault::IfileSegment { segment: 0 }),
    (197_139, 1, ImageFault::Apart),
];

/// Asserts what the image of a new volume is called with each of these bytes.
fn expect_each_told(rt: &impl Abort, alloc: Global, table: &[(usize, u8, ImageFault)]) {
    let mut image = fresh(rt, alloc);
    for (place, byte, wanted) in table {
        expect_told(rt, alloc, &mut image, *place, *byte, *wanted);
    }
}

#[test]
fn bytes_of_a_head_are_told(rt: HostRuntime) {
    expect_each_told(&rt, rt.alloc(), &HEAD);
}

#[test]
fn bytes_behind_a_head_are_told(rt: HostRuntime) {
    expect_each_told(&rt, rt.alloc(), &BEHIND);
    let mut image = fresh(&rt, rt.alloc());
    image.push(0).expect(&rt, "a byte");
    expect_fault(&rt, rt.alloc(), &image, ImageFault::Long);
    expect_fault(&rt, rt.alloc(), &[], ImageFault::Short);
}
