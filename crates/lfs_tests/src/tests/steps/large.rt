//! Files with blocks under each kind of indirect block: they keep their bytes while they are cut and while a cleaner's
//! calls move their blocks, and give all of them back.

use super::cleaning::{Tried, empty_segment, is_dirty, located, mark, root, try_to_clean};
use super::run;
use crate::tests::{expect_answers, expect_eq, fresh, push, push_byte, push_number, repeated};
use lfs_logstore::LogStore;
use lfs_types::cleaner::{BlockInfo, InfoList};
use lfs_types::path::Path;
use lfs_types::payload::Payload;
use lfs_types::request::{Place, Request};
use lfs_types::store::Params;
use lfs_volume::volume::Volume;
use std::alloc::Global;
use std::process::Abort;

/// A volume with room for the largest file.
const LARGE: Params = Params {
    segments: 1024,
    inodes: 64,
    frames: 32,
    journal: 100_000,
};

/// A volume with room for a few blocks, written over and over.
pub(super) const ROOMY: Params = Params {
    segments: 16,
    inodes: 64,
    frames: 32,
    journal: 100_000,
};

/// The most bytes of a file.
const MOST_BYTES: usize = 8_460_288;

/// How many bytes a Write brings.
const PART: usize = 4_096;

/// How many Writes write the largest file: the last brings half as much.
const PARTS: usize = 2_066;

/// The byte that a Write brings throughout.
fn byte_of(part: usize) -> usize {
    part % 251 + 1
}

/// So many bytes of this value, put into `/f` at this byte.
fn write_of(rt: &impl Abort, alloc: Global, off: usize, byte: usize, count: usize) -> Request {
    let bytes = vec![in alloc; (byte % 256) as u8; count].expect(rt, "memory");
    match (Path::parse(alloc, "/f"), Payload::new(bytes)) {
        (Ok(path), Ok(bytes)) => Request::Write {
            path,
            place: Place::At(off as u64),
            bytes,
        },
        _ => panic!(rt; "no call"),
    }
}

/// Writes the part of `/f` with this number.
fn write_part(rt: &impl Abort, alloc: Global, volume: &mut Volume<LogStore>, part: usize) {
    assert!(rt; part < PARTS);
    let off = PART * part;
    let request = write_of(rt, alloc, off, byte_of(part), PART.min(MOST_BYTES - off));
    let root = root(rt);
    let answer = volume.call(3, &root, request);
    expect_answers(rt, alloc, 3, &[answer], "3 ok\n");
}

/// Makes `/f`, the largest file.
fn write_whole(rt: &impl Abort, alloc: Global, volume: &mut Volume<LogStore>) {
    let script = "session 3\ncreate /f 0644\n";
    run(rt, alloc, volume, script, "3 ok\n");
    for part in 0..PARTS {
        write_part(rt, alloc, volume, part);
    }
}

/// Appends a cut of `/f` to so many blocks, growth to the limit, and Reads at the cut and at the end, with their answers.
fn push_cut(rt: &impl Abort, script: &mut String, wanted: &mut String, blocks: usize) {
    let size = blocks.saturating_mul(512);
    let last = size.saturating_sub(2);
    push_number(rt, script, "length /f ", size, "\n");
    push_number(rt, script, "read /f ", last, " 4\n");
    push_number(rt, script, "length /f ", MOST_BYTES, "\n");
    push_number(rt, script, "read /f ", last, " 4\nread /f 8460286 9\n");
    push(rt, wanted, "3 ok\n3 bytes ");
    push_byte(rt, wanted, byte_of(last / PART), 2);
    push(rt, wanted, "\n3 ok\n3 bytes ");
    push_byte(rt, wanted, byte_of(last / PART), 2);
    push(rt, wanted, "0000\n3 bytes 0000\n");
}

/// Cuts `/f` to ever fewer blocks, of which the last lies at each edge of what an indirect block leads to.
fn cut_and_grow(rt: &impl Abort, alloc: Global, volume: &mut Volume<LogStore>) {
    let mut script = String::new(alloc);
    let mut wanted = String::new(alloc);
    push(rt, &mut script, "session 3\n");
    for blocks in [16_523, 269, 268, 267, 141, 140, 139, 13, 12, 1] {
        push_cut(rt, &mut script, &mut wanted, blocks);
    }
    run(rt, alloc, volume, script.as_str(), wanted.as_str());
}

/// Asserts that each dirty segment has no live bytes, but for at most so many.
fn expect_no_live_bytes(rt: &impl Abort, volume: &mut Volume<LogStore>, segments: u32, most: u32) {
    let mut live = 0u32;
    for segment in 0..segments {
        if is_dirty(rt, volume, segment) && try_to_clean(rt, volume, segment).0 != Tried::Cleaned {
            live = live.saturating_add(1);
        }
    }
    assert!(rt; live <= most);
}

/// What is removed leaves live bytes in no segment: the root's are written by the Sync, in the active one.
fn remove_file(rt: &impl Abort, alloc: Global, volume: &mut Volume<LogStore>, segments: u32) {
    let script = "session 3\nunlink /f\nsync\n";
    run(rt, alloc, volume, script, "3 ok\n3 ok\n");
    expect_no_live_bytes(rt, volume, segments, 0);
}

#[test]
fn largest_file_is_cut_and_grows_and_is_removed(rt: HostRuntime) {
    let mut volume = fresh(&rt, rt.alloc(), LARGE);
    write_whole(&rt, rt.alloc(), &mut volume);
    cut_and_grow(&rt, rt.alloc(), &mut volume);
    remove_file(&rt, rt.alloc(), &mut volume, LARGE.segments);
}

/// The largest file is removed at once.
#[test]
fn largest_file_gives_all_its_blocks_back(rt: HostRuntime) {
    let mut volume = fresh(&rt, rt.alloc(), LARGE);
    write_whole(&rt, rt.alloc(), &mut volume);
    remove_file(&rt, rt.alloc(), &mut volume, LARGE.segments);
}

/// `/f` gets a block each direct, under the single indirect block, and under the first and the last child of the double one.
const SPREAD: &str = "\
session 3
create /f 0644
write /f at 511 a1a2
write /f at 71679 a3a4
write /f at 137215 a5a6
write /f at 8460287 a7
sync
";

/// What these blocks have.
const READ: &str = "\
session 3
read /f 510 4
read /f 71678 4
read /f 137214 4
read /f 8460286 9
stat /f
";

/// The answers to that.
const KEPT: &str = "\
3 bytes 00a1a200
3 bytes 00a3a400
3 bytes 00a5a600
3 bytes 00a7
3 stat 4 file 0 0 0644 00000000 8460288
";

/// Writes `/g` over and over, until the segments that hold the blocks of `/f` are dirty.
pub(super) fn leave_segments(rt: &impl Abort, alloc: Global, volume: &mut Volume<LogStore>) {
    let script = "session 3\ncreate /g 0644\n";
    run(rt, alloc, volume, script, "3 ok\n");
    for _ in 0..40 {
        let script = "session 3\nwrite /g at 0 ff\nsync\n";
        run(rt, alloc, volume, script, "3 ok\n3 ok\n");
    }
}

/// Has the blocks of each dirty segment written again, and cleans it.
fn clean_all(rt: &impl Abort, volume: &mut Volume<LogStore>) -> u32 {
    let mut cleaned = 0u32;
    for segment in 0..ROOMY.segments {
        if is_dirty(rt, volume, segment) {
            empty_segment(rt, volume, segment);
            expect_eq(rt, try_to_clean(rt, volume, segment).0, Tried::Cleaned);
            cleaned = cleaned.saturating_add(1);
        }
    }
    cleaned
}

#[test]
fn blocks_under_each_indirect_block_keep_their_bytes(rt: HostRuntime) {
    let mut volume = fresh(&rt, rt.alloc(), ROOMY);
    run(
        &rt,
        rt.alloc(),
        &mut volume,
        SPREAD,
        "3 ok\n3 ok\n3 ok\n3 ok\n3 ok\n3 ok\n",
    );
    leave_segments(&rt, rt.alloc(), &mut volume);
    expect_eq(&rt, clean_all(&rt, &mut volume) > 0, true);
    run(&rt, rt.alloc(), &mut volume, READ, KEPT);
    remove_file(&rt, rt.alloc(), &mut volume, ROOMY.segments);
}

/// The block of `/f` with this logical block number, at no address.
fn block(lbn: u32) -> BlockInfo {
    BlockInfo {
        ino: 4,
        version: 1,
        lbn,
        addr: 0,
    }
}

/// Eight blocks of `/f`, each under another child of the double indirect block.
fn under_eight_children() -> [BlockInfo; 8] {
    [
        block(140),
        block(268),
        block(396),
        block(524),
        block(652),
        block(780),
        block(908),
        block(1036),
    ]
}

/// A data block, its child, the double indirect block, a data block in the single one, this one, a child that holds no
/// block that was written, and a number of no block.
fn of_each_kind() -> [BlockInfo; 7] {
    [
        block(140),
        block(0x8000_0100),
        block(0x8000_0001),
        block(12),
        block(0x8000_0000),
        block(0x8000_017f),
        block(0x8000_0180),
    ]
}

/// How many of these have an address.
fn placed(infos: &InfoList) -> usize {
    infos.items().iter().filter(|info| info.addr != 0).count()
}

/// Writes a block of `/f` under each of the eight children, and one in the single indirect block.
fn write_under_children(rt: &impl Abort, alloc: Global, volume: &mut Volume<LogStore>) {
    let mut script = String::new(alloc);
    let mut wanted = String::new(alloc);
    push(
        rt,
        &mut script,
        "session 3\ncreate /f 0644\nwrite /f at 6144 b0\n",
    );
    push(rt, &mut wanted, "3 ok\n3 ok\n3 ok\n");
    for child in 0..8 {
        let off = 71_680 + 65_536 * child;
        push_number(rt, &mut script, "write /f at ", off, " ");
        push_byte(rt, &mut script, child, 1);
        push(rt, &mut script, "\n");
        push(rt, &mut wanted, "3 ok\n");
    }
    push(rt, &mut script, "sync\n");
    run(rt, alloc, volume, script.as_str(), wanted.as_str());
}

/// Asserts that what these infos name is written again once, and then no more, as each has another address.
fn expect_marked(rt: &impl Abort, volume: &mut Volume<LogStore>, blocks: &[BlockInfo]) -> usize {
    let infos = located(rt, volume, blocks);
    let many = placed(&infos);
    expect_eq(rt, mark(rt, volume, infos.items()) as usize, many);
    expect_eq(rt, mark(rt, volume, infos.items()), 0);
    many
}

#[test]
fn eight_blocks_under_eight_children_are_marked_at_once(rt: HostRuntime) {
    let mut volume = fresh(&rt, rt.alloc(), ROOMY);
    write_under_children(&rt, rt.alloc(), &mut volume);
    let children = under_eight_children();
    expect_eq(&rt, expect_marked(&rt, &mut volume, &children), 8);
    let kinds = of_each_kind();
    expect_eq(&rt, expect_marked(&rt, &mut volume, &kinds), 5);
    let script = "session 3\nread /f 6143 3\nread /f 530431 9\n";
    let wanted = "3 bytes 00b000\n3 bytes 0007\n";
    run(&rt, rt.alloc(), &mut volume, script, wanted);
}

/// A byte is written in each of six blocks of `/f` that the single indirect block leads to.
const SIX: &str = "\
session 3
create /f 0644
write /f at 6144 b0
write /f at 6656 b1
write /f at 7168 b2
write /f at 7680 b3
write /f at 8192 b4
write /f at 8704 b5
sync
";

/// These six blocks.
fn in_the_single_block() -> [BlockInfo; 6] {
    [
        block(12),
        block(13),
        block(14),
        block(15),
        block(16),
        block(17),
    ]
}

/// Has these blocks written again, over and over, until that opens a segment, and gives how often it took.
fn marks_to_open(rt: &impl Abort, volume: &mut Volume<LogStore>, blocks: &[BlockInfo]) -> usize {
    let clean = volume.clean_segments();
    for marks in 1..64 {
        let infos = located(rt, volume, blocks);
        expect_eq(rt, mark(rt, volume, infos.items()), 6);
        if volume.clean_segments() < clean {
            return marks;
        }
    }
    panic!(rt; "no segment was opened")
}

/// Six data blocks, their indirect block, a record and a summary are nine blocks, and a segment has room for 63.
#[test]
fn six_blocks_in_one_indirect_block_fill_a_segment_seven_times(rt: HostRuntime) {
    let mut volume = fresh(&rt, rt.alloc(), ROOMY);
    let wanted = repeated(&rt, rt.alloc(), "3 ok\n", 8);
    run(&rt, rt.alloc(), &mut volume, SIX, wanted.as_str());
    let blocks = in_the_single_block();
    expect_eq(&rt, marks_to_open(&rt, &mut volume, &blocks) > 0, true);
    expect_eq(&rt, marks_to_open(&rt, &mut volume, &blocks), 7);
    expect_eq(&rt, marks_to_open(&rt, &mut volume, &blocks), 7);
}
