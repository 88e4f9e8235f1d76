//! What waits to be written, and what has it written: a Sync, a Markv, and a call by which more would wait than may.

use super::cleaning::{infos_of, located, mark};
use super::run_steps_rows::leave_first_segment;
use super::{run, run_fresh};
use crate::tests::{DEFAULTS, SMALL, expect_eq, fresh, push, push_all, repeated};
use itoa::Buffer;
use lfs_logstore::LogStore;
use lfs_types::cleaner::{BlockInfo, INODE_BLOCK, InfoList};
use lfs_types::store::Params;
use lfs_volume::volume::Volume;
use std::alloc::Global;
use std::process::Abort;

/// A file is made, and then another. Of each the record's address is asked for before it is written, the one by a Sync and
/// the other by a Markv of no infos, and behind it.
const CREATED: &str = "\
session 3
create /a 0644
bmapv 4:1:4294967295:0
sync
bmapv 4:1:4294967295:0
create /b 0644
bmapv 5:1:4294967295:0
markv
bmapv 5:1:4294967295:0
";

/// The answers: block 2 has the root's record, and what waits takes a summary, the root's block and one of records.
const WRITTEN: &str = "\
3 ok
3 Bmapv(BlockInfos { items: [BlockInfo { ino: 4, version: 1, lbn: 4294967295, addr: 0 }] })
3 ok
3 Bmapv(BlockInfos { items: [BlockInfo { ino: 4, version: 1, lbn: 4294967295, addr: 5 }] })
3 ok
3 Bmapv(BlockInfos { items: [BlockInfo { ino: 5, version: 1, lbn: 4294967295, addr: 0 }] })
3 Marked(0)
3 Bmapv(BlockInfos { items: [BlockInfo { ino: 5, version: 1, lbn: 4294967295, addr: 8 }] })
";

#[test]
fn new_file_has_an_address_once_it_is_written(rt: HostRuntime) {
    run_fresh(&rt, rt.alloc(), CREATED, WRITTEN);
}

/// A file is written, and removed while its block waits. The addresses of the root's record and of its block are asked for,
/// and then the address of the record of the next file.
const REMOVED: &str = "\
session 3
create /a 0644
sync
write /a at 0 61
unlink /a
sync
bmapv 2:1:4294967295:0
bmapv 2:1:0:0
create /b 0644
sync
bmapv 4:2:4294967295:0
";

/// The answers: the second Sync writes a summary, the root's block and its record, and the third begins behind them.
const DIRECTORY_ALONE: &str = "\
3 ok
3 ok
3 ok
3 ok
3 ok
3 Bmapv(BlockInfos { items: [BlockInfo { ino: 2, version: 1, lbn: 4294967295, addr: 8 }] })
3 Bmapv(BlockInfos { items: [BlockInfo { ino: 2, version: 1, lbn: 0, addr: 7 }] })
3 ok
3 ok
3 Bmapv(BlockInfos { items: [BlockInfo { ino: 4, version: 2, lbn: 4294967295, addr: 11 }] })
";

#[test]
fn removed_file_is_never_written(rt: HostRuntime) {
    run_fresh(&rt, rt.alloc(), REMOVED, DIRECTORY_ALONE);
}

/// A block of a dirty segment is written again before the segment's infos are asked for, and once more behind that. Then
/// all that they name is written again.
fn write_around_infos(rt: &impl Abort, alloc: Global, volume: &mut Volume<LogStore>) {
    let again = "session 3\nwrite /a at 0 6e6577\n";
    run(rt, alloc, volume, again, "3 ok\n");
    let infos = infos_of(rt, volume, 0);
    let last = "session 3\nwrite /a at 0 6c617374\n";
    run(rt, alloc, volume, last, "3 ok\n");
    for eight in infos.items().chunks(8) {
        mark(rt, volume, eight);
    }
}

#[test]
fn block_written_between_infos_and_markv_reads_as_last_written(rt: HostRuntime) {
    let mut volume = fresh(&rt, rt.alloc(), SMALL);
    leave_first_segment(&rt, rt.alloc(), &mut volume);
    write_around_infos(&rt, rt.alloc(), &mut volume);
    let (read, last) = ("session 3\nread /a 0 512\n", "3 bytes 6c617374\n");
    run(&rt, rt.alloc(), &mut volume, read, last);
}

/// What is asked of a block or a record of a file that was the first of its number.
fn asked(ino: u32, lbn: u32) -> BlockInfo {
    BlockInfo {
        ino,
        version: 1,
        lbn,
        addr: 0,
    }
}

/// How many of these have no address.
fn unwritten(infos: &[BlockInfo]) -> usize {
    let mut count = 0usize;
    for info in infos {
        count = count.saturating_add(usize::from(info.addr == 0));
    }
    count
}

/// Appends the two lines that write eight blocks of a file, and four behind them.
fn push_twelve(rt: &impl Abort, script: &mut String, name: &str, eight: &str, four: &str) {
    push_all(rt, script, &["write /", name, " at 0 ", eight, "\nwrite /"]);
    push_all(rt, script, &[name, " at 4096 ", four, "\n"]);
}

/// Three files are made and synced, and twelve blocks each of the first two written.
fn twelve_blocks_each(rt: &impl Abort, alloc: Global) -> String {
    let (eight, four) = (
        repeated(rt, alloc, "61", 4096),
        repeated(rt, alloc, "62", 2048),
    );
    let mut script = String::new(alloc);
    let made = "session 3\ncreate /a 0644\ncreate /b 0644\ncreate /c 0644\nsync\n";
    push(rt, &mut script, made);
    push_twelve(rt, &mut script, "a", eight.as_str(), four.as_str());
    push_twelve(rt, &mut script, "b", eight.as_str(), four.as_str());
    script
}

/// The twelve blocks of the first two files, and one of the third.
fn their_blocks(rt: &impl Abort, alloc: Global) -> Vec<BlockInfo> {
    let mut blocks = Vec::new(alloc);
    for lbn in 0..12 {
        blocks.push(asked(4, lbn)).expect(rt, "memory");
        blocks.push(asked(5, lbn)).expect(rt, "memory");
    }
    blocks.push(asked(6, 0)).expect(rt, "memory");
    blocks
}

/// Asserts that 24 blocks wait, and that a Write of one more leaves that one alone without an address.
fn write_one_more(rt: &impl Abort, alloc: Global, volume: &mut Volume<LogStore>) {
    let blocks = their_blocks(rt, alloc);
    let found = located(rt, volume, blocks.as_slice());
    expect_eq(rt, unwritten(found.items()), 25);
    run(rt, alloc, volume, "session 3\nwrite /c at 0 63\n", "3 ok\n");
    let found = located(rt, volume, blocks.as_slice());
    expect_eq(rt, unwritten(found.items()), 1);
    let last = found.items().get(24).copied();
    expect_eq(rt, last, Some(asked(6, 0)));
}

#[test]
fn twenty_four_blocks_wait(rt: HostRuntime) {
    let mut volume = fresh(&rt, rt.alloc(), SMALL);
    let script = twelve_blocks_each(&rt, rt.alloc());
    let answers = repeated(&rt, rt.alloc(), "3 ok\n", 8);
    run(
        &rt,
        rt.alloc(),
        &mut volume,
        script.as_str(),
        answers.as_str(),
    );
    write_one_more(&rt, rt.alloc(), &mut volume);
}

/// A line for each file from one number to another.
fn of_each(rt: &impl Abort, alloc: Global, verb: &str, files: (u32, u32), mode: &str) -> String {
    let mut script = String::new(alloc);
    push(rt, &mut script, "session 3\n");
    for file in files.0..files.1 {
        push_all(
            rt,
            &mut script,
            &[verb, " /f", Buffer::new().format(file), mode],
        );
    }
    script
}

/// Has such lines run, so many of which are served.
fn run_of_each(
    rt: &impl Abort,
    alloc: Global,
    volume: &mut Volume<LogStore>,
    (script, times): (String, usize),
) {
    let answers = repeated(rt, alloc, "3 ok\n", times);
    run(rt, alloc, volume, script.as_str(), answers.as_str());
}

/// The records of 65 files.
fn their_records(rt: &impl Abort, alloc: Global) -> Vec<BlockInfo> {
    let mut records = Vec::new(alloc);
    for ino in 4..69 {
        records.push(asked(ino, INODE_BLOCK)).expect(rt, "memory");
    }
    records
}

/// How many of these have the same address in both lists.
fn unmoved(before: &[BlockInfo], after: &[BlockInfo]) -> usize {
    let mut count = 0usize;
    for (old, new) in before.iter().zip(after) {
        count = count.saturating_add(usize::from(old == new));
    }
    count
}

/// Makes 65 files, which are written, and gives the addresses of their records.
fn written_files(rt: &impl Abort, alloc: Global, volume: &mut Volume<LogStore>) -> InfoList {
    let made = of_each(rt, alloc, "create", (0, 65), " 0644\n");
    run_of_each(rt, alloc, volume, (made, 65));
    run(rt, alloc, volume, "session 3\nsync\n", "3 ok\n");
    let records = their_records(rt, alloc);
    located(rt, volume, records.as_slice())
}

/// Changes the mode of these files, and asserts how many records have the addresses that they had. Gives the present ones.
fn change_modes(
    rt: &impl Abort,
    alloc: Global,
    volume: &mut Volume<LogStore>,
    files: (u32, u32),
    (before, same): (&InfoList, usize),
) -> InfoList {
    let changed = of_each(rt, alloc, "chmod", files, " 0600\n");
    let times = files.1.saturating_sub(files.0);
    run_of_each(rt, alloc, volume, (changed, times as usize));
    let after = located(rt, volume, before.items());
    expect_eq(rt, unmoved(before.items(), after.items()), same);
    after
}

/// Changes the modes of 64 files, of which no record moves, and that of the last, whose record alone doesn't.
fn change_all_modes(rt: &impl Abort, alloc: Global, volume: &mut Volume<LogStore>) {
    let before = written_files(rt, alloc, volume);
    expect_eq(rt, unwritten(before.items()), 0);
    change_modes(rt, alloc, volume, (0, 64), (&before, 65));
    let after = change_modes(rt, alloc, volume, (64, 65), (&before, 1));
    expect_eq(rt, after.items().get(64), before.items().get(64));
}

#[test]
fn sixty_four_records_wait(rt: HostRuntime) {
    let mut volume = fresh(&rt, rt.alloc(), DEFAULTS);
    change_all_modes(&rt, rt.alloc(), &mut volume);
}

/// The numbers of a small volume with room for more calls.
const LONG: Params = Params {
    journal: 8192,
    ..SMALL
};

/// A file is made, and its block written over and over.
fn overwrites(rt: &impl Abort, alloc: Global) -> String {
    let writes = repeated(rt, alloc, "write /a at 0 61\n", 5000);
    let mut script = String::new(alloc);
    push_all(
        rt,
        &mut script,
        &["session 3\ncreate /a 0644\n", writes.as_str()],
    );
    script
}

#[test]
fn overwritten_block_takes_no_segment(rt: HostRuntime) {
    let mut volume = fresh(&rt, rt.alloc(), LONG);
    let script = overwrites(&rt, rt.alloc());
    run_of_each(&rt, rt.alloc(), &mut volume, (script, 5001));
    expect_eq(&rt, volume.clean_segments(), 5);
}
