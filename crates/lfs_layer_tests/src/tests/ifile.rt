use super::expect_eq;
use lfs_ifile::{Ifile, IfileFault, InodePlace, SegState, SegUse, raised_version, usage_in};
use lfs_types::fault::FormatFault;
use std::alloc::Global;
use std::process::Abort;

/// Numbers of segments and of inodes, and the fault of a format with them.
const RANGES: [(u32, u32, Option<FormatFault>); 8] = [
    (5, 16, Some(FormatFault::TooFew)),
    (6, 16, None),
    (1_024, 4_096, None),
    (1_025, 16, Some(FormatFault::TooMany)),
    (6, 15, Some(FormatFault::TooFew)),
    (6, 4_097, Some(FormatFault::TooMany)),
    (5, 4_097, Some(FormatFault::TooFew)),
    (1_025, 15, Some(FormatFault::TooMany)),
];

#[test]
fn ranges_are_judged_in_order(rt: HostRuntime) {
    for (segments, inodes, fault) in RANGES {
        expect_eq(
            &rt,
            Ifile::format(rt.alloc(), segments, inodes).err(),
            fault,
        );
    }
}

/// The ifile of six segments and sixteen inode numbers.
fn small(rt: &impl Abort, alloc: Global) -> Ifile {
    Ifile::format(alloc, 6, 16).expect(rt, "an ifile")
}

/// Asserts that this is the least number that is not used.
fn expect_least(rt: &impl Abort, file: &Ifile, number: Option<u32>) {
    expect_eq(rt, file.least_free(), number);
}

/// Asserts how many bytes an ifile takes.
fn expect_length(rt: &impl Abort, file: &Ifile, length: usize) {
    expect_eq(rt, file.bytes().expect(rt, "bytes").len(), length);
}

#[test]
fn lengths_of_the_bytes(rt: HostRuntime) {
    let file = small(&rt, rt.alloc());
    expect_least(&rt, &file, Some(4));
    expect_length(&rt, &file, 252);
    drop(file);
    let usual = Ifile::format(rt.alloc(), 64, 256).expect(&rt, "an ifile");
    expect_length(&rt, &usual, 3_596);
}

/// Gives out a number that is not used, and asserts that its version is this one.
fn give_out(rt: &impl Abort, file: &mut Ifile, number: u32, version: u32) {
    assert!(rt; number < file.inodes());
    assert!(rt; file.place(number).is_none());
    expect_eq(rt, file.give_out(number), version);
}

/// The same of the least number that is not used.
fn give_out_least(rt: &impl Abort, file: &mut Ifile, number: u32, version: u32) {
    expect_least(rt, file, Some(number));
    give_out(rt, file, number, version);
}

/// Takes a number back, once it is used.
fn release(rt: &impl Abort, file: &mut Ifile, number: u32) {
    assert!(rt; number < file.inodes());
    assert!(rt; file.place(number).is_some());
    file.release(number);
}

#[test]
fn numbers_are_given_out_from_four(rt: HostRuntime) {
    let mut file = small(&rt, rt.alloc());
    for number in 4..16 {
        give_out_least(&rt, &mut file, number, 1);
    }
    expect_least(&rt, &file, None);
}

#[test]
fn released_number_is_the_least_free(rt: HostRuntime) {
    let mut file = small(&rt, rt.alloc());
    for number in 4..12 {
        give_out_least(&rt, &mut file, number, 1);
    }
    expect_least(&rt, &file, Some(12));
    release(&rt, &mut file, 9);
    expect_least(&rt, &file, Some(9));
    release(&rt, &mut file, 6);
    give_out_least(&rt, &mut file, 6, 2);
    give_out_least(&rt, &mut file, 9, 2);
    expect_least(&rt, &file, Some(12));
}

/// Places the record of a number that is used.
fn place(rt: &impl Abort, file: &mut Ifile, number: u32, addr: u32, slot: u16) {
    assert!(rt; number < file.inodes());
    assert!(rt; file.place(number).is_some());
    assert!(rt; addr < 64 * file.segments() && slot < 4);
    file.set_place(number, addr, slot);
}

/// Gives a segment a state and live bytes, where it has none.
fn fill(rt: &impl Abort, file: &mut Ifile, segment: u32, state: SegState, live: u32) {
    assert!(rt; segment < file.segments());
    assert!(rt; file.usage(segment).live == 0 && live <= 32_768);
    file.add_live(segment, live);
    file.set_state(segment, state);
}

/// Sets the state of a segment that is there.
fn set_state(rt: &impl Abort, file: &mut Ifile, segment: u32, state: SegState) {
    assert!(rt; segment < file.segments());
    file.set_state(segment, state);
}

#[test]
fn the_first_clean_segment(rt: HostRuntime) {
    let mut file = small(&rt, rt.alloc());
    expect_eq(&rt, file.first_clean(), Some(0));
    for segment in 0..6 {
        set_state(&rt, &mut file, segment, SegState::Dirty);
    }
    expect_eq(&rt, file.first_clean(), None);
    set_state(&rt, &mut file, 4, SegState::Clean);
    set_state(&rt, &mut file, 2, SegState::Clean);
    expect_eq(&rt, file.first_clean(), Some(2));
    set_state(&rt, &mut file, 2, SegState::Active);
    expect_eq(&rt, file.first_clean(), Some(4));
}

/// Drops live bytes of a segment that has as many.
fn drop_live(rt: &impl Abort, file: &mut Ifile, segment: u32, live: u32) {
    assert!(rt; segment < file.segments());
    assert!(rt; live <= file.usage(segment).live);
    file.drop_live(segment, live);
}

/// The ifile of six segments and sixteen inode numbers that `BYTES` spells.
fn changed(rt: &impl Abort, alloc: Global) -> Ifile {
    let mut file = small(rt, alloc);
    fill(rt, &mut file, 0, SegState::Active, 640);
    fill(rt, &mut file, 3, SegState::Dirty, 32_768);
    drop_live(rt, &mut file, 3, 512);
    give_out(rt, &mut file, 2, 1);
    place(rt, &mut file, 2, 2, 0);
    give_out(rt, &mut file, 4, 1);
    place(rt, &mut file, 4, 130, 3);
    give_out(rt, &mut file, 5, 1);
    release(rt, &mut file, 5);
    give_out(rt, &mut file, 6, 1);
    file
}

/// Its bytes, by hand: the header, six segments, and the rows of sixteen inode numbers, of which 2
/// is used at address 2, 4 at address 130 in slot 3, 5 was used once, and 6 is not in the log yet.
const BYTES: &[u8; 252] = b"LFIF\0\0\0\x06\0\0\0\x10\
    \0\0\x02\x80\0\0\0\x02\
    \0\0\0\0\0\0\0\0\
    \0\0\0\0\0\0\0\0\
    \0\0\x7e\0\0\0\0\x01\
    \0\0\0\0\0\0\0\0\
    \0\0\0\0\0\0\0\0\
    \0\0\0\0\0\0\0\0\0\0\0\0\
    \0\0\0\0\0\0\0\0\0\0\0\0\
    \0\0\0\x02\0\0\0\x01\0\0\0\x01\
    \0\0\0\0\0\0\0\0\0\0\0\0\
    \0\0\0\x82\0\x03\0\x01\0\0\0\x01\
    \0\0\0\0\0\0\0\0\0\0\0\x01\
    \0\0\0\0\0\0\0\x01\0\0\0\x01\
    \0\0\0\0\0\0\0\0\0\0\0\0\
    \0\0\0\0\0\0\0\0\0\0\0\0\
    \0\0\0\0\0\0\0\0\0\0\0\0\
    \0\0\0\0\0\0\0\0\0\0\0\0\
    \0\0\0\0\0\0\0\0\0\0\0\0\
    \0\0\0\0\0\0\0\0\0\0\0\0\
    \0\0\0\0\0\0\0\0\0\0\0\0\
    \0\0\0\0\0\0\0\0\0\0\0\0\
    \0\0\0\0\0\0\0\0\0\0\0\0";

#[test]
fn bytes_by_hand(rt: HostRuntime) {
    let bytes = changed(&rt, rt.alloc()).bytes().expect(&rt, "bytes");
    expect_eq(&rt, bytes.as_slice(), BYTES.as_slice());
}

#[test]
fn one_follows_the_last_version(rt: HostRuntime) {
    expect_eq(&rt, raised_version(0), 1);
    expect_eq(&rt, raised_version(4_294_967_294), 4_294_967_295);
    expect_eq(&rt, raised_version(4_294_967_295), 1);
}

/// Asserts where the record of a number is.
fn expect_place(rt: &impl Abort, file: &Ifile, number: u32, place: Option<InodePlace>) {
    assert!(rt; number < file.inodes());
    expect_eq(rt, file.place(number), place);
}

/// How a segment is used.
fn usage(rt: &impl Abort, file: &Ifile, segment: u32) -> SegUse {
    assert!(rt; segment < file.segments());
    file.usage(segment)
}

#[test]
fn usage_and_places(rt: HostRuntime) {
    let mut file = changed(&rt, rt.alloc());
    let active = SegUse {
        live: 640,
        state: SegState::Active,
    };
    expect_eq(&rt, usage(&rt, &file, 0), active);
    let placed = InodePlace {
        addr: 130,
        slot: 3,
        version: 1,
    };
    expect_place(&rt, &file, 4, Some(placed));
    expect_place(&rt, &file, 5, None);
    give_out_least(&rt, &mut file, 5, 2);
    let waiting = InodePlace {
        addr: 0,
        slot: 0,
        version: 2,
    };
    expect_place(&rt, &file, 5, Some(waiting));
}

/// Asserts what the bytes of an ifile say of the use of a segment.
fn expect_usage_in(rt: &impl Abort, bytes: &[u8], segment: u32, used: Option<SegUse>) {
    expect_eq(rt, usage_in(bytes, segment), used);
}

/// Asserts that the bytes of an ifile of six segments say of the use of each segment what the ifile says.
fn expect_usage(rt: &impl Abort, file: &Ifile, bytes: &[u8]) {
    for segment in 0..6 {
        expect_usage_in(rt, bytes, segment, Some(usage(rt, file, segment)));
    }
    expect_usage_in(rt, bytes, 6, None);
}

#[test]
fn usage_in_the_bytes_is_usage(rt: HostRuntime) {
    let file = changed(&rt, rt.alloc());
    expect_least(&rt, &file, Some(5));
    expect_usage(&rt, &file, &file.bytes().expect(&rt, "bytes"));
}

/// The largest ifile, with use of its last segment and its last number.
fn largest(rt: &impl Abort, alloc: Global) -> Ifile {
    let mut file = Ifile::format(alloc, 1_024, 4_096).expect(rt, "an ifile");
    fill(rt, &mut file, 1_023, SegState::Dirty, 32_768);
    give_out(rt, &mut file, 4_095, 1);
    place(rt, &mut file, 4_095, 65_535, 3);
    file
}

#[test]
fn bytes_of_the_largest(rt: HostRuntime) {
    let file = largest(&rt, rt.alloc());
    expect_eq(&rt, [file.segments(), file.inodes()], [1_024, 4_096]);
    let bytes = file.bytes().expect(&rt, "bytes");
    expect_eq(&rt, bytes.len(), 57_356);
    let full = SegUse {
        live: 32_768,
        state: SegState::Dirty,
    };
    expect_usage_in(&rt, &bytes, 1_023, Some(full));
    expect_usage_in(&rt, &bytes, 1_024, None);
    expect_eq(
        &rt,
        bytes.ends_with(b"\0\0\xff\xff\0\x03\0\x01\0\0\0\x01"),
        true,
    );
}

/// The bytes of one segment with 640 live bytes, as those of an ifile without inode numbers.
const GOOD: &[u8; 20] = b"LFIF\0\0\0\x01\0\0\0\0\0\0\x02\x80\0\0\0\x02";

/// Bytes that say of the use of no segment, or not of segment 0.
const OTHERS: [&[u8; 20]; 7] = [
    b"LFIG\0\0\0\x01\0\0\0\0\0\0\x02\x80\0\0\0\x02",
    b"LFIF\0\0\0\x01\0\0\0\0\0\0\x02\x80\0\0\0\x03",
    b"LFIF\0\0\0\x01\0\0\0\0\0\0\x02\x80\x01\0\0\x02",
    b"LFIF\0\0\0\x02\0\0\0\0\0\0\x02\x80\0\0\0\x02",
    b"LFIF\0\0\0\x01\0\0\0\x01\0\0\x02\x80\0\0\0\x02",
    b"LFIF\x20\0\0\x01\0\0\0\0\0\0\x02\x80\0\0\0\x02",
    b"LFIF\xff\xff\xff\xff\xff\xff\xff\xff\0\0\x02\x80\0\0\0\x02",
];

/// Use of the active segment, with so many live bytes.
fn active(live: u32) -> Option<SegUse> {
    Some(SegUse {
        live,
        state: SegState::Active,
    })
}

#[test]
fn usage_in_bytes_of_others(rt: HostRuntime) {
    for bytes in OTHERS {
        expect_usage_in(&rt, bytes, 0, None);
    }
    expect_usage_in(&rt, GOOD, 0, active(640));
    let most = b"LFIF\0\0\0\x01\0\0\0\0\xff\xff\xff\xff\0\0\0\x02";
    expect_usage_in(&rt, most, 0, active(u32::MAX));
    expect_usage_in(&rt, GOOD, 1, None);
    expect_usage_in(&rt, GOOD, u32::MAX, None);
    expect_usage_in(&rt, &GOOD[..19], 0, None);
    expect_usage_in(&rt, &GOOD[..11], 0, None);
    expect_usage_in(&rt, b"", 0, None);
}

/// The bytes of an ifile of six segments and sixteen inode numbers: segment 2 is dirty with 128 live bytes, and the
/// record of number 4 stands in slot 3 of block 130.
fn some_bytes(rt: &impl Abort, alloc: Global) -> Vec<u8> {
    let mut file = small(rt, alloc);
    give_out(rt, &mut file, 4, 1);
    place(rt, &mut file, 4, 130, 3);
    fill(rt, &mut file, 2, SegState::Dirty, 128);
    file.bytes().expect(rt, "bytes")
}

/// The ifile that is read from these bytes.
fn read_back(rt: &impl Abort, alloc: Global) -> Ifile {
    let bytes = some_bytes(rt, alloc);
    let file = Ifile::read(alloc, &bytes).ok();
    file.expect(rt, "an ifile")
}

#[test]
fn bytes_are_read_back(rt: HostRuntime) {
    let file = read_back(&rt, rt.alloc());
    let dirty = SegUse {
        live: 128,
        state: SegState::Dirty,
    };
    expect_eq(&rt, usage(&rt, &file, 2), dirty);
    let placed = InodePlace {
        addr: 130,
        slot: 3,
        version: 1,
    };
    expect_place(&rt, &file, 4, Some(placed));
    expect_least(&rt, &file, Some(5));
    expect_eq(&rt, file.first_clean(), Some(0));
}

/// Asserts what is wrong with the bytes once one of them is another.
fn expect_fault(rt: &impl Abort, bytes: &mut Vec<u8>, place: usize, byte: u8, fault: IfileFault) {
    assert!(rt; place < bytes.len());
    let was = bytes[place];
    bytes[place] = byte;
    let found = Ifile::read(*bytes.allocator(), bytes).err();
    bytes[place] = was;
    expect_eq(rt, found, Some(fault));
}

#[test]
fn one_byte_that_is_wrong_is_told(rt: HostRuntime) {
    let mut bytes = some_bytes(&rt, rt.alloc());
    expect_fault(&rt, &mut bytes, 3, 0, IfileFault::Head);
    expect_fault(&rt, &mut bytes, 7, 5, IfileFault::Head);
    expect_fault(&rt, &mut bytes, 11, 17, IfileFault::Head);
    // The live bytes of segment 1, and its state.
    expect_fault(&rt, &mut bytes, 21, 1, IfileFault::Segment { segment: 1 });
    expect_fault(&rt, &mut bytes, 27, 3, IfileFault::Segment { segment: 1 });
    // The row of number 4 stands at 60 + 12 * 4: its address, slot, use and version.
    expect_fault(&rt, &mut bytes, 110, 2, IfileFault::Row { number: 4 });
    expect_fault(&rt, &mut bytes, 113, 4, IfileFault::Row { number: 4 });
    expect_fault(&rt, &mut bytes, 115, 2, IfileFault::Row { number: 4 });
    expect_fault(&rt, &mut bytes, 115, 0, IfileFault::Row { number: 4 });
    expect_fault(&rt, &mut bytes, 119, 0, IfileFault::Row { number: 4 });
}
