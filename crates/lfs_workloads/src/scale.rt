//! How large a run is.

ghost use Rattle.std.specs.Prelude.{◌≤◌, ◌<◌, ◌*◌};

use lfs_types::limits::MOST_SEGMENTS;

/// The most calls of a run before they grow.
pub const CALLS_MAX: u32 = 65_536;

/// How many times as large a run is as the first of its row.
#[derive(Clone, Copy)]
pub enum Factor {
    /// As large.
    One,
    /// Four times as large.
    Four,
    /// Sixteen times as large.
    Sixteen,
}

impl Factor {
    /// The factors of a row, in order.
    pub const ALL: [Factor; 3] = [Factor::One, Factor::Four, Factor::Sixteen];

    /// The factor as a number.
    fn number(self) -> u32
        ensures least { 1 ≤ result }
        ensures most { result ≤ 16 }
    {
        match self {
            Factor::One => 1,
            Factor::Four => 4,
            Factor::Sixteen => 16,
        }
    }

    /// How many bytes a large file has: as many as stand in its record and the single indirect block, as many as fill
    /// both, and as many as take most of the double indirect block.
    fn length(self) -> u32
        ensures { 0 < result }
    {
        match self {
            Factor::One => 10_000,
            Factor::Four => 71_680,
            Factor::Sixteen => 8_000_000,
        }
    }
}

/// What grows along a row of the table.
#[derive(Clone, Copy, PartialEq, Eq)]
pub enum Growth {
    /// How many calls are timed.
    Calls,
    /// How many files lie in the directory.
    Names,
    /// How many components the path of the directory's files has.
    Components,
    /// How many bytes the file has that is read and written.
    Bytes,
    /// How many inode numbers the store has.
    Inodes,
    /// How many entries the journal has before the timed calls.
    Entries,
    /// How many frames the cache has.
    Frames,
    /// How many segments the log has.
    Segments,
    /// How many bytes a large file has: 10,000, 71,680 and 8,000,000.
    Length,
}

impl Growth {
    /// What grows for calls on a large file.
    pub const OF_LARGE: [Growth; 1] = [Growth::Length];

    /// What may grow in a volume and its calls.
    pub const OF_VOLUMES: [Growth; 6] = [
        Growth::Calls,
        Growth::Names,
        Growth::Components,
        Growth::Bytes,
        Growth::Inodes,
        Growth::Entries,
    ];

    /// What may grow in a volume over a log and its calls.
    pub const OF_LOGS: [Growth; 7] = [
        Growth::Calls,
        Growth::Names,
        Growth::Components,
        Growth::Bytes,
        Growth::Inodes,
        Growth::Entries,
        Growth::Segments,
    ];

    /// What may grow in a cache and its calls.
    pub const OF_CACHES: [Growth; 2] = [Growth::Calls, Growth::Frames];

    /// The word of the table.
    pub fn name(self) -> &'static str {
        match self {
            Growth::Calls => "calls",
            Growth::Names => "names",
            Growth::Components => "components",
            Growth::Bytes => "bytes",
            Growth::Inodes => "inodes",
            Growth::Entries => "entries",
            Growth::Frames => "frames",
            Growth::Segments => "segments",
            Growth::Length => "length",
        }
    }
}

/// What grows, and how far.
#[derive(Clone, Copy)]
struct Grown {
    growth: Growth,
    factor: Factor,
}

impl Grown {
    /// How much there is of this where there is so much before it grows.
    fn of(self, of: Growth, amount: u32) -> u32
        requires { amount ≤ 65536 }
        ensures least { amount ≤ result }
        ensures most { result ≤ 16 * amount }
    {
        if of == self.growth {
            amount * self.factor.number()
        } else {
            amount
        }
    }
}

/// How large a run is.
#[derive(Clone, Copy)]
pub struct Scale {
    /// How many calls are timed: at most 1,048,576.
    pub calls: u32,
    /// How many files lie in the directory: 15 to 240.
    pub names: u32,
    /// How many components the path of each of them has: 2 to 112.
    pub components: u32,
    /// How many bytes the first of them has: 10,000 to 160,000, or up to 8,000,000 where its length grows.
    pub bytes: u32,
    /// How many inode numbers the store has: 256 to 4,096.
    pub inodes: u32,
    /// How many entries the journal has before the timed calls, besides those that make the tree: 1,024 to 16,384.
    pub entries: u32,
    /// How many frames the cache has: 32 to 512.
    pub frames: u32,
    /// How many segments the log has: 64 to 1,024.
    pub segments: u32,
    ghost bounded: { calls ≤ 1048576 },
    ghost named: { 0 < names },
    ghost filled: { 0 < bytes },
    ghost framed: { 32 ≤ frames },
    ghost within: { frames ≤ 1024 },
}

impl Scale {
    /// The scale of so many calls along paths of so many components, of which one thing is grown.
    pub fn grown(calls: u32, components: u32, growth: Growth, factor: Factor) -> Scale
        requires few_calls { calls ≤ 65536 }
        requires few_components { components ≤ 7 }
    {
        let grown = Grown { growth, factor };
        Scale {
            calls: grown.of(Growth::Calls, calls),
            names: grown.of(Growth::Names, 15),
            components: grown.of(Growth::Components, components),
            bytes: grown.of(Growth::Bytes, 10_000),
            inodes: grown.of(Growth::Inodes, 256),
            entries: grown.of(Growth::Entries, 1024),
            frames: grown.of(Growth::Frames, 32),
            segments: grown.of(Growth::Segments, 64),
        }
    }

    /// The scale of so many calls on a large file, over as large a log as there may be.
    pub fn large(calls: u32, components: u32, factor: Factor) -> Scale
        requires few_calls { calls ≤ 65536 }
        requires few_components { components ≤ 7 }
    {
        let mut scale = Scale::grown(calls, components, Growth::Length, factor);
        scale.bytes = factor.length();
        scale.segments = MOST_SEGMENTS;
        scale
    }

    /// How much there is of this.
    pub fn of(&self, growth: Growth) -> u32 {
        match growth {
            Growth::Calls => self.calls,
            Growth::Names => self.names,
            Growth::Components => self.components,
            Growth::Bytes => self.bytes,
            Growth::Inodes => self.inodes,
            Growth::Entries => self.entries,
            Growth::Frames => self.frames,
            Growth::Segments => self.segments,
            Growth::Length => self.bytes,
        }
    }
}
