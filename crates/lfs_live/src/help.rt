//! What `.help` tells.

ghost use Rattle.std.specs.Prelude.{◌≡◌, ◌++◌, OnOk};
ghost use Rattle.std.specs.List.{flat_map};
ghost use Rattle.lfs_live.specs.HelpText.{help_text};
ghost use Rattle.lfs_live.specs.Pieces.{ended_line};

use std::alloc::AllocError;

/// Its lines: each call and each word of the server's own, with an example.
const HELP: [&str; 40] = [
    "A line is a call, `as`, `session`, `#` and a comment, or a word with a dot. Behind each its example:",
    "as USER GROUPS [init]  who makes the calls from here on: as 7 20,30",
    "session N  the session of the calls from here on, 0 to 8: session 1",
    "stat PATH  a file's number, kind, owner, group, mode, flags and length: stat /a",
    "read PATH OFFSET LENGTH  bytes of a file: read /a 0 5",
    "write PATH at OFFSET BYTES  puts bytes of two digits each there: write /a at 0 68656c6c6f",
    "write PATH end BYTES  puts bytes behind the last: write /a end 21",
    "list PATH  the names in a directory: list /",
    "length PATH LENGTH  sets how many bytes a file has: length /a 3",
    "create PATH MODE  makes a file: create /a 0644",
    "mkdir PATH MODE  makes a directory: mkdir /d 0755",
    "unlink PATH  takes a file away: unlink /a",
    "rmdir PATH  takes an empty directory away: rmdir /d",
    "rename PATH PATH  gives a file or a directory another name: rename /a /d/b",
    "chmod PATH MODE  sets a mode: chmod /a 0600",
    "chown PATH USER GROUP  sets owner and group: chown /a 7 20",
    "chflags PATH FLAGS  sets flags: chflags /a 2",
    "level LEVEL  sets the securelevel, -1 to 2: level 1",
    "sync  writes what waits: sync",
    "pass  has the cleaner make a pass: pass",
    "ifile  a call of the cleaner, as are the next five: ifile",
    "infos SEGMENT  the blocks of a segment: infos 0",
    "bmapv [INFO]..  where these blocks are now: bmapv 4:1:0:17",
    "markv [INFO]..  writes these blocks anew: markv 4:1:0:17",
    "segclean SEGMENT  makes a segment clean: segclean 0",
    "gain  cleans a segment where that gains room: gain",
    ".why CALL  the checks by which a call would be allowed or denied now, without making it: .why unlink /a",
    ".who CALL  who could make a call now, over all callers, without making it: .who write /a end 21",
    ".ls PATH  the names in a directory, each with kind, owner, group, mode, flags and length: .ls /",
    ".tree [PATH]  what is below a directory, else below the root: rows as .ls tells them, indented: .tree /d",
    ".cat PATH  the bytes of a file as text: .cat /a",
    ".journal [K]  what was asked and answered so far, or the last K of it: .journal 5",
    ".map  what stands in each segment of the log: .map",
    ".segment N  each block of a segment: whose it is, where that stands now, live or dead: .segment 0",
    ".space  clean segments, live bytes, numbers in use, what waits, and the journal's entries: .space",
    ".check  whether the volume is well, as lfs_check says of its image, once nothing waits: .check",
    ".save  writes what waits, and saves the volume in the file of --image: .save",
    ".report  how many calls were served, denied and refused so far: .report",
    ".help  these lines, as help and ? alone: .help",
    ".quit  ends with the report, as the end of the input does: .quit",
];

/// Appends the text of `.help`.
#[tactic(auto, unfolding(crate::specs::HelpText::help_text))]
pub fn push_help(out: &mut Vec<u8>) -> Result<(), AllocError>
    ensures { OnOk result (out.new.items ≡ out.old.items ++ help_text) }
{
    push_lines(out, &HELP)
}

/// Appends texts, each with a line feed.
fn push_lines(out: &mut Vec<u8>, lines: &[&str]) -> Result<(), AllocError>
    ensures { OnOk result (out.new.items
        ≡ out.old.items ++ flat_map (λ line. ended_line line.now) lines.now) }
{
    for line in lines {
        push_line(out, line)?;
    }
    Ok(())
}

/// Appends a text and a line feed.
fn push_line(out: &mut Vec<u8>, text: &str) -> Result<(), AllocError>
    ensures { OnOk result (out.new.items ≡ out.old.items ++ ended_line text.now) }
{
    out.extend_from_slice(text.as_bytes())?;
    out.extend_from_slice(b"\n")
}
