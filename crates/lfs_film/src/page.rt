//! The page of a film: HTML that stands alone, with its style, its frames and its script.

ghost use Rattle.std.specs.Prelude.{◌≡◌, OnOk};
ghost use Rattle.std.specs.Io.KnownBytes.{Appends};
ghost use Rattle.lfs_film.specs.Films.{code_text, head_text, page_of, seen_text, shown_text, story_text, tail_text, told_of};

use crate::blocks::BLOCKS;
use crate::checks::CHECKS;
use crate::script::SCRIPT;
use crate::states::STATES;
use crate::style::STYLE;
use crate::tree::TREE;
use crate::words::WORDS;
use lfs_io::output::{WriteFault, flush, write_text};
use std::io::Write;

/// The page up to its style.
pub const HEAD: &[u8] = br#"<!doctype html>
<html lang="en"><head><meta charset="utf-8"><meta name="viewport" content="width=device-width, initial-scale=1">
<title>A film of the log</title>
<style>"#;

/// Behind the style: what is seen, up to what is told of a film that is full.
pub const BODY: &[u8] = br#"</style></head><body>
<header>
<button id="first" aria-label="first frame">&#124;&#9664;</button>
<button id="back" aria-label="frame before">&#9664;</button>
<button id="play">play</button>
<button id="on" aria-label="next frame">&#9654;</button>
<button id="end" aria-label="last frame">&#9654;&#124;</button>
<label>speed <select id="speed">
<option value="0.25">&#188;</option><option value="0.5">&#189;</option><option value="1">1</option>
<option value="2" selected>2</option><option value="4">4</option><option value="8">8</option>
</select></label>
<label>line <input id="jump" type="number" min="0" value="0"></label> <span id="where"></span>
<select id="chapter" aria-label="chapter"></select>
<small>keys: space, arrows, page up and down (10 frames), Home, End</small>
</header>
<div id="scale"><input id="at" type="range" min="0" value="0" aria-label="frame"><div id="marks"></div></div>
<div id="top">
<section id="talk">
<p id="caption"></p>
<pre id="line"></pre>
<pre id="answer"></pre>
<p id="verdict"></p>
</section>
<section id="files" aria-label="the tree: mode, owner, group, flags, name">
<p id="caller"></p>
<div id="tree"></div>
</section>
</div>
<main>
<section id="volume">
<p id="waits"></p>
<div id="log" tabindex="0" role="img" aria-label="segments, block by block; arrows move a cursor" aria-describedby="cell"></div>
<p id="cell" aria-live="polite"></p>
</section>
<aside>
<section id="checks">
<h2>The rules asked, in order</h2>
<div id="asked"></div>
</section>
<section id="legend">
<h2>A block</h2>
<p><i data-sign="S"></i> <b>Summary</b>: names the blocks behind it, up to the next one: whose they are.</p>
<p><i data-sign="D"></i> <b>Data</b>: bytes of a file, or names of a directory.</p>
<p><i data-sign="I"></i> <b>Indirect</b>: addresses of more blocks of a file.</p>
<p><i data-sign="R"></i> <b>Inode records</b>: up to four; owner, mode, size, first addresses.
<i data-sign="p"></i> some of them live.</p>
<p><i data-sign="d"></i> <i data-sign="i"></i> <i data-sign="r"></i> <b>Dead</b>: there is a newer one, or the file is
gone.</p>
<p><i data-sign="L"></i> <b>Label</b>: how large the volume is. <i data-sign="."></i> Not written.</p>
<p><i data-sign="D" class="other"></i> <b>Outlined</b>: this line changed it.
<i data-sign="d" class="left"></i> <i data-sign="D" class="came"></i> Where the cleaner took it from, and where to.</p>
<h2>A segment: 64 blocks</h2>
<p><b class="active">Active</b>: the log is being written here, from left to right, and never over what is there.</p>
<p><b>Dirty</b>: was written. The cleaner writes again what is live in it, and then it is clean.</p>
<p><b class="clean">Clean</b>: nothing in it is live; the log may go on here.</p>
<p><span class="live" style="--share:40%">13000</span> <b>Live bytes</b>: 512 for a block, 128 for a record.</p>
</section>
</aside>
</main>
"#;

/// What is told of a film that is full.
pub const FULL: &[u8] =
    br#"<p><b>No more frames are kept behind 19,000,000 bytes: the talk went on.</b></p>
"#;

/// Before the frames.
pub const FRAMES: &[u8] = br#"<script id="film" type="application/json">
"#;

/// Behind the frames, up to the script.
pub const CODE: &[u8] = br#"</script>
<script>
"#;

/// Behind the script.
pub const TAIL: &[u8] = br#"</script></body></html>
"#;

/// Writes the page of frames.
///
/// # Errors
///
/// The writer failed.
pub(crate) fn write_parts<W: Write>(
    writer: &mut W,
    frames: &[u8],
    is_full: bool,
) -> Result<(), WriteFault>
    ensures { OnOk result (Appends (W.contents writer.old) (W.contents writer.new)
        (page_of frames.now is_full)) }
{
    write_head(writer, is_full)?;
    write_text(writer, frames)?;
    write_tail(writer)?;
    flush(writer)
}

/// Writes what stands before the frames.
fn write_head<W: Write>(writer: &mut W, is_full: bool) -> Result<(), WriteFault>
    ensures { OnOk result (Appends (W.contents writer.old) (W.contents writer.new)
        (head_text is_full)) }
{
    write_seen(writer)?;
    write_text(writer, told_of(is_full))?;
    write_text(writer, FRAMES)
}

/// Writes the style and what is seen.
fn write_seen<W: Write>(writer: &mut W) -> Result<(), WriteFault>
    ensures { OnOk result (Appends (W.contents writer.old) (W.contents writer.new) seen_text) }
{
    write_text(writer, HEAD)?;
    write_text(writer, STYLE)?;
    write_text(writer, BODY)
}

/// What is told of a film, if it is full.
fn told_of(is_full: bool) -> &'static [u8]
    ensures { result.now ≡ told_of is_full }
{
    if is_full { FULL } else { &[] }
}

/// Writes what stands behind the frames.
fn write_tail<W: Write>(writer: &mut W) -> Result<(), WriteFault>
    ensures { OnOk result (Appends (W.contents writer.old) (W.contents writer.new) tail_text) }
{
    write_text(writer, CODE)?;
    write_code(writer)?;
    write_text(writer, TAIL)
}

/// Writes the script.
fn write_code<W: Write>(writer: &mut W) -> Result<(), WriteFault>
    ensures { OnOk result (Appends (W.contents writer.old) (W.contents writer.new) code_text) }
{
    write_story(writer)?;
    write_shown(writer)
}

/// Writes what the script knows: words, states and the tree.
fn write_story<W: Write>(writer: &mut W) -> Result<(), WriteFault>
    ensures { OnOk result (Appends (W.contents writer.old) (W.contents writer.new) story_text) }
{
    write_text(writer, WORDS)?;
    write_text(writer, STATES)?;
    write_text(writer, TREE)
}

/// Writes what the script shows: blocks, checks, and the rest.
fn write_shown<W: Write>(writer: &mut W) -> Result<(), WriteFault>
    ensures { OnOk result (Appends (W.contents writer.old) (W.contents writer.new) shown_text) }
{
    write_text(writer, BLOCKS)?;
    write_text(writer, CHECKS)?;
    write_text(writer, SCRIPT)
}
