//! The states of a film's page: what each frame shows.

/// The second part of the script, in JavaScript. A frame is a line of JSON: the number of the line, the line, what was
/// told of it, what waits, the rows that are new, and whose the blocks are that were written. Each 64th frame's whole log
/// is kept, so that any frame's is found by at most 63 steps.
pub const STATES: &[u8] = br#"const KEY_STEP = 64;
const frames = document.getElementById("film").textContent.trim().split("\n").map(text => JSON.parse(text));
const last = frames.length - 1;
const lineAt = at => frames[at][1], toldAt = at => frames[at][2], waitsAt = at => frames[at][3];
const isComment = line => line.startsWith('#');
const isChapter = line => line.startsWith('##');
const commentText = line => line.replace(/^#+ */, "");

const isOwners = text => text[0] === "+" || text[0] === "=";

// What stands in a block, by name: `NUMBER VERSION BLOCK` for a block of a file, `NUMBER VERSION` for each record.
const namesIn = part => part[0] === " " ? part.match(/\d+ \d+/g) : part ? [part] : [];

// A text of owners: the segment, the first block that it is about, and the names of that block and those behind it.
function ownersIn(text, owners) {
  const space = text.indexOf(" "), number = +text.slice(1, space), start = text[0] === "+" ? owners[number].length : 0;
  return { number, start, names: text.slice(space + 1).split(";").slice(0, -1).map(namesIn) };
}

// Puts what is new in a frame into the log: rows, and whose the blocks are.
function apply({ rows, owners }, frame) {
  for (let n = 4; n < frame.length; n++) {
    const text = frame[n];
    if (!isOwners(text)) {
      rows[parseInt(text, 10)] = text;
      owners[parseInt(text, 10)] ??= [];
    } else {
      const { number, start, names } = ownersIn(text, owners);
      owners[number] = owners[number].slice(0, start).concat(names);
    }
  }
}

const copyOfLog = ({ rows, owners }) => ({ rows: rows.slice(), owners: owners.slice() });

// The kind of mark that a frame has on the slider.
function markOf(line, told) {
  if (isChapter(line)) return "chapter";
  if (isComment(line) || line.startsWith(".")) return "";
  if (DENIED.test(told)) return "denied";
  if (REFUSED.test(told) || FAULT.test(told)) return "refused";
  return line === "pass" ? "pass" : "";
}

const keys = [], marks = [], chapters = [];
const callers = new Int32Array(last + 1), captions = new Int32Array(last + 1);

// Goes once through the film: whole logs, marks, and for each frame its caller's line and its caption's.
function readFilm() {
  const log = { rows: [], owners: [] };
  let caller = 0, caption = 0;
  frames.forEach((frame, at) => {
    const [, line, told] = frame;
    apply(log, frame);
    if (at % KEY_STEP === 0) keys.push(copyOfLog(log));
    if (line.startsWith("as ") && !FAULT.test(told)) caller = at;
    if (isComment(line)) caption = at;
    callers[at] = caller;
    captions[at] = caption;
    const kind = markOf(line, told);
    if (kind) marks.push({ at, kind });
    if (kind === "chapter") chapters.push(at);
  });
}

// The log as a frame shows it: its rows, and whose its blocks are.
function logAt(at) {
  const key = Math.floor(at / KEY_STEP), log = copyOfLog(keys[key]);
  for (let n = key * KEY_STEP + 1; n <= at; n++) apply(log, frames[n]);
  return log;
}

// The parts of a row.
function rowParts(text) {
  return {
    number: parseInt(text, 10),
    state: text.slice(5, 11).trim(),
    live: parseInt(text.slice(12, 17), 10),
    signs: text.slice(18, 82)
  };
}

// The comments that stand together up to a frame's caption.
function captionAt(at) {
  let start = captions[at];
  if (!isComment(lineAt(start))) return "";
  if (isChapter(lineAt(start))) return commentText(lineAt(start));
  const texts = [];
  for (let n = start; n > 0 && isComment(lineAt(n)) && !isChapter(lineAt(n)); n--) texts.unshift(commentText(lineAt(n)));
  return texts.join(" ");
}

// The chapter that a frame is in: its number among them, from 1, or 0.
function chapterAt(at) {
  let low = 0, high = chapters.length;
  while (low < high) {
    const middle = (low + high) >> 1;
    if (chapters[middle] <= at) low = middle + 1; else high = middle;
  }
  return low;
}

// Who asks in a frame, in words.
function callerAt(at) {
  const [, user, groups = "", init] = callers[at] ? lineAt(callers[at]).split(" ") : ["as", "0", "0"];
  const many = groups.includes(",") ? "groups " : "group ";
  return (user === "0" ? "the superuser" : "user " + user) + (init ? " as init" : "") + ", " + many + groups;
}
"#;
