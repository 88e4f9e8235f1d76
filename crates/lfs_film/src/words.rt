//! The words of a film's page: what rules, refusals, faults and signs say.

/// The first part of the script, in JavaScript: a sentence for each, and which one an answer asks for.
pub const WORDS: &[u8] = br#"const RULES = {
  N1: "What should be a directory is a file.",
  S1: "The directory's mode does not let the caller search it.",
  N2: "The directory has no such name.",
  N3: "The name is there already.",
  K1: "What should be a file is a directory.",
  K2: "The directory is not empty.",
  K3: "The root itself is named.",
  K4: "A directory cannot move into itself or beneath itself.",
  F1: "A flag makes it immutable, for the superuser too.",
  F2: "A flag makes it append-only, for the superuser too: only a write at the end is let through.",
  M1: "The mode does not let the caller read.",
  M2: "The mode does not let the caller write.",
  Y1: "The directory is sticky: only the superuser, its owner and the owner of the named thing may take a name away.",
  O1: "The caller is neither the owner nor the superuser.",
  O2: "Only the superuser gives it to another user; the owner may set one of his own groups.",
  U1: "Only the superuser may ask for this.",
  L1: "Only the superuser changes system flags, or any flag of what a system flag locks.",
  L2: "Above level 0 nobody clears a system lock.",
  L3: "Only init may lower the level.",
  Z1: "The file would be longer than 8,460,288 bytes."
};
const REFUSALS = {
  NoMemory: "There is no memory for it.",
  NoSpace: "There is no room in the log: two segments are kept for the cleaner.",
  NoInodes: "All inode numbers are in use.",
  DirectoryFull: "The directory has all the blocks that it may have.",
  JournalFull: "The journal has all the entries that it may have."
};
const FAULTS = {
  Cut: "The line has no end.",
  Bytes: "A byte of the line is no printable ASCII.",
  Words: "The words are unknown, too few or too many.",
  Many: "It names too many infos.",
  Number: "A number is not written as it should be.",
  Range: "A number is out of its range.",
  Path: "The path is not allowed: absolute, no name empty, too long, '.' or '..'.",
  Hex: "The bytes are not pairs of the digits 0-9 a-f.",
  Cred: "There is no such caller: too many groups, or init for another than user 0.",
  Memory: "There is no memory for it.",
  TooLong: "The line is too long.",
  NoSuchSegment: "The volume has no such segment.",
  Active: "The segment is being written.",
  NotDirty: "The segment is not dirty.",
  Live: "Something in the segment is still live.",
  NoSpace: "There is no room to write the live blocks again."
};
const CALLS = {
  sync: "What waits in memory is written to the log.",
  pass: "The cleaner writes again what is live in the dirty segments with the least of it, and makes them clean.",
  ifile: "The cleaner asks how the segments are used.",
  infos: "The cleaner asks what the summaries of a segment name.",
  bmapv: "The cleaner asks where these blocks are now.",
  markv: "The cleaner asks to write again those of these blocks that are where it says.",
  segclean: "The cleaner asks to make a segment clean.",
  gain: "The cleaner asks to clean any segment where that gains room.",
  as: "Another caller asks from here on.",
  session: "Another session asks from here on.",
  ".why": "It asks which rules the call would meet, and does not make it."
};
const SIGNS = {
  L: ["label", "live: the volume's first block"],
  S: ["summary", "tells whose the blocks behind it are"],
  D: ["data", "live: its file has it here"],
  d: ["data", "dead: its file has a newer one, or is gone"],
  I: ["indirect block", "live: its file finds further blocks by it"],
  i: ["indirect block", "dead: its file has a newer one, or is gone"],
  R: ["inode records", "live: each of them is the newest"],
  p: ["inode records", "live in part: some of them are the newest"],
  r: ["inode records", "dead: each has a newer one, or its file is gone"],
  ".": ["not written", "the log has not come here"]
};
const DENIED = /^(?:\d+ )?(?:cleaner \w+ )?denied ([A-Z]\d)(?: (\w+) (\d) (\d+))?$/m;
const REFUSED = /^(?:\d+ )?(?:cleaner \w+ )?refused (\w+)$/m;
const FAULT = /^(?:\d+ )?(?:cleaner \w+ )?fault (\w+)/m;
const TEXT_MOST = 48;
const wordsOf = line => line.split(" ").slice(line.startsWith(".why ") ? 1 : 0);

// Where the judged component stands in a line: [start, end], or nothing where it was cut or the call has no path.
function placeOf(line, path, component) {
  const words = wordsOf(line), nth = 1 + path;
  if (!words[nth]?.startsWith("/")) return null;
  const start = line.length - words.slice(nth).join(" ").length;
  if (component === 0) return [start, start + 1];
  const names = words[nth].split("/");
  if (component >= names.length) return null;
  const from = start + names.slice(0, component).join("/").length + 1;
  return [from, from + names[component].length];
}

// The path and the component that an answer denies at, if it denies.
function deniedOf(told) {
  const [, , error, path, component] = DENIED.exec(told) ?? [];
  return error ? { path: +path, component: +component } : {};
}

// The bytes that a line writes, or else those that an answer has, as a sentence where they are text.
function bytesWords(line, told) {
  const written = /^write \S+ (?:end|at \d+) ((?:[0-9a-f]{2})+)/.exec(line);
  const read = /^\d+ bytes ((?:[0-9a-f]{2})+)/m.exec(told);
  const [from, hex] = written ? [line, written[1]] : read ? [told, read[1]] : ["", ""], isCut = from.endsWith(" ..");
  const text = hex.replace(/../g, pair => String.fromCharCode(parseInt(pair, 16)));
  if (!/^[\x20-\x7e\n]+$/.test(text)) return "";
  const few = text.replaceAll("\n", " ").slice(0, TEXT_MOST), more = isCut || few.length < text.length ? " .." : "";
  return (written ? " It writes the text " : " It has the text ") + '"' + few + more + '".';
}

// What an answer says: its kind, a heading, a sentence, and the place in the line that it is about.
function verdictOf(line, told) {
  const denied = DENIED.exec(told), refused = REFUSED.exec(told), fault = FAULT.exec(told);
  if (denied) {
    const [, rule, error, path, component] = denied, place = error ? placeOf(line, +path, +component) : null;
    const name = place && line.slice(...place);
    const where = !place ? "" : name === "/" ? " Judged: the root." : " Judged: " + name + ", component " + component + ".";
    const heading = (line.startsWith(".why") ? "Would be denied" : "Denied") + " by rule " + rule;
    return { kind: "denied", heading: heading + (error ? " (" + error + ")" : ""), says: RULES[rule] + where, place };
  }
  if (refused) return { kind: "refused", heading: "Refused: " + refused[1], says: REFUSALS[refused[1]] ?? "" };
  if (fault) return { kind: "refused", heading: "Fault: " + fault[1], says: FAULTS[fault[1]] ?? "" };
  return { kind: "done", heading: "", says: (CALLS[line.split(" ", 1)[0]] ?? "") + bytesWords(line, told) };
}

const counted = (count, word) => (count || "no") + " " + word + (count === 1 ? "" : "s");

// What waits, in words.
function waitingWords(text) {
  const [, blocks, records] = /(\d+) blocks (\d+) records/.exec(text) ?? [0, 0, 0];
  if (!+blocks && !+records) return "Nothing waits: all is in the log.";
  return counted(+blocks, "block") + " and " + counted(+records, "inode record") + " wait in memory, in no segment yet.";
}
"#;
