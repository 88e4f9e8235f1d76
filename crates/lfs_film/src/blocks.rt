//! The blocks of a film's page: whose each is, and what a line wrote again.

/// The fourth part of the script, in JavaScript. A block of a file is live at one address. So what was live at one address
/// and is live at another that the line wrote, was written again there. Of a record that several blocks have which are
/// live in part, the old address isn't known.
pub const BLOCKS: &[u8] = br#"const SEGMENT = 64, NO_CHANGES = { written: new Set(), moves: [] };
const segmentOf = address => Math.floor(address / SEGMENT), blockOf = address => address % SEGMENT;

// The addresses of the blocks that a frame's line wrote into a log.
function writtenIn(frame, { owners }) {
  const written = new Set();
  for (const text of frame.slice(4).filter(isOwners)) {
    const { number, start, names } = ownersIn(text, owners);
    names.forEach((_, n) => written.add(SEGMENT * number + start + n));
  }
  return written;
}

// The addresses at which these names are live.
function placesOf({ rows, owners }, wanted) {
  const sure = new Map(), inPart = new Map();
  owners.forEach((blocks, number) => blocks.forEach((names, block) => names.forEach(name => {
    if (!wanted.has(name)) return;
    const sign = rowParts(rows[number]).signs[block], address = SEGMENT * number + block;
    if ("DIR".includes(sign)) sure.set(name, address);
    if (sign === "p") inPart.set(name, inPart.has(name) ? null : address);
  })));
  return new Map([...inPart].filter(([, address]) => address !== null).concat([...sure]));
}

// Whether the cleaner moved what stood at an address: `markv` names it, or a pass took it out of a segment that was dirty.
function isMoved(line, from, before, now) {
  if (line.startsWith("markv ")) return line.split(" ").some(info => info.endsWith(":" + from));
  const stateIn = ({ rows }) => rowParts(rows[segmentOf(from)]).state;
  return line === "pass" && stateIn(before) === "dirty" && stateIn(now) !== "dirty";
}

// What a frame's line wrote, and what of it was live elsewhere before.
function changesIn(frame, before, now) {
  const written = writtenIn(frame, before), names = new Set();
  for (const address of written) now.owners[segmentOf(address)][blockOf(address)].forEach(name => names.add(name));
  if (names.size === 0) return NO_CHANGES;
  const old = placesOf(before, names), present = placesOf(now, names), moves = [];
  for (const [name, to] of present) {
    const from = old.get(name);
    if (from !== undefined && from !== to && written.has(to)) moves.push({ from, to, moved: isMoved(frame[1], from, before, now) });
  }
  return { written, moves };
}

// The addresses to which what stood at one was written, and those at which what stands there was before.
const newPlaces = (address, { moves }) => [...new Set(moves.filter(({ from }) => from === address).map(({ to }) => to))];
const oldPlaces = (address, { moves }) => [...new Set(moves.filter(({ to }) => to === address).map(({ from }) => from))];

// The versions of the numbers of which something is live.
function versionsIn({ rows, owners }) {
  const versions = new Map();
  owners.forEach((blocks, number) => {
    const { signs } = rowParts(rows[number]);
    blocks.forEach((names, block) => {
      if ("DIR".includes(signs[block])) names.forEach(name => versions.set(...name.split(" ").map(Number)));
    });
  });
  return versions;
}

// Which block of a file a number says, as an info has it.
function logicalWords(which) {
  if (which < 0x80000000) return "block " + which;
  if (which === 0x80000000) return "the single indirect block";
  return which === 0x80000001 ? "the double indirect block" : "block " + (which - 0x80000100) + " beneath the double indirect one";
}

// Whether the number of a name has its version now.
function isPresent(name, versions) {
  const [number, version] = name.split(" ").map(Number);
  return versions.get(number) === version;
}

// Whose a block is, in words: the path too, where the number has this version now.
function ownerWords(name, versions, paths) {
  const [number, version, which] = name.split(" ").map(Number), path = isPresent(name, versions) && paths.get(number);
  const owner = "number " + number + " (version " + version + (path ? ", " + path : "") + ")";
  return which === undefined ? owner : logicalWords(which) + " of " + owner;
}

// What stands in a block, in words: a summary tells how many blocks follow it.
function cellWords({ number, signs }, block, names, versions, paths) {
  const sign = signs[block], [kind, life] = SIGNS[sign], where = "segment " + number + ", block " + block;
  const behind = sign === "S" ? signs.slice(block + 1).search(/[S.]|$/) : 0;
  const more = behind ? " (" + counted(behind, "block") + ")" : "";
  const owners = names.map(name => ownerWords(name, versions, paths)).join(" and ");
  return where + ", address " + (SEGMENT * number + block) + ": " + kind + (owners ? ", " + owners : "") + ", " + life + more + ".";
}

// Where a block was before the line, and where it is now, in words.
function moveWords(address, changes) {
  const from = oldPlaces(address, changes), to = newPlaces(address, changes);
  const isMove = changes.moves.some(move => move.moved && (move.from === address || move.to === address));
  const words = isMove ? " The cleaner moved it here from address " : " This line wrote it again; before, it was at address ";
  const gone = isMove ? " The cleaner moved it from here to address " : " This line wrote it again, at address ";
  return (from.length ? words + from.join(" and ") + "." : "") + (to.length ? gone + to.join(" and ") + "." : "");
}
"#;
