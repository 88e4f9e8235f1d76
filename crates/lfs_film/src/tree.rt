//! The tree of a film's page: what the served lines made of it.

/// The third part of the script, in JavaScript. The tree isn't in the frames: it is what the lines that were served do,
/// as `docs/RULES.md` says, numbers too. Each 512th frame's whole tree is kept, so that any frame's is found by at most
/// 511 steps.
pub const TREE: &[u8] =
    br#"const TREE_STEP = 512, ROWS_MOST = 300, NAMES_MOST = 100, SET_ID = 0o6000;
const FLAG_NAMES = [[0x1, "nodump"], [0x2, "uchg"], [0x4, "uappnd"], [0x10000, "arch"], [0x20000, "schg"], [0x40000, "sappnd"]];
const CUT = / \.\.$/;

function row(number, kind, owner, group, mode) {
  return { number, kind, owner, group, mode, flags: 0, names: kind === "dir" ? new Map() : null };
}

function copied(from) {
  return { ...from, names: from.names && new Map([...from.names].map(([name, below]) => [name, copied(below)])) };
}

// Who asks in a frame.
function callerOf(at) {
  const [, user, groups, init] = callers[at] ? lineAt(callers[at]).split(" ") : ["as", "0", "0"];
  return { user: +user, groups: groups.split(",").map(Number), init: Boolean(init) };
}

const namesOf = path => path.split("/").filter(name => name);

// What a path leads to, or nothing.
const found = (root, names) => names.reduce((from, name) => from?.names?.get(name), root);

// What the last name of a path hangs in, and that name.
function parentOf(root, path) {
  const names = namesOf(path), name = names.pop();
  return [found(root, names), name];
}

// The least number that no row has, from 4 up; from then on it is used.
function freeNumber(used) {
  let number = 4;
  while (used.has(number)) number++;
  used.add(number);
  return number;
}

function make({ root, used }, caller, kind, path, mode) {
  const [parent, name] = parentOf(root, path);
  parent.names.set(name, row(freeNumber(used), kind, caller.user, parent.group, parseInt(mode, 8)));
}

function remove({ root, used }, path) {
  const [parent, name] = parentOf(root, path);
  used.delete(parent.names.get(name).number);
  parent.names.delete(name);
}

function move(tree, from, to) {
  const moved = found(tree.root, namesOf(from)), there = found(tree.root, namesOf(to));
  if (there === moved) return;
  if (there) remove(tree, to);
  const [parent, name] = parentOf(tree.root, to), [left, old] = parentOf(tree.root, from);
  left.names.delete(old);
  parent.names.set(name, moved);
}

// A change of bytes or of the owner by another than the superuser clears the set-id bits.
function clearSetId(changed, caller) {
  if (caller.user !== 0) changed.mode &= ~SET_ID;
}

// What each served call does to the tree.
const EFFECTS = {
  create: (tree, caller, [path, mode]) => make(tree, caller, "file", path, mode),
  mkdir: (tree, caller, [path, mode]) => make(tree, caller, "dir", path, mode),
  unlink: (tree, caller, [path]) => remove(tree, path),
  rmdir: (tree, caller, [path]) => remove(tree, path),
  rename: (tree, caller, [from, to]) => move(tree, from, to),
  chmod: ({ root }, caller, [path, mode]) => { found(root, namesOf(path)).mode = parseInt(mode, 8); },
  chflags: ({ root }, caller, [path, flags]) => { found(root, namesOf(path)).flags = parseInt(flags, 16); },
  chown: ({ root }, caller, [path, owner, group]) => {
    const changed = found(root, namesOf(path));
    Object.assign(changed, { owner: +owner, group: +group });
    clearSetId(changed, caller);
  },
  length: ({ root }, caller, [path]) => clearSetId(found(root, namesOf(path)), caller),
  write: ({ root }, caller, words) => {
    if (words.at(-1) !== "-") clearSetId(found(root, namesOf(words[0])), caller);
  }
};

// Puts the effect of a frame's line into the tree. A line that was cut may lack what it does: from there on nothing is known.
function follow(tree, at) {
  const line = lineAt(at), [verb, ...words] = line.split(" ");
  if (!tree.known || !Object.hasOwn(EFFECTS, verb) || !/^\d+ ok$/m.test(toldAt(at))) return;
  if (CUT.test(line) && verb !== "write") tree.known = false;
  else EFFECTS[verb](tree, callerOf(at), words);
}

const trees = [], copyOf = ({ root, used, known }) => ({ root: copied(root), used: new Set(used), known });

// Keeps the trees of some frames, once those before are read.
function readTrees() {
  const tree = { root: row(2, "dir", 0, 0, 0o755), used: new Set(), known: true };
  for (let at = 0; at <= last; at++) {
    follow(tree, at);
    if (at % TREE_STEP === 0) trees.push(copyOf(tree));
  }
}

// The tree as a frame leaves it, until it is asked for another: the last one goes on where the frame is a later one.
let latest = { at: Infinity, tree: null };
function treeAt(at) {
  const key = Math.floor(at / TREE_STEP);
  if (latest.at > at || latest.at < key * TREE_STEP) {
    latest = { at: key * TREE_STEP, tree: copyOf(trees[key]) };
  }
  while (latest.at < at) follow(latest.tree, ++latest.at);
  return latest.tree;
}

// The class whose bits judge a caller: nothing for the superuser, whom every mode lets through.
function classOf(caller, { owner, group }) {
  if (caller.user === 0) return null;
  return caller.user === owner ? "owner" : caller.groups.includes(group) ? "group" : "others";
}

// The bits of a class as letters: set-id and the sticky bit stand in the place of x, as `ls -l` has them.
function lettersOf(mode, shift, special, letter) {
  const has = bit => mode >> shift & bit, x = has(1) ? "x" : "-";
  const last = !(mode & special) ? x : x === "x" ? letter : letter.toUpperCase();
  return (has(4) ? "r" : "-") + (has(2) ? "w" : "-") + last;
}

function classesOf({ mode }) {
  return [["owner", lettersOf(mode, 6, 0o4000, "s")], ["group", lettersOf(mode, 3, 0o2000, "s")],
    ["others", lettersOf(mode, 0, 0o1000, "t")]];
}

const flagsOf = ({ flags }) => FLAG_NAMES.filter(([bit]) => flags & bit).map(([, name]) => name).join(",");

const countOf = ({ names }) => 1 + [...(names ?? new Map()).values()].reduce((sum, below) => sum + countOf(below), 0);

// The paths that a line names.
const pathsOf = line => wordsOf(line).slice(1).filter(word => word.startsWith("/"));

// The rows to be seen, each with its path: all of a small tree; else the directories on the line's ways, and of each at
// most a hundred names, those on a way among them.
function rowsOf(root, paths) {
  const all = countOf(root) <= ROWS_MOST, ways = new Set(), seen = [];
  for (const path of paths) namesOf(path).reduce((way, name) => (ways.add(way), way + "/" + name), "");
  for (const path of paths) ways.add("/" + namesOf(path).join("/"));
  const walk = (from, path, depth) => {
    seen.push({ from, path, depth });
    if (!from.names || !(all || path === "" || ways.has(path))) return;
    const names = [...from.names.keys()].sort(), few = names.filter((name, n) => all || n < NAMES_MOST || ways.has(path + "/" + name));
    for (const name of few) walk(from.names.get(name), path + "/" + name, depth + 1);
    if (few.length < names.length) seen.push({ more: names.length - few.length, depth: depth + 1 });
  };
  walk(root, "", 0);
  return seen;
}

// The paths of a tree, by their numbers.
function pathsByNumber(root) {
  const paths = new Map();
  const walk = (from, path) => {
    paths.set(from.number, path || "/");
    for (const [name, below] of from.names ?? []) walk(below, path + "/" + name);
  };
  walk(root, "");
  return paths;
}

// The path up to a component of it.
const pathTo = (path, component) => namesOf(path).slice(0, component).map(name => "/" + name).join("");
"#;
