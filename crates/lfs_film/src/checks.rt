//! The checks of a film's page: which rules a denied call was asked, up to the one that failed.

/// The fifth part of the script, in JavaScript. The order of a call's rules is that of `docs/RULES.md`. Whether each was
/// met is what the answer says: all up to the one that it names, and not that one. What each was asked of is in the tree.
pub const CHECKS: &[u8] = br#"const ASKS = {
  N1: "directory", S1: "search", N2: "name there", N3: "name free", K1: "no directory", K2: "empty", K3: "not the root",
  K4: "not beneath", F1: "not immutable", F2: "not append-only", M1: "read", M2: "write", Y1: "sticky", O1: "owner",
  O2: "set owner", U1: "superuser", L1: "set flags", L2: "keeps locks", L3: "set level", Z1: "fits"
};

// What a call is asked of what its path leads to, behind the walk.
const REACHING = {
  stat: "", read: "K1 M1", list: "N1 M1", write: "K1 F1 M2 F2 Z1", length: "K1 F1 M2 F2 Z1", chmod: "F1 F2 O1",
  chown: "F1 F2 O2", chflags: "O1 L1 L2"
};

// Rules asked at a component of a path.
const asked = (rules, path, at) => rules.split(" ").filter(rule => rule).map(rule => ({ rule, path, at }));

// Those of a walk along so many names of a path.
const walked = (path, count) => Array.from({ length: count }, (_, at) => [asked("N1 S1", path, at), asked("N2", path, at + 1)]).flat(2);

// Those of what gets a row, of what loses one, and of the place that a moved row gets.
function making({ length }) {
  const dir = Math.max(0, length - 1);
  return [...asked("N3", 0, 0), ...walked(0, dir), ...asked("N1 S1", 0, dir), ...asked("N3", 0, length), ...asked("F1 M2", 0, dir)];
}

const losing = (path, { length }) => [...asked("F1 M2 F2", path, length - 1), ...asked("Y1 F1 F2", path, length)];

const removing = from => [...asked("K3", 0, 0), ...walked(0, from.length), ...losing(0, from)];

function arriving(root, from, to) {
  const dir = Math.max(0, to.length - 1), moved = found(root, from), there = found(root, to);
  const way = [...asked("K3", 1, 0), ...walked(1, dir), ...asked("N1 S1", 1, dir)];
  if (there && there === moved) return way;
  const placing = there ? [...losing(1, to), ...asked("K1 N1 K2", 1, to.length)] : asked("F1 M2", 1, dir);
  const beneath = to.findIndex((_, at) => found(root, to.slice(0, at)) === moved);
  return [...way, ...placing, ...asked("K4", 1, beneath < 0 ? to.length : beneath), ...asked("M2", 0, from.length)];
}

// What a call is asked, in order.
function tableOf(line, root) {
  const [verb] = wordsOf(line), [from = [], to = []] = pathsOf(line).map(namesOf);
  if (Object.hasOwn(REACHING, verb)) return [...walked(0, from.length), ...asked(REACHING[verb], 0, from.length)];
  switch (verb) {
    case "create": case "mkdir": return making(from);
    case "unlink": return [...removing(from), ...asked("K1", 0, from.length)];
    case "rmdir": return [...removing(from), ...asked("N1 K2", 0, from.length)];
    case "rename": return [...removing(from), ...arriving(root, from, to)];
    case "level": return asked("U1 L3", 0, 0);
    case "sync": return [];
    default: return asked("U1", 0, 0);
  }
}

// Whether a path of a line was cut.
const isPathCut = line => CUT.test(line) && line.split(" ").at(-2).startsWith("/");

// The checks of a call that was denied, or of which `.why` asked, with the last one unmet where it is denied. Nothing for
// another line, and where the tree isn't known.
function checksAt(at) {
  const line = lineAt(at), told = toldAt(at), [, rule, , path = 0, component = 0] = DENIED.exec(told) ?? [];
  const isAllowed = line.startsWith(".why ") && /^allowed$/m.test(told), { root, known } = treeAt(at);
  if (!(rule || isAllowed) || !known || isPathCut(line)) return null;
  const table = tableOf(line, root);
  if (isAllowed) return table.map(check => ({ ...check, met: true }));
  const end = table.findIndex(check => check.rule === rule && check.path === +path && check.at === +component);
  return end < 0 ? null : table.slice(0, end + 1).map((check, n) => ({ ...check, met: n < end }));
}

// Of what a rule is asked, in words: the row that stands at a component, with what the rule looks at.
function subjectWords({ rule, path, at }, line, root, caller) {
  const text = pathsOf(line)[path], names = namesOf(text ?? ""), row = found(root, names.slice(0, at));
  const dir = found(root, names.slice(0, Math.max(0, at - 1))), name = at ? names[at - 1] : text === undefined ? "" : "/";
  const where = (path ? "to: " : "") + name;
  return [where, row ? detailOf(rule, row, dir, caller) : ""];
}

// What a rule looks at in a row.
function detailOf(rule, row, dir, caller) {
  switch (rule) {
    case "N1": case "K1": return row.kind === "dir" ? "directory" : "file";
    case "S1": case "M1": case "M2": return bitsWords(row, caller);
    case "F1": case "F2": return flagsOf(row) || "no flags";
    case "Y1": return "owners " + row.owner + ", " + dir.owner + (dir.mode & 0o1000 ? ", sticky" : "");
    case "O1": case "O2": return "owner " + row.owner;
    case "L1": case "L2": return flagsOf(row) || "no flags";
    default: return "";
  }
}

// The class by which a caller is judged, and its bits.
function bitsWords(row, caller) {
  const judge = classOf(caller, row);
  return judge ? judge + " " + classesOf(row).find(([name]) => name === judge)[1] : "superuser";
}
"#;
