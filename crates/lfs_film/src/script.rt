//! The script of a film's page: what it shows, and how one goes through it.

/// The last part of the script, in JavaScript.
pub const SCRIPT: &[u8] = br#"const SEGMENT_BYTES = 32768, PAGE = 10, FEWEST_LETTERS = 9;
const byId = name => document.getElementById(name);
const log = byId("log"), slider = byId("at"), jump = byId("jump"), talk = byId("talk");
const segments = [];
let at = -1, timer = null, shown = { rows: [], owners: [] }, changes = NO_CHANGES, outlined = new Set(), cursor = null, inks = {};
let owned = { at: -1 };

function element(name, className, parent) {
  const made = document.createElement(name);
  made.className = className;
  parent.appendChild(made);
  return made;
}

// Makes the places of a segment: they stay, and only what stands in them changes.
function addSegment(number) {
  const segment = element("div", "segment", log);
  const parts = { segment, number: element("span", "number", segment), state: element("span", "state", segment),
    live: element("span", "live", segment), cells: element("canvas", "cells", segment), signs: "", others: new Set(), left: new Set(), came: new Set() };
  parts.number.textContent = number;
  parts.cells.number = number;
  parts.pen = parts.cells.getContext("2d");
  segments.push(parts);
}

// Stripes of a colour, for what is dead.
function stripes(pen, colour, ground) {
  const tile = document.createElement("canvas"), tilePen = tile.getContext("2d");
  tile.width = tile.height = 4;
  tilePen.fillStyle = ground;
  tilePen.fillRect(0, 0, 4, 4);
  tilePen.fillStyle = colour;
  for (let n = 0; n < 4; n++) tilePen.fillRect(n, n, 1, 1);
  return pen.createPattern(tile, "repeat");
}

// Reads the colours of the style, as they are in light, in dark or in print.
function readInks() {
  const style = getComputedStyle(document.documentElement), colour = name => style.getPropertyValue("--" + name).trim();
  const [data, indirect, records, dead] = ["data", "indirect", "records", "dead"].map(colour), pen = segments[0].pen;
  inks = { D: data, I: indirect, R: records, S: colour("summary"), L: colour("label"), p: dead, ".": dead,
    d: stripes(pen, data, dead), i: stripes(pen, indirect, dead), r: stripes(pen, records, dead),
    records, ink: colour("ink"), ground: colour("ground"), cursor: colour("denied"), moved: colour("moved") };
}

function drawFrame(pen, x, width, height, line, ink, dashes = []) {
  pen.strokeStyle = ink;
  pen.lineWidth = line;
  pen.setLineDash(dashes);
  pen.strokeRect(x + line / 2, line / 2, width - line, height - line);
}

function drawCell({ pen, cells, signs, others, left, came }, block, letters) {
  const x = Math.round(block * cells.width / SEGMENT), next = Math.round((block + 1) * cells.width / SEGMENT);
  const width = next - x - 1, height = cells.height, sign = signs[block];
  pen.fillStyle = inks[sign];
  pen.fillRect(x, 0, width, height);
  if (sign === "p") {
    pen.fillStyle = inks.records;
    pen.fill(new Path2D("M" + x + " 0h" + width + "L" + x + " " + height));
  }
  if (letters && sign !== ".") {
    pen.fillStyle = "DIRSL".includes(sign) ? inks.ground : inks.ink;
    pen.fillText(sign, x + width / 2, height / 2 + 1);
  }
  if (others.has(block)) drawFrame(pen, x, width, height, 2, inks.ink);
  if (came.has(block)) drawFrame(pen, x, width, height, 3, inks.moved);
  if (left.has(block)) drawFrame(pen, x, width, height, 3, inks.moved, [4, 3]);
  if (isPointed(SEGMENT * cells.number + block)) drawFrame(pen, x, width, height, 4, inks.cursor);
}

// The cursor's block, and the old or the new places of what stands there, where the line wrote it again.
function pointedAt() {
  if (!cursor) return [];
  const address = SEGMENT * cursor[0] + cursor[1];
  return [address, ...oldPlaces(address, changes), ...newPlaces(address, changes)];
}

let pointed = [];
const isPointed = address => pointed.includes(address);

function drawCells(parts) {
  const { pen, cells } = parts, letters = cells.width / SEGMENT >= FEWEST_LETTERS * devicePixelRatio;
  pen.clearRect(0, 0, cells.width, cells.height);
  pen.font = Math.min(cells.width / SEGMENT, cells.height) * 0.8 + "px monospace";
  pen.textAlign = "center";
  pen.textBaseline = "middle";
  for (let block = 0; block < SEGMENT; block++) drawCell(parts, block, letters);
}

function drawAll() {
  readInks();
  segments.forEach(drawCells);
}

// The blocks of a segment among addresses.
const within = (number, addresses) => new Set(addresses.filter(address => segmentOf(address) === number).map(blockOf));

// Paints a row, and outlines what the line wrote or made another, and the old and the new place of what the cleaner moved.
function paintRow(text, before) {
  const { number, state, live, signs } = rowParts(text), parts = segments[number], old = before && rowParts(before).signs;
  parts.segment.className = "segment " + state + (before && before !== text ? " other" : "");
  parts.state.textContent = state;
  parts.live.textContent = live;
  parts.live.style.setProperty("--share", 100 * live / SEGMENT_BYTES + "%");
  parts.signs = signs;
  parts.others = within(number, [...changes.written]);
  const moves = changes.moves.filter(({ moved }) => moved);
  parts.left = within(number, moves.map(({ from }) => from));
  parts.came = within(number, moves.map(({ to }) => to));
  for (let block = 0; old && block < SEGMENT; block++) if (signs[block] !== old[block]) parts.others.add(block);
  drawCells(parts);
}

function paintLog(to) {
  const before = to > 0 ? logAt(to - 1) : { rows: [], owners: [] }, now = logAt(to), touched = new Set();
  changes = to > 0 ? changesIn(frames[to], before, now) : NO_CHANGES;
  pointed = pointedAt();
  for (const address of changes.written) touched.add(segmentOf(address));
  for (const { from } of changes.moves) touched.add(segmentOf(from));
  now.rows.forEach((row, number) => {
    if (to > 0 && row !== before.rows[number]) touched.add(number);
    if (touched.has(number) || row !== shown.rows[number] || outlined.has(number)) paintRow(row, before.rows[number]);
  });
  outlined = touched;
  shown = now;
}

// Shows a line, with the place that a denial is about.
function paintLine(line, place) {
  const [start, end] = place ?? [0, 0], marked = document.createElement("mark");
  marked.textContent = line.slice(start, end);
  byId("line").replaceChildren(line.slice(0, start), ...(place ? [marked] : []), line.slice(end));
}

function paintTalk() {
  const line = lineAt(at), told = toldAt(at), comment = isComment(line);
  const { kind, heading, says, place } = comment ? { kind: "done", heading: "", says: "" } : verdictOf(line, told);
  const bold = document.createElement("b");
  bold.textContent = heading ? heading + ". " : "";
  talk.className = kind;
  paintLine(at === 0 ? "(the log as it is laid out)" : comment ? "" : line, place);
  byId("caption").textContent = captionAt(at);
  byId("answer").textContent = told;
  byId("answer").scrollTop = line.startsWith(".why") ? byId("answer").scrollHeight : 0;
  byId("verdict").replaceChildren(bold, says);
  byId("waits").textContent = waitingWords(waitsAt(at));
  byId("waits").className = at > 0 && waitsAt(at) !== waitsAt(at - 1) ? "other" : "";
}

// Shows a row of the tree: the bits that judge the caller are marked, and so are what the line changed and what was judged.
function addRow({ from, path, depth, more }, caller, { before, judged }) {
  const line = element("div", "row", byId("tree"));
  if (more) return line.textContent = more + " more names";
  const judge = classOf(caller, from), now = JSON.stringify({ ...from, names: 0 });
  line.number = from.number;
  element("span", "number", line).textContent = from.number;
  element("span", "mode", line).append(from.kind === "dir" ? "d" : "-", ...classesOf(from).map(([name, letters]) => {
    const part = document.createElement(name === judge ? "b" : "span");
    part.textContent = letters;
    return part;
  }));
  element("span", "who", line).textContent = from.owner + ":" + from.group;
  const name = element("span", "name", line);
  name.textContent = path === "" ? "/" : path.slice(path.lastIndexOf("/") + 1);
  name.style.paddingLeft = 2 * depth + "ch";
  element("span", "flags", line).textContent = flagsOf(from);
  if (before && before.get(path) !== now) line.classList.add("other");
  if (path === judged) line.classList.add("judged");
}

function paintTree() {
  const line = lineAt(at), { path, component } = deniedOf(toldAt(at)), paths = pathsOf(line), caller = callerOf(at);
  const judged = path === undefined || !paths[path] ? null : pathTo(paths[path], component);
  const before = at > 0 && isChange(line) ? shownBefore(paths) : null, { root, known } = treeAt(at);
  byId("caller").textContent = "Caller: " + callerAt(at) + (caller.user ? ". Bold: the bits that judge this caller." : ", whom every mode lets through.");
  byId("tree").replaceChildren();
  if (!known) return byId("tree").textContent = "A line was cut, so what it did is not known.";
  for (const seen of rowsOf(root, paths)) addRow(seen, caller, { before, judged });
  byId("tree").querySelector(".judged, .other")?.scrollIntoView({ block: "nearest" });
}

const isChange = line => Object.hasOwn(EFFECTS, line.split(" ", 1)[0]);

// The rows of the frame before, by path.
function shownBefore(paths) {
  const rows = rowsOf(treeAt(at - 1).root, paths).filter(({ more }) => !more);
  return new Map(rows.map(({ from, path }) => [path, JSON.stringify({ ...from, names: 0 })]));
}

// Shows the checks of a denied call, or of one that `.why` asks about, in the place of the legend.
function paintChecks() {
  const checks = checksAt(at), list = byId("asked"), aside = document.querySelector("aside"), { root } = treeAt(at);
  aside.classList.toggle("asks", checks !== null);
  list.replaceChildren();
  for (const check of checks ?? []) {
    const [where, detail] = subjectWords(check, lineAt(at), root, callerOf(at)), row = element("p", check.met ? "" : "unmet", list);
    element("b", "", row).textContent = check.rule;
    element("span", "", row).textContent = ASKS[check.rule];
    element("span", "of", row).textContent = where + (where && detail ? ": " : "") + detail;
    element("b", "", row).textContent = check.met ? "yes" : "no";
  }
  aside.scrollTop = checks ? aside.scrollHeight : 0;
}

// The paths of the tree by number, and the versions of what is live, as this frame has them.
function ownedNow() {
  const { root, known } = treeAt(at);
  if (owned.at !== at) owned = { at, paths: known ? pathsByNumber(root) : new Map(), versions: versionsIn(shown) };
  return owned;
}

// Tells of the cell under the cursor, and marks the rows of the tree whose it is.
function tellCell() {
  const [number, block] = cursor ?? [], names = cursor ? shown.owners[number][block] ?? [] : [];
  const { paths, versions } = cursor ? ownedNow() : {};
  const numbers = names.filter(name => isPresent(name, versions)).map(name => parseInt(name, 10));
  for (const row of byId("tree").children) row.classList.toggle("pointed", numbers.includes(row.number));
  byId("cell").textContent = cursor
    ? cellWords(rowParts(shown.rows[number]), block, names, versions, paths) + moveWords(SEGMENT * number + block, changes)
    : "Point at a block, or go to the segments by Tab and the arrows.";
}

function setCursor(number, block) {
  if (cursor && cursor[0] === number && cursor[1] === block) return;
  const from = pointed;
  cursor = [number, block];
  pointed = pointedAt();
  for (const segment of new Set([...from, ...pointed].map(segmentOf))) drawCells(segments[segment]);
  tellCell();
}

// The address of the page names the frame; not while it plays, as browsers limit how often that is set.
let naming = null;
function nameFrame() {
  clearTimeout(naming);
  if (!timer) naming = setTimeout(() => history.replaceState(null, "", '#' + at), 200);
}

function show(to) {
  to = Math.max(0, Math.min(last, Math.round(to) || 0));
  paintLog(to);
  at = to;
  paintTalk();
  paintTree();
  paintChecks();
  tellCell();
  slider.value = jump.value = at;
  byId("where").textContent = "of " + last;
  byId("chapter").selectedIndex = chapterAt(at);
  nameFrame();
}

function stop() {
  clearTimeout(timer);
  timer = null;
  byId("play").textContent = "play";
  nameFrame();
}

// One frame further, and again as the speed says; a caption stays twice as long.
function step() {
  if (at === last) return stop();
  show(at + 1);
  timer = setTimeout(step, 1000 / byId("speed").value * (isComment(lineAt(at)) ? 2 : 1));
}

function play() {
  if (timer) return stop();
  if (at === last) show(0);
  byId("play").textContent = "stop";
  timer = setTimeout(step, 0);
}

// As many columns of segments as make rows high and cells wide.
function fit() {
  const narrow = innerWidth <= 800, height = narrow ? 0.7 * innerHeight : log.clientHeight, width = log.clientWidth;
  let best = { size: 0 };
  for (let columns = 1; columns <= (narrow ? 1 : 8); columns++) {
    const count = Math.ceil(segments.length / columns);
    const row = Math.max(narrow ? 11 : 2, Math.min(34, Math.floor(height / count))), letter = Math.max(5, Math.min(16, row - 2));
    const cell = (width / columns - 16 - 12 * letter) / SEGMENT, size = Math.min(row, 2.5 * cell);
    if (size > best.size) best = { size, count, row, letter };
  }
  log.style.setProperty("--rows", best.count);
  log.style.setProperty("--row", best.row + "px");
  log.style.setProperty("--letter", best.letter + "px");
  const { clientWidth, clientHeight } = segments[0].cells;
  for (const { cells } of segments) {
    cells.width = Math.round(clientWidth * devicePixelRatio);
    cells.height = Math.round(clientHeight * devicePixelRatio);
  }
  drawAll();
}

// Marks above the slider, at most one of a kind for each thousandth of its width.
function addMarks() {
  const seen = new Set();
  for (const { at, kind } of marks) {
    const share = Math.round(1000 * at / (last || 1)), name = kind + share;
    if (seen.has(name)) continue;
    seen.add(name);
    element("b", kind, byId("marks")).style.left = share / 10 + "%";
  }
  const chapter = byId("chapter");
  chapter.hidden = chapters.length === 0;
  chapter.add(new Option("chapters", 0));
  for (const at of chapters) chapter.add(new Option(commentText(lineAt(at)), at));
}

function moveCursor(key) {
  const [number, block] = cursor ?? [0, 0];
  const moves = { ArrowLeft: [0, -1], ArrowRight: [0, 1], ArrowUp: [-1, 0], ArrowDown: [1, 0] };
  const [down, right] = cursor ? moves[key] : [0, 0];
  const inside = (value, count) => Math.max(0, Math.min(count - 1, value));
  setCursor(inside(number + down, segments.length), inside(block + right, SEGMENT));
}

const KEYS = {
  ArrowLeft: () => show(at - 1),
  ArrowRight: () => show(at + 1),
  PageUp: () => show(at - PAGE),
  PageDown: () => show(at + PAGE),
  Home: () => show(0),
  End: () => show(last),
  " ": play
};

document.onkeydown = event => {
  const { key, target } = event;
  if (event.ctrlKey || event.altKey || event.metaKey || target === jump || target.tagName === "SELECT") return;
  if (key === " " && target.tagName === "BUTTON") return;
  const inLog = target === log && key.startsWith("Arrow");
  if (!inLog && !Object.hasOwn(KEYS, key)) return;
  event.preventDefault();
  if (inLog) moveCursor(key); else KEYS[key]();
};
log.onpointermove = event => {
  const { number, clientWidth } = event.target, block = Math.floor(event.offsetX * SEGMENT / clientWidth);
  if (number >= 0 && block >= 0 && block < SEGMENT) setCursor(number, block);
};
log.onfocus = () => { if (log.matches(":focus-visible")) moveCursor("ArrowRight"); };
byId("first").onclick = () => show(0);
byId("back").onclick = () => show(at - 1);
byId("play").onclick = play;
byId("on").onclick = () => show(at + 1);
byId("end").onclick = () => show(last);
byId("chapter").onchange = event => show(+event.target.value);
slider.oninput = () => show(+slider.value);
jump.onchange = () => show(+jump.value);
onhashchange = () => show(+location.hash.slice(1));
onresize = fit;
function setPrinted(isOn) {
  document.documentElement.classList.toggle("printed", isOn);
  drawAll();
}
onbeforeprint = () => setPrinted(true);
onafterprint = () => setPrinted(false);
matchMedia("(prefers-color-scheme: dark)").onchange = drawAll;

readFilm();
readTrees();
slider.max = jump.max = last;
logAt(0).rows.forEach((_, number) => addSegment(number));
addMarks();
show(+location.hash.slice(1));
fit();
"#;
