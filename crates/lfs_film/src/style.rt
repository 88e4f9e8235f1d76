//! The style of a film's page: in light, in dark and in print, with colours that are told apart without red and green.

/// The style, as CSS.
pub const STYLE: &[u8] = br#"
:root { color-scheme: light dark; --ground: #fff; --ink: #1a1a1a; --faint: #ccc; --pane: #f3f4f6; --dead: #f4f4f4;
  --data: #0072b2; --indirect: #e69f00; --records: #cc79a7; --summary: #666; --label: #111;
  --denied: #b00020; --denied-pane: #fde7ea; --refused: #9a5b00; --refused-pane: #fdf0dc; --mark: #ffd75e; --moved: #d55e00; }
@media (prefers-color-scheme: dark) { :root:not(.printed) { --ground: #16181c; --ink: #e6e6e6; --faint: #3a3d44;
  --pane: #22252b; --dead: #24262b; --data: #56b4e9; --indirect: #f0b840; --records: #d895bd; --summary: #999;
  --label: #eee; --denied: #ff8a98; --denied-pane: #43161d; --refused: #ffbe5c; --refused-pane: #3b2a10;
  --mark: #7a5c00; --moved: #ff8c42; } }
* { box-sizing: border-box; }
html { font: clamp(14px, 1.1vw, 20px)/1.35 sans-serif; }
body { background: var(--ground); color: var(--ink); margin: 0; padding: 0.5rem 0.8rem; height: 100vh;
  display: flex; flex-direction: column; gap: 0.35rem; }
p, pre, h2 { margin: 0; }
pre { font-family: monospace; white-space: pre-wrap; overflow-wrap: anywhere; overflow-y: auto; }
button, select, input { font: inherit; }
header { display: flex; flex-wrap: wrap; align-items: center; gap: 0.4rem; }
header small { margin-left: auto; opacity: 0.75; }
#jump { width: 5em; }
#where { font-variant-numeric: tabular-nums; }
#chapter { max-width: 22em; }
#scale { position: relative; height: 1.9rem; flex: none; }
#at { width: 100%; height: 1.1rem; margin: 0; }
#marks { position: absolute; left: 8px; right: 8px; bottom: 0; height: 0.65rem; pointer-events: none; }
#marks b { position: absolute; bottom: 0; width: 3px; height: 100%; margin-left: -1px; background: var(--ink); }
#marks .denied { background: var(--denied); height: 70%; }
#marks .refused { background: var(--refused); height: 70%; }
#marks .pass { background: var(--data); height: 70%; }
#top { flex: none; display: flex; gap: 0.8rem; }
#talk { flex: 3; min-width: 0; background: var(--pane); border-left: 0.4rem solid var(--faint); padding: 0.3rem 0.6rem; }
#caption { font-size: 1.35rem; line-height: 1.25; height: 2.5em; overflow-y: auto; font-weight: bold; }
#line { height: 2.7em; font-weight: bold; }
#answer { height: 2.7em; opacity: 0.9; }
#verdict { height: 2.7em; overflow-y: auto; }
#talk.denied { background: var(--denied-pane); border-color: var(--denied); }
#talk.refused { background: var(--refused-pane); border-color: var(--refused); }
#talk.denied #verdict b, #talk.denied #answer { color: var(--denied); opacity: 1; }
#talk.refused #verdict b, #talk.refused #answer { color: var(--refused); opacity: 1; }
#files { flex: 2; min-width: 0; display: flex; flex-direction: column; background: var(--pane); padding: 0.3rem 0.6rem; }
#caller { font-size: 0.85rem; }
#tree { flex: 1 1 0; overflow-y: auto; font: 0.85rem/1.35 monospace; white-space: nowrap; }
.row { display: flex; gap: 1.5ch; border-left: 3px solid transparent; }
.row .mode b { background: var(--mark); }
.row .who { min-width: 7ch; }
.row .flags { color: var(--refused); }
.row .number { min-width: 3ch; text-align: right; opacity: 0.7; }
.row.pointed { outline: 2px solid var(--denied); outline-offset: -2px; }
.row.other { font-weight: bold; border-color: var(--ink); }
.row.judged { background: var(--denied-pane); border-color: var(--denied); }
mark { background: var(--mark); color: var(--ink); outline: 2px solid var(--denied); }
main { flex: 1; min-height: 0; display: flex; gap: 1rem; }
#volume { flex: 1; min-width: 0; display: flex; flex-direction: column; gap: 0.3rem; }
#waits { font-weight: bold; min-height: 1.35em; }
#waits.other { text-decoration: underline; }
#log { flex: 1; min-height: 0; display: grid; grid-auto-flow: column; column-gap: 1rem; align-content: start;
  grid-template-rows: repeat(var(--rows, 64), var(--row, 12px)); grid-auto-columns: 1fr;
  font: var(--letter, 10px)/1 monospace; overflow: hidden; }
#log:focus-visible { outline: 2px solid var(--data); outline-offset: 2px; }
#cell { height: 2.75em; overflow-y: auto; }
.segment { display: grid; grid-template-columns: 4ch 7ch 6ch 1fr; align-items: center; min-width: 0; }
.segment .number { text-align: right; padding-right: 1ch; }
.segment.clean .state, b.clean { opacity: 0.55; }
.segment.active .state, b.active { font-weight: bold; text-decoration: underline; }
.segment.other .number { font-weight: bold; text-decoration: underline; }
.live { --bar: color-mix(in srgb, var(--data) 35%, transparent); text-align: right; padding: 0 0.3ch; width: 6ch;
  background: linear-gradient(to right, var(--bar) var(--share, 0%), var(--dead) var(--share, 0%)); }
aside .live { display: inline-block; }
.cells { width: calc(100% - 1ch); height: calc(var(--row, 12px) - 1px); margin-left: 1ch; display: block;
  max-width: calc(64 * var(--row, 12px)); }
i { --c: var(--faint); background: var(--c); font-style: normal; text-align: center; color: var(--ground); }
i { display: inline-block; width: 1.15em; height: 1.15em; vertical-align: text-bottom; line-height: 1.15; }
i:not([data-sign="."])::before { content: attr(data-sign); }
i[data-sign="."] { background: var(--dead); }
i[data-sign="D"] { --c: var(--data); }
i[data-sign="I"] { --c: var(--indirect); }
i[data-sign="R"] { --c: var(--records); }
i[data-sign="S"] { --c: var(--summary); }
i[data-sign="L"] { --c: var(--label); }
i[data-sign="p"] { --c: var(--records); background: linear-gradient(135deg, var(--c) 50%, var(--dead) 50%);
  color: var(--ink); }
i[data-sign="d"] { --c: var(--data); }
i[data-sign="i"] { --c: var(--indirect); }
i[data-sign="r"] { --c: var(--records); }
i[data-sign="d"], i[data-sign="i"], i[data-sign="r"] { color: var(--ink);
  background: repeating-linear-gradient(45deg, var(--dead) 0 2px, var(--c) 2px 3px); }
i.other { outline: 2px solid var(--ink); outline-offset: -2px; }
i.came { outline: 2px solid var(--moved); outline-offset: -2px; }
i.left { outline: 2px dashed var(--moved); outline-offset: -2px; }
aside { flex: none; width: 19rem; overflow-y: auto; font-size: 0.85rem; line-height: 1.3; }
aside h2 { font-size: 1rem; }
aside p { margin-bottom: 0.28rem; }
#checks { display: none; }
.asks #checks { display: block; }
.asks #legend { display: none; }
#asked p { display: grid; grid-template-columns: 2em 7.5em 1fr 2em; column-gap: 0.4em; margin: 0; padding: 0.1rem 0.2rem; }
#asked { max-width: 34rem; }
#asked .of { overflow-wrap: anywhere; }
#asked .unmet { background: var(--denied-pane); color: var(--denied); font-weight: bold; }
.full { flex: none; }
@media (max-width: 800px) {
  body, main, #top { height: auto; display: block; }
  header small { display: none; }
  #tree { flex: none; height: 8em; }
  aside { width: auto; margin-top: 0.6rem; }
  #log { margin: 0.4rem 0; column-gap: 0.3rem; }
  #waits { min-height: 2.7em; }
}
@media print {
  header, #scale, #cell { display: none; }
  body, main { display: block; height: auto; }
  #tree { flex: none; overflow: visible; }
  aside { width: auto; margin-top: 1em; }
  #legend { columns: 2; }
  .asks #legend { display: block; }
  * { print-color-adjust: exact; -webkit-print-color-adjust: exact; }
}
"#;
