//! The style of pages.

/// The style sheet: in light and in dark, on narrow screens, and on paper.
pub(crate) const STYLE: &str = r#"
:root { color-scheme: light dark; --ink: #1c2128; --faint: #606b78; --paper: #ffffff; --card: #f4f6f8;
  --edge: #d3dae1; --take: #0a5bb5; --drain: #a8480f; --order: #2e7d32; --mark: #fff1b8; --fail: #b3261e; --failed: #fdeceb;
  --number: 3rem; --lane: 12rem; --gap: 1.75rem; }
@media (prefers-color-scheme: dark) { :root { --ink: #e3e7ec; --faint: #97a3b0; --paper: #13171b; --card: #1d2329;
  --edge: #39424c; --take: #73b5ff; --drain: #f2a26b; --order: #7fc784; --mark: #413a12; --fail: #ff8a80; --failed: #3a1c1b; } }
* { box-sizing: border-box; }
body { margin: 0; padding: 1rem 1.5rem; color: var(--ink); background: var(--paper);
  font: 14px/1.4 system-ui, sans-serif; }
h1 { font-size: 1.3rem; font-weight: 650; margin: 0 0 .5rem; overflow-wrap: anywhere; }
h2 { font-size: .8rem; font-weight: 600; color: var(--faint); margin: 1.1rem 0 .3rem; }
p { margin: .3rem 0; }
code, pre, kbd { font: 12.5px/1.45 ui-monospace, "DejaVu Sans Mono", Consolas, monospace; }
code { white-space: pre-wrap; overflow-wrap: anywhere; }
pre { margin: .5rem 0; padding: .6rem .8rem; background: var(--card); border-left: 3px solid var(--edge);
  white-space: pre-wrap; overflow-wrap: anywhere; }
pre.fail { border-color: var(--fail); background: var(--failed); }
kbd { padding: 0 .3rem; border: 1px solid var(--edge); border-radius: 3px; }
ol { list-style: none; margin: 0; padding: 0; }
table { border-collapse: collapse; width: 100%; }
td, th { border-bottom: 1px solid var(--edge); padding: .15rem .4rem; text-align: left; font-weight: 400; }
select, button { font: inherit; color: inherit; background: var(--card); border: 1px solid var(--edge);
  border-radius: 4px; padding: .15rem .5rem; max-width: 20rem; }
button[aria-pressed=true] { border-color: var(--take); box-shadow: inset 0 0 0 1px var(--take); }
:focus-visible { outline: 2px solid var(--take); outline-offset: 1px; }
#said { position: absolute; width: 1px; height: 1px; overflow: hidden; clip-path: inset(50%); white-space: nowrap; }

/* Read out, but not seen: of each row, and so cheaper than what is cut off. */
.who { float: left; font-size: 0; line-height: 0; }

/* A window as high as the screen, in which the lanes and the state scroll. */
.moves { display: flex; flex-direction: column; height: 100vh; height: 100dvh; }
.moves > pre { flex: none; max-height: 9.5rem; overflow: auto; }
.tools { display: flex; flex-wrap: wrap; align-items: baseline; gap: .3rem 1rem; margin-bottom: .6rem; color: var(--faint); }
.tools p { margin: 0; }
main { flex: 1; min-height: 20rem; display: flex; gap: 1.5rem; }
#program { flex: 0 1 20rem; min-width: 12rem; overflow: auto; contain: content; counter-reset: line; }
#program[hidden] { display: none; }
#program li { counter-increment: line; display: flex; flex-wrap: wrap; justify-content: end; column-gap: .5rem; padding-right: .3rem; border-left: 3px solid transparent; }
#program li::before { content: counter(line); flex: none; width: 2rem; text-align: right; color: var(--faint); font-size: 12px;
  font-variant-numeric: tabular-nums; }
#program li.now { background: var(--mark); border-color: var(--take); }
#program code { flex: 1 0 auto; max-width: calc(100% - 2.5rem); }
#program b { flex: none; padding: 0 .35rem; border-radius: 3px; background: var(--take); color: var(--paper); font-size: 11px; }
#run { flex: 1; min-width: 0; overflow: auto; contain: strict; scroll-padding: 3rem 1rem 4rem 5rem; }
#sheet { position: relative; isolation: isolate; min-width: calc(var(--number) + var(--lanes) * (var(--lane) + var(--gap))); padding: 0 .25rem 1rem 0; }
aside { width: 17rem; flex: none; overflow: auto; contain: content; }

.row { display: grid; grid-template-columns: var(--number) repeat(var(--lanes), minmax(var(--lane), 1fr)); column-gap: var(--gap); }
.row[hidden] { display: none; }
.row > .n { color: var(--faint); text-align: right; padding: .35rem 0; font-variant-numeric: tabular-nums; }
.head { position: sticky; top: 0; z-index: 3; background: var(--paper); margin-bottom: .3rem; }
.head > [data-lane] { font-weight: 600; padding: .35rem .5rem; border-bottom: 2px solid var(--edge); overflow-wrap: anywhere; }
.deed { background: var(--card); border: 1px solid var(--edge); border-radius: 5px;
  margin: .15rem 0; padding: .25rem .5rem; min-width: 0; overflow-wrap: anywhere; }
#moves > .row { cursor: pointer; }
.deed > code { display: block; color: var(--faint); }
.deed > .line { float: right; padding-left: .5rem; color: var(--faint); font-size: 12px;
  font-variant-numeric: tabular-nums; }
#sheet.each .brief, #sheet:not(.each) .each { display: none; }
.row.later .deed { color: var(--faint); border-style: dashed; background: var(--paper); }
.row.fail .deed { border-color: var(--fail); background: var(--failed); font-weight: 600; }
.row[aria-current] .deed { border-color: var(--take); }
.row.at .deed { background: var(--mark); border-color: var(--take); border-style: solid; color: inherit; }
.row.fail .deed { border-left: 4px solid var(--fail); }
.row.at > .n { color: var(--ink); }

#arrows { position: absolute; left: 0; top: 0; z-index: -1; pointer-events: none; }
#arrows path { fill: none; stroke-width: 1.6; stroke-opacity: .55; }
#arrows .take { stroke: var(--take); }
#arrows .drain { stroke: var(--drain); stroke-dasharray: 4 3; }
#arrows .order { stroke: var(--order); stroke-dasharray: 1.5 3; stroke-linecap: round; }
#arrows .now { stroke-opacity: 1; }
#arrows .later { stroke-opacity: .15; }

#at { font-weight: 600; font-variant-numeric: tabular-nums; margin-top: .35rem; }
#why p { padding: .2rem .5rem; border-left: 2px solid var(--take); }
a { color: var(--take); }
#threads th { width: 45%; }
aside td { text-align: right; font-variant-numeric: tabular-nums; }
.new > * { background: var(--mark); font-weight: 600; }
.key { display: flex; flex-wrap: wrap; gap: 0 1.2rem; color: var(--faint); }
.key svg { width: 2.2rem; height: .7rem; vertical-align: middle; margin-right: .3rem; }
.key path { fill: none; stroke-width: 2; }
.key .take { stroke: var(--take); }
.key .drain { stroke: var(--drain); stroke-dasharray: 4 3; }
.key .order { stroke: var(--order); stroke-dasharray: 1.5 3; stroke-linecap: round; }
dialog { color: var(--ink); background: var(--paper); border: 1px solid var(--edge); border-radius: 6px; max-width: 30rem; }
dialog::backdrop { background: rgb(0 0 0 / .35); }
dialog h2 { margin-top: 0; }
dialog form { margin-top: .8rem; text-align: right; }

/* The page of a log. */
.lanes { display: flex; gap: 1.5rem; align-items: flex-start; overflow-x: auto; }
.lanes > section { flex: 1; min-width: 15rem; }
.lanes .deed > code { display: inline; color: inherit; }
.went { color: var(--take); padding-left: .8rem; }

@media screen and (max-width: 56rem) {
  :root { --number: 2.2rem; --lane: 10.5rem; --gap: 1.25rem; }
  body { padding: .6rem .75rem; }
  .moves > pre { max-height: 6.5rem; }
  .tools p { display: none; }
  main { flex-direction: column; gap: .5rem; }
  #program { flex: none; max-height: 26%; border-bottom: 1px solid var(--edge); }
  aside { width: auto; max-height: 34%; border-top: 1px solid var(--edge);
    display: grid; grid-template: auto 1fr / 1fr 1fr; gap: 0 1.2rem; }
  aside h2 { margin: .4rem 0 .1rem; }
  .held { grid-area: 1 / 2 / 3 / 3; }
  .held tbody { display: flex; flex-wrap: wrap; gap: 0 .8rem; }
  .key, aside h2:has(+ .key) { display: none; }
}
@media print {
  :root { --ink: #000; --faint: #444; --paper: #fff; --card: #fff; --edge: #999; --take: #0a5bb5;
    --drain: #a8480f; --mark: #fff; --fail: #b3261e; --failed: #fff; }
  body { padding: 0; font-size: 10px; }
  code, pre { font-size: 9px; }
  .moves { display: block; height: auto; }
  .moves > pre { max-height: none; }
  .tools, .key, .key ~ *, aside h2:has(+ .key) { display: none; }
  main { flex-direction: column-reverse; gap: 1rem; }
  aside { width: auto; }
  #program, #run, aside { overflow: visible; contain: none; max-height: none; }
  #sheet { min-width: 0; }
  .head { position: static; }
  .row { grid-template-columns: 2rem repeat(var(--lanes), minmax(0, 1fr)); column-gap: 1rem; break-inside: avoid; }
  .deed { break-inside: avoid; }
  .row.later .deed { border-style: solid; color: inherit; }
  .row.at .deed, .row[aria-current] .deed { border-color: var(--edge); }
}
"#;
