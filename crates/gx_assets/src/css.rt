//! The page's style sheet, in CSS.

/// The style sheet at `/page.css`: for a desk's screen and a telephone's, light and dark.
pub fn style() -> &'static [u8] {
    br##":root {
  color-scheme: light dark;
  --ink: #16202a;
  --soft: #4c5965;
  --line: #d3dae1;
  --edge: #75828e;
  --back: #f3f5f7;
  --panel: #ffffff;
  --mark: #0b5cad;
  --warn: #8a4600;
  --bad: #b3201a;
  --on-bad: #ffffff;
}
@media (prefers-color-scheme: dark) {
  :root {
    --ink: #e6ebf0;
    --soft: #a5b2be;
    --line: #313c47;
    --edge: #7f8d9a;
    --back: #0e1318;
    --panel: #171e25;
    --mark: #6fb1f0;
    --warn: #f0b35a;
    --bad: #ff9389;
    --on-bad: #2a0805;
  }
}

* { box-sizing: border-box; }
[hidden] { display: none !important; }
html { -webkit-text-size-adjust: 100%; }
body {
  margin: 0;
  font: 13.5px/1.4 system-ui, -apple-system, "Segoe UI", Roboto, "Noto Sans", sans-serif;
  font-variant-numeric: tabular-nums;
  color: var(--ink);
  background: var(--back);
}
h1, h2, p, dl, dd { margin: 0; }
h1 { font-size: 1.15rem; letter-spacing: .01em; }
h2 { font-size: .95rem; margin-bottom: .3rem; }
b { font-weight: 600; }
a { color: var(--mark); }
.soft { color: var(--soft); }
.unseen {
  position: absolute;
  width: 1px;
  height: 1px;
  overflow: hidden;
  clip-path: inset(50%);
  white-space: nowrap;
}
.skip {
  position: absolute;
  left: .5rem;
  top: -4rem;
  z-index: 3;
  padding: .3rem .6rem;
  background: var(--panel);
}
.skip:focus { top: .3rem; }
:focus-visible { outline: 3px solid var(--mark); outline-offset: 2px; }
main:focus { outline: none; }

/* What stands at the top, and stays there. */
header {
  position: sticky;
  top: 0;
  z-index: 2;
  background: var(--panel);
  border-bottom: 1px solid var(--line);
}
.top {
  display: flex;
  flex-wrap: wrap;
  align-items: baseline;
  gap: .1rem 1.4rem;
  max-width: 1440px;
  margin: 0 auto;
  padding: .45rem 1rem;
}
#old {
  padding: 0 .5rem;
  font-weight: 700;
  color: var(--on-bad);
  background: var(--bad);
}
#banner, #answer, .notice { padding: .4rem 1rem; font-weight: 600; }
#banner { color: var(--on-bad); background: var(--bad); }
#banner a { color: inherit; }
#banner :focus-visible { outline-color: currentColor; }
#answer { border-top: 1px solid var(--line); border-left: 6px solid var(--mark); }
#answer.refused { border-left-color: var(--bad); }

/* What is old looks old: grey, with a broken line round it. */
body.is-old main { filter: grayscale(1); outline: 4px dashed var(--edge); outline-offset: -4px; }

main {
  display: grid;
  grid-template-columns: minmax(0, 1.27fr) minmax(0, 1fr);
  gap: .7rem;
  max-width: 1440px;
  margin: 0 auto;
  padding: .7rem 1rem 1.5rem;
}
.wide { grid-column: 1 / -1; }
.column { display: flex; flex-direction: column; gap: .7rem; min-width: 0; }
.column section {
  min-width: 0;
  padding: .55rem .7rem .6rem;
  background: var(--panel);
  border: 1px solid var(--line);
  border-radius: 6px;
}
.pair { display: grid; grid-template-columns: 1fr 1fr; gap: .7rem; align-items: start; }
.none { padding: .2rem .3rem; color: var(--soft); }

/* Figures. */
.tiles { display: grid; grid-template-columns: repeat(5, 1fr) 1.9fr; gap: .7rem; }
.tiles div {
  padding: .3rem .7rem .35rem;
  background: var(--panel);
  border: 1px solid var(--line);
  border-radius: 6px;
}
.tiles dt, .facts dt { color: var(--soft); }
.tiles dd { font-size: 1.35rem; font-weight: 600; line-height: 1.25; overflow-wrap: anywhere; }
.tiles .long dd { font-size: 1.05rem; line-height: 1.6; }
.facts { display: grid; grid-template-columns: repeat(4, auto); gap: .15rem 1rem; }
.facts dd { font-weight: 600; overflow-wrap: anywhere; }
.facts .is-bad { color: var(--bad); }
.facts .is-bad::before { content: "! "; }

/* Tables. */
table { width: 100%; border-collapse: collapse; }
th, td { padding: .2rem .45rem; text-align: left; vertical-align: top; border-top: 1px solid var(--line); }
thead th { border-top: 0; font-weight: 500; color: var(--soft); white-space: nowrap; }
tbody th { font-weight: 600; }
.number { text-align: right; }
.scrolled { max-height: 11.5rem; overflow: auto; }
.scrolled thead th { position: sticky; top: 0; background: var(--panel); }
#denials td, #commands td { white-space: nowrap; }

/* The state of an account: a word in a frame, not a color alone. */
.state {
  display: inline-block;
  padding: 0 .45rem;
  border: 1px solid var(--edge);
  border-radius: 9px;
}
.is-killed .state {
  font-weight: 700;
  letter-spacing: .03em;
  color: var(--on-bad);
  background: var(--bad);
  border: 1px solid var(--bad);
  border-radius: 2px;
}
.about { margin-left: .4rem; color: var(--soft); }

button {
  font: inherit;
  font-weight: 600;
  min-height: 26px;
  padding: 0 .7rem;
  color: var(--ink);
  background: var(--panel);
  border: 1px solid var(--edge);
  border-radius: 4px;
  cursor: pointer;
}
button.kill { color: var(--bad); border-color: var(--bad); }
button.kill:not([aria-disabled="true"]):hover { color: var(--on-bad); background: var(--bad); }
button[aria-disabled="true"] { color: var(--soft); border: 1px dashed var(--edge); background: var(--back); cursor: default; }
#elsewhere { padding: .2rem .45rem; border-left: 6px solid var(--mark); }
#accounts th, #accounts td { vertical-align: middle; }
#accounts td:last-child { padding-top: .1rem; padding-bottom: .1rem; text-align: right; }

/* Bars: hatched from the warning on, and full with an edge near the limit; two marks stand at 75 and at 90 percent. */
.use { display: flex; gap: .5rem; }
.bar {
  position: relative;
  flex: 1 1 0;
  min-width: 5rem;
  height: 12px;
  margin-top: 3px;
  background: var(--back);
  border: 1px solid var(--edge);
}
.fill { height: 100%; background: var(--mark); }
.bar::before, .bar::after {
  content: "";
  position: absolute;
  top: -3px;
  bottom: -3px;
  width: 1px;
  background: var(--edge);
}
.bar::before { left: 75%; }
.bar::after { left: 90%; }
.warning .fill { background: repeating-linear-gradient(135deg, var(--warn) 0 5px, var(--panel) 5px 7px); }
.near .fill, .past .fill { background: var(--bad); border-right: 4px double var(--panel); }
.near .bar, .past .bar { border-width: 2px; border-color: var(--bad); }
.figures { flex: 0 1 21rem; }
.share { display: inline-block; min-width: 4.3rem; padding-right: .3rem; font-weight: 600; text-align: right; }
.word { font-weight: 700; white-space: nowrap; }
#limits td:nth-child(3) { white-space: nowrap; }
.warning .word { color: var(--warn); }
.near .word, .past .word { color: var(--bad); }

dialog {
  max-width: 27rem;
  padding: 1.1rem 1.3rem;
  color: var(--ink);
  background: var(--panel);
  border: 2px solid var(--bad);
  border-radius: 8px;
}
dialog::backdrop { background: rgb(0 0 0 / 55%); }
dialog h2 { font-size: 1.2rem; }
#question-why { margin-top: .6rem; font-weight: 600; }
.choices { display: flex; flex-wrap: wrap; justify-content: flex-end; gap: .8rem; margin-top: 1.1rem; }
.choices button { min-height: 38px; }

/* Narrow, as on a telephone: one column. */
@media (max-width: 900px) {
  main { grid-template-columns: minmax(0, 1fr); padding: .6rem .6rem 1.5rem; }
  .top { padding: .4rem .6rem; }
  .tiles { grid-template-columns: repeat(6, 1fr); gap: .5rem; }
  .tiles div { grid-column: span 2; }
  .tiles .long { grid-column: span 6; }
  .tiles div:nth-child(4), .tiles div:nth-child(5) { grid-column: span 3; }
  .facts { grid-template-columns: repeat(2, auto); }
}
@media (max-width: 520px) {
  header { position: static; }
  #banner { position: fixed; z-index: 2; left: 0; right: 0; bottom: 0; } /* in front of what is grey */
  body.is-old { padding-bottom: 5rem; }
  th, td { padding: .25rem .3rem; }
  #elsewhere + table thead th { white-space: normal; vertical-align: bottom; }
  .record { display: none; }
  .tiles div { padding: .3rem .45rem; }
  .tiles dt { font-size: .82em; }
  .about { display: block; margin-left: 0; }
  .use { flex-direction: column; align-items: stretch; gap: .15rem; }
  .bar, .figures { flex: none; }
  .share { min-width: 0; }
  .column section { overflow-x: auto; }
  .figures, .about { overflow-wrap: anywhere; }
  .word { white-space: normal; }
  .tiles dd { font-size: 1.15rem; }
  .bar { min-width: 3.5rem; }
  #limits td:nth-child(3) { white-space: normal; }
  button { min-height: 40px; }
}

@media (prefers-reduced-motion: no-preference) {
  .fill { transition: width .3s; }
}
@media (forced-colors: active) {
  .fill { forced-color-adjust: none; background: CanvasText; }
}
"##
}
