//! The page, as tests/page_source writes it here from page.html.
ghost use Rattle.std.specs.Prelude.{◌≡◌};
ghost use Rattle.site_http.specs.declared.page.TheConstants.{PAGE};

use bytes::Bytes;

/// Shared, and never copied on the heap.
pub(crate) fn page() -> Bytes
    ensures { result ≡ PAGE.now }
{
    Bytes::from_static(PAGE.as_bytes())
}

pub(crate) const PAGE: &str = r##"<!DOCTYPE html>
<html lang="en">
<head>
<meta charset="utf-8">
<meta name="viewport" content="width=device-width, initial-scale=1">
<meta name="color-scheme" content="light dark">
<meta http-equiv="Content-Security-Policy" content="default-src 'none'; style-src 'unsafe-inline'; script-src 'unsafe-inline'; connect-src 'self'; img-src data:; base-uri 'none'; form-action 'none'">
<title>rights-site</title>
<link rel="icon" href="data:image/svg+xml,%3Csvg xmlns='http://www.w3.org/2000/svg' viewBox='0 0 16 16'%3E%3Crect width='16' height='16' rx='3' fill='%232563c9'/%3E%3Cpath d='M3 12V9l3-2 3 1 4-5v9z' fill='white'/%3E%3C/svg%3E">
<style>
:root {
  --page: #f4f6f9; --card: #ffffff; --line: #dbe1e8; --text: #17212e; --soft: #586577;
  --held: #2f74d0; --spent: #a9b7c9; --good: #17753c; --warn: #8f5a00; --bad: #b3261e;
  --good-back: #e3f4e8; --warn-back: #fdf0d8; --bad-back: #fce5e3; --focus: #2563c9;
}
@media (prefers-color-scheme: dark) {
  :root {
    --page: #11161d; --card: #19202a; --line: #2e3845; --text: #e6ebf2; --soft: #9fadbf;
    --held: #5c9bf0; --spent: #566579; --good: #6fd08f; --warn: #f0b954; --bad: #ff8f86;
    --good-back: #16301f; --warn-back: #362a10; --bad-back: #3d1d1b; --focus: #7fb2ff;
  }
}
* { box-sizing: border-box; }
body {
  margin: 0; background: var(--page); color: var(--text);
  font: 15px/1.45 system-ui, -apple-system, "Segoe UI", Roboto, "Helvetica Neue", Arial, sans-serif;
}
main { max-width: 1080px; margin: 0 auto; padding: 20px 16px 40px; }
header { display: flex; flex-wrap: wrap; align-items: baseline; gap: 4px 12px; margin-bottom: 14px; }
h1 { font-size: 22px; font-weight: 650; margin: 0; }
h2 { font-size: 15px; font-weight: 650; margin: 0; }
.pill { align-self: center; border-radius: 99px; padding: 2px 11px; font-size: 13px; font-weight: 600; background: var(--line); }
.good { color: var(--good); background: var(--good-back); }
.warn { color: var(--warn); background: var(--warn-back); }
.bad { color: var(--bad); background: var(--bad-back); }
.soft { color: var(--soft); }
.small { font-size: 13px; }
header .small { margin-left: auto; }
.notice { border-radius: 8px; padding: 10px 14px; margin: 0 0 12px; font-weight: 500; }
.card { background: var(--card); border: 1px solid var(--line); border-radius: 10px; padding: 14px 16px; margin-bottom: 14px; }
.head { display: flex; flex-wrap: wrap; align-items: center; gap: 4px 16px; margin-bottom: 8px; }
.numbers { display: grid; grid-template-columns: repeat(5, 1fr); gap: 12px; margin: 0 0 14px; }
.numbers .card { margin: 0; padding: 11px 14px; min-width: 0; }
dt { color: var(--soft); font-size: 13px; }
dd { margin: 0; }
.number { font-size: 26px; font-weight: 600; font-variant-numeric: tabular-nums; overflow-wrap: anywhere; line-height: 1.25; }
.number.long { font-size: 18px; line-height: 1.8; }
.number.longest { font-size: 12px; line-height: 1.4; }
.key { display: inline-block; width: 11px; height: 11px; border-radius: 3px; margin-right: 6px; }
.key.held { background: var(--held); }
.key.spent { background: var(--spent); }
.reading { margin-left: auto; font-variant-numeric: tabular-nums; }
#picture { display: block; width: 100%; height: 220px; border-radius: 6px; touch-action: pan-y; cursor: crosshair; }
#picture text { fill: var(--soft); font-size: 11px; }
#picture .grid { stroke: var(--line); }
#picture .held { fill: var(--held); }
#picture .spent { fill: var(--spent); }
#picture .cursor { stroke: var(--text); stroke-dasharray: 3 3; }
#picture .dot { fill: var(--text); }
#picture .lost { fill: var(--bad); opacity: .22; }
:focus-visible { outline: 2px solid var(--focus); outline-offset: 2px; }
table { width: 100%; border-collapse: collapse; font-variant-numeric: tabular-nums; }
th { text-align: right; font-size: 13px; font-weight: 500; color: var(--soft); padding: 4px 8px; border-bottom: 1px solid var(--line); }
td { text-align: right; padding: 8px; border-bottom: 1px solid var(--line); vertical-align: top; }
tr:last-child td, tr:last-child th { border-bottom: 0; }
th:first-child, td:first-child { text-align: left; padding-left: 0; }
td:last-child, th:last-child { text-align: left; padding-right: 0; }
tbody th { color: var(--text); font-size: 15px; font-weight: 600; vertical-align: top; padding: 8px 8px 8px 0; white-space: nowrap; }
td { white-space: nowrap; }
td:last-child { white-space: normal; }
.mark { display: inline-block; border-radius: 6px; padding: 1px 8px; font-size: 13px; font-weight: 500; margin: 0 0 3px; text-align: left; }
ul { list-style: none; margin: 0; padding: 0; }
.refused { display: flex; flex-wrap: wrap; gap: 4px 18px; }
.stale .card { opacity: .6; }
.stale .mark { color: var(--soft); background: var(--line); }
@media (max-width: 900px) {
  .numbers { grid-template-columns: repeat(3, 1fr); }
  .numbers .card:first-child { grid-column: span 2; }
}
@media (max-width: 700px) {
  main { padding: 14px 12px 32px; }
  header .small { margin-left: 0; width: 100%; }
  .numbers { grid-template-columns: repeat(2, 1fr); gap: 8px; }
  .number { font-size: 22px; }
  .reading { margin-left: 0; width: 100%; }
  thead { position: absolute; width: 1px; height: 1px; overflow: hidden; clip-path: inset(50%); }
  table, tbody, tbody th { display: block; }
  tr { display: flex; flex-direction: column; border-bottom: 1px solid var(--line); padding: 8px 0; }
  tr:last-child { border-bottom: 0; padding-bottom: 0; }
  tbody th { order: -2; padding: 0 0 4px; border: 0; text-align: left; }
  td { display: flex; justify-content: space-between; gap: 12px; border: 0; padding: 2px 0; text-align: right; }
  td::before { content: attr(data-name); color: var(--soft); font-size: 13px; text-align: left; flex: none; }
  td:last-child { order: -1; text-align: right; }
}
@media (prefers-contrast: more) { :root { --soft: var(--text); --line: var(--text); } }
</style>
</head>
<body>
<main id="main">
  <header>
    <h1 id="name">rights-site</h1>
    <span id="state" class="pill" role="status">connecting</span>
    <span id="facts" class="soft small"></span>
  </header>
  <div id="notices"></div>
  <dl class="numbers">
    <div class="card"><dt><span class="key held"></span>Held</dt><dd class="number" id="held">&ndash;</dd><dd class="soft small">rights this site can spend</dd></div>
    <div class="card"><dt><span class="key spent"></span>Spent</dt><dd class="number" id="spent">&ndash;</dd><dd class="soft small" id="rate">&nbsp;</dd></div>
    <div class="card"><dt>Queued</dt><dd class="number" id="queued">&ndash;</dd><dd class="soft small" id="waiting">&nbsp;</dd></div>
    <div class="card"><dt>Issued</dt><dd class="number" id="issued">&ndash;</dd><dd class="soft small">created at this site</dd></div>
    <div class="card"><dt>Received</dt><dd class="number" id="received">&ndash;</dd><dd class="soft small" id="given">&nbsp;</dd></div>
  </dl>
  <section class="card" aria-labelledby="picture-name">
    <div class="head">
      <h2 id="picture-name">Held and spent, last five minutes</h2>
      <span class="small soft"><span class="key held"></span>held</span>
      <span class="small soft"><span class="key spent"></span>spent</span>
      <span class="small reading" id="reading" aria-live="off">&nbsp;</span>
    </div>
    <svg id="picture" tabindex="0" role="slider" aria-labelledby="picture-name" aria-valuemin="-300" aria-valuemax="0" aria-valuenow="0" aria-valuetext="no values yet"></svg>
  </section>
  <section class="card" aria-labelledby="peers-name">
    <div class="head"><h2 id="peers-name">Peers</h2><span class="small soft" id="peers-sum"></span></div>
    <table role="table">
      <thead role="rowgroup"><tr role="row">
        <th scope="col" role="columnheader">Peer</th><th scope="col" role="columnheader">Applied</th><th scope="col" role="columnheader">Gap</th><th scope="col" role="columnheader">Receives</th><th scope="col" role="columnheader">Sends</th>
        <th scope="col" role="columnheader">Lines</th><th scope="col" role="columnheader">Refused</th><th scope="col" role="columnheader">Dropped</th><th scope="col" role="columnheader">Waiting</th><th scope="col" role="columnheader">State</th>
      </tr></thead>
      <tbody role="rowgroup" id="peers"></tbody>
    </table>
  </section>
  <section class="card" aria-labelledby="sums-name">
    <div class="head"><h2 id="sums-name">Rights of the peers</h2><span class="small soft">as far as this site applied their logs</span></div>
    <table role="table">
      <thead role="rowgroup"><tr role="row">
        <th scope="col" role="columnheader">Peer</th><th scope="col" role="columnheader">Applied</th><th scope="col" role="columnheader">Issued</th><th scope="col" role="columnheader">Spent</th><th scope="col" role="columnheader">Given</th>
        <th scope="col" role="columnheader">Received</th><th scope="col" role="columnheader">Taken back</th><th scope="col" role="columnheader">Held</th><th scope="col" role="columnheader">Log</th>
      </tr></thead>
      <tbody role="rowgroup" id="sums"></tbody>
    </table>
  </section>
  <section class="card" aria-labelledby="refused-name" id="refused-card" hidden>
    <div class="head"><h2 id="refused-name">Refused commands</h2></div>
    <ul class="refused" id="refused"></ul>
  </section>
  <noscript><p class="notice warn">This page needs JavaScript. <code>GET /status</code>, <code>/peers</code> and <code>/metrics</code> have the same values as text.</p></noscript>
</main>
<script>
"use strict";

const PAUSE = 1000;      // milliseconds from a response to the next poll
const PATIENCE = 10000;  // milliseconds after which a request is given up
const SPAN = 300000;     // milliseconds that the picture shows
const RECENT = 60000;    // a counter that grew within this many milliseconds is marked
const RATE_SPAN = 10000; // milliseconds over which a rate is computed
const SILENCE = 10000;   // a peer that sends nothing for this many milliseconds is marked
const STUCK = 10000;     // a queue that nothing has left for this many milliseconds is marked
const OUTBOX = 256;      // the greatest number of lines in an outbox

const byId = id => document.getElementById(id);
const grouped = new Intl.NumberFormat("en-US");
const compact = new Intl.NumberFormat("en-US", { notation: "compact", maximumFractionDigits: 1 });
const number = value => grouped.format(BigInt(value));
const many = (count, one, more) => `${number(count)} ${count == 1 ? one : more}`;

// Values may exceed what a double represents exactly, so they remain strings of digits.
const readObject = text => JSON.parse(text.replace(/:(-?\d+)/g, ':"$1"'));

// By name: the value, or the values by the value of their only label.
function readMetrics(text) {
  const found = {};
  for (const line of text.split("\n")) {
    const parts = /^([a-z_]+)(?:\{[a-z]+="([^"]*)"\})? (\d+)$/.exec(line);
    if (!parts) continue;
    const [, name, label, value] = parts;
    if (label === undefined) found[name] = value;
    else (found[name] ??= {})[label] = value;
  }
  return found;
}

const samples = [];       // { at, held, spent }, or { at } if the site was not reached
const counters = {};      // by name and peer: { at, value } of the last minute
const heard = {};         // by peer: the lines received, when they last grew, and the longest pause before that
let last = null;          // the last status
let lastAt = 0;           // when it arrived
let lostAt = 0;           // since when the site cannot be reached; 0 if it can
let queueAt = 0;          // when a spend last left the queue, as far as this page saw it; 0 if none waits
let wentBack = false;     // whether this site's own log went back while the page was open
let cursor = null;        // the selected time, or null

function setText(id, text) {
  const element = byId(id);
  if (element.textContent !== text) element.textContent = text;
}

function make(tag, values, ...children) {
  const element = document.createElement(tag);
  for (const [name, value] of Object.entries(values)) element.setAttribute(name, value);
  element.append(...children);
  return element;
}

// By how much a counter grew in the last minute, as far as this page saw it.
function growth(name, value, now) {
  const seen = counters[name] ??= [];
  seen.push({ at: now, value: BigInt(value) });
  while (seen[0].at < now - RECENT) seen.shift();
  const grown = BigInt(value) - seen[0].value;
  return grown > 0n ? grown : 0n;
}

// For how many milliseconds a peer has sent nothing, if that is longer than its pauses were. Each of its ticks sends a
// line, but it may tick rarely.
function silenceOf(site, lines, now) {
  const known = heard[site] ??= { lines, at: now, pause: 0 };
  if (known.lines !== lines) {
    heard[site] = { lines, at: now, pause: Math.max(known.pause, now - known.at) };
    return 0;
  }
  const silence = now - known.at;
  return silence > Math.max(SILENCE, 3 * known.pause) ? silence : 0;
}

// Since when nothing has left the queue, if that is long; else 0. Spends leave it as they are served or expire; others
// may come at the same time.
function stuckSince(status, now) {
  const queued = BigInt(status.queued);
  const hasMoved = last && (queued < BigInt(last.queued) || BigInt(status.spent) > BigInt(last.spent));
  if (queued == 0n) queueAt = 0;
  else if (!queueAt || hasMoved) queueAt = now;
  return queueAt && now - queueAt > STUCK ? queueAt : 0;
}

// ---- peers

function findingsOf(peer, metric, now) {
  const of = name => (metric[`rights_peer_${name}`] ?? {})[peer.site];
  const found = [];
  const add = (level, text) => found.push({ level, text });
  if (of("number_went_back_total") > 0) add("bad", "Its log went back: it was started anew, or runs twice");
  if (of("receiving") == 0) add("bad", "Cut off: nothing comes from it");
  if (of("sending") == 0) add("bad", "Cut off: nothing goes to it");
  const silent = of("silent_seconds") ?? 0;
  const silence = silenceOf(peer.site, of("lines_total"), now);
  if (silent > 0) add("bad", `Silent since ${clock(now - silent * 1000)}: it is not asked for rights`);
  else if (silence && of("receiving") == 1) add("bad", `Silent: no line came for ${Math.round(silence / 1000)} seconds`);
  if (peer.buffering) add("warn", `Entries after ${number(peer.applied)} are missing`);
  for (const [name, what] of [["lines_refused_total", "refused"], ["lines_dropped_total", "dropped"]]) {
    const grown = growth(name + peer.site, of(name) ?? 0, now);
    if (grown > 0n) add("warn", `${many(grown, "line", "lines")} ${what} in the last minute`);
  }
  if (of("lines_waiting") > OUTBOX * 3 / 4) add("warn", `Its outbox fills: ${of("lines_waiting")} of ${OUTBOX} lines`);
  return found;
}

function gapOf(peer) {
  if (!peer.buffering) return "none";
  return peer.held == 0 ? "missing" : `missing, ${peer.held} held`;
}

function rowOf(peer, metric, findings) {
  const of = name => (metric[`rights_peer_${name}`] ?? {})[peer.site];
  const stands = name => of(name) === undefined ? "?" : of(name) == 1 ? "yes" : "no";
  const count = name => of(name) === undefined ? "?" : number(of(name));
  const marks = findings.length
    ? findings.map(({ level, text }) => make("li", {}, make("span", { class: `mark ${level}` }, `${level == "bad" ? "\u2716" : "!"} ${text}`)))
    : [make("li", {}, make("span", { class: "mark good" }, "\u2713 in order"))];
  const cells = [
    ["Applied", number(peer.applied)], ["Gap", gapOf(peer)], ["Receives", stands("receiving")], ["Sends", stands("sending")],
    ["Lines", count("lines_total")], ["Refused", count("lines_refused_total")], ["Dropped", count("lines_dropped_total")],
    ["Waiting", count("lines_waiting")], ["State", make("ul", {}, ...marks)],
  ];
  return rowWith(peer.site, cells);
}

// The roles are given because at a phone's width the style makes these no table cells.
function rowWith(site, cells) {
  return make("tr", { role: "row" }, make("th", { scope: "row", role: "rowheader" }, `Site ${site}`),
    ...cells.map(([name, value]) => make("td", { role: "cell", "data-name": name }, value)));
}

function sumsRowOf(peer) {
  return rowWith(peer.site, [
    ["Applied", number(peer.applied)], ["Issued", number(peer.issued)], ["Spent", number(peer.spent)], ["Given", number(peer.given)],
    ["Received", number(peer.received)], ["Taken back", number(peer.taken_back)], ["Held", number(peer.held)],
    ["Log", peer.closed ? "closed" : "open"],
  ]);
}

function showPeers(status, metric, now) {
  let troubled = 0;
  const rows = status.peers.map(peer => {
    const findings = findingsOf(peer, metric, now);
    troubled += findings.length > 0;
    return rowOf(peer, metric, findings);
  });
  byId("peers").replaceChildren(...rows);
  setText("peers-sum", troubled ? `${troubled} of ${rows.length} ${troubled == 1 ? "needs" : "need"} attention` : "all in order");
  return troubled;
}

// ---- the site

function rateOf(now) {
  const of = samples.filter(sample => sample.at >= now - RATE_SPAN && sample.spent !== undefined);
  if (of.length < 2) return "\u00a0";
  const seconds = (of.at(-1).at - of[0].at) / 1000;
  const rate = (of.at(-1).spent - of[0].spent) / seconds;
  return `${rate < 10 ? rate.toFixed(1) : grouped.format(Math.round(rate))} a second`;
}

function journalFact(journal) {
  if (!journal) return "no journal: a restart loses the rights";
  const waiting = BigInt(journal.records) - BigInt(journal.durable);
  const synced = `synced ${clock(Number(journal.synced))}`;
  const size = `journal of ${compact.format(Number(journal.bytes))}B, ${many(journal.records, "record", "records")}`;
  return waiting > 0n ? `${size}, ${number(waiting)} not durable yet, ${synced}` : `${size}, ${synced}`;
}

function showNumbers(status, metric, now) {
  for (const name of ["held", "spent", "queued", "issued", "received"]) {
    const text = number(status[name]);
    setText(name, text);
    byId(name).className = `number ${text.length > 16 ? "longest" : text.length > 11 ? "long" : ""}`;
  }
  setText("rate", rateOf(now));
  const waiting = metric.rights_requests_waiting;
  setText("waiting", waiting === undefined ? "\u00a0" : waiting == 1 ? "1 spend waits" : `${number(waiting)} spends wait`);
  setText("given", metric.rights_given_total === undefined ? "\u00a0" : `${number(metric.rights_given_total)} given`);
  const refused = Object.entries(metric.rights_commands_refused_total ?? {}).filter(([, count]) => count > 0);
  const facts = [`log at ${number(status.number)}`];
  if (metric.rights_clients !== undefined) facts.push(many(metric.rights_clients, "client", "clients"));
  if (metric.rights_commands_total !== undefined) facts.push(many(metric.rights_commands_total, "command", "commands"));
  facts.push(journalFact(status.journal));
  setText("facts", facts.join(" \u00b7 "));
  byId("refused-card").hidden = refused.length == 0;
  byId("refused").replaceChildren(...refused.map(([name, count]) => make("li", {}, `${name} `, make("b", {}, number(count)))));
}

function showState(level, text) {
  const state = byId("state");
  state.className = `pill ${level}`;
  setText("state", text);
  setText("name", last ? `Site ${last.site} of ${last.peers.length + 1}` : "rights-site");
  document.title = last ? `Site ${last.site}: ${text}` : `rights-site: ${text}`;
}

function showNotices(notices) {
  const shown = byId("notices");
  const text = notices.map(([, said]) => said).join("\n");
  if (shown.dataset.text === text) return;
  shown.dataset.text = text;
  shown.replaceChildren(...notices.map(([level, said]) => make("p", { class: `notice ${level}`, role: "alert" }, said)));
}

const clock = time => new Date(time).toLocaleTimeString("en-GB");

function show(status, sums, metric, now) {
  if (last && (last.site !== status.site || BigInt(status.number) < BigInt(last.number))) wentBack = true;
  const stuck = stuckSince(status, now);
  const behind = metric.rights_clock_behind_seconds ?? 0;
  last = status;
  lastAt = now;
  lostAt = 0;
  samples.push({ at: now, held: Number(status.held), spent: Number(status.spent) });
  const troubled = showPeers(status, metric, now);
  byId("sums").replaceChildren(...sums.peers.map(sumsRowOf));
  showNumbers(status, metric, now);
  const notices = [];
  if (wentBack) notices.push(["bad", "The log of this site went back while this page was open: it was started anew under its number."]);
  if (stuck) notices.push(["warn", `The queue is stuck: nothing has left it since ${clock(stuck)}, and ${many(status.queued, "right is", "rights are")} waited for.`]);
  if (behind > 0) notices.push(["warn", `The wall clock went back: this site's time stands still for ${many(behind, "second", "seconds")}.`]);
  if (status.closed) notices.push(["warn", "This site has closed. It no longer issues, spends or gives rights."]);
  showNotices(notices);
  byId("main").classList.remove("stale");
  if (status.closed) showState("warn", "closed");
  else {
    const needs = troubled || wentBack || stuck || behind > 0;
    showState(needs ? "warn" : "good", needs ? "open, needs attention" : "open");
  }
}

function showLost(cause, now) {
  lostAt ||= now;
  samples.push({ at: now });
  byId("main").classList.add("stale");
  setText("peers-sum", last ? "unknown" : "");
  showState("bad", "unreachable");
  const seen = last ? ` The values below are from ${clock(lastAt)}.` : "";
  showNotices([["bad", `The site has not been reached since ${clock(lostAt)}: ${cause}.${seen}`]]);
}

// ---- the picture

const MARGIN = { left: 50, right: 10, top: 10, bottom: 22 };

function scaleOf(most) {
  const raw = Math.max(most, 5) / 5;
  const size = 10 ** Math.floor(Math.log10(raw));
  const step = [1, 2, 2.5, 5, 10].map(it => it * size).find(it => it >= raw && Number.isInteger(it)) ?? raw;
  return { step, top: step * Math.max(1, Math.ceil(most / step)) };
}

// The samples as runs, between which the site was not reached.
function runs() {
  const found = [[]];
  for (const sample of samples) {
    if (sample.held === undefined) found.push([]);
    else found.at(-1).push(sample);
  }
  return found.filter(run => run.length);
}

function lostTimes(now) {
  const found = [];
  samples.forEach((sample, place) => {
    if (sample.held !== undefined) return;
    const end = samples[place + 1]?.at ?? now;
    if (found.length && found.at(-1)[1] === sample.at) found.at(-1)[1] = end;
    else found.push([sample.at, end]);
  });
  return found;
}

function draw() {
  const now = Date.now();
  while (samples.length && samples[0].at < now - SPAN - 2000) samples.shift();
  const svg = byId("picture");
  const width = svg.clientWidth || 600, height = 220;
  const inner = { width: width - MARGIN.left - MARGIN.right, height: height - MARGIN.top - MARGIN.bottom };
  const { step, top } = scaleOf(Math.max(0, ...samples.map(it => (it.held ?? 0) + (it.spent ?? 0))));
  const x = at => Math.max(MARGIN.left, MARGIN.left + (1 - (now - at) / SPAN) * inner.width);
  const y = value => MARGIN.top + (1 - value / top) * inner.height;
  const parts = [];
  for (const [from, to] of lostTimes(now)) {
    parts.push(`<rect class="lost" x="${x(from)}" y="${MARGIN.top}" width="${Math.max(1, x(to) - x(from))}" height="${inner.height}"/>`);
  }
  const area = (run, low, high) => {
    const side = (of, list) => list.map(it => `${x(it.at).toFixed(1)},${y(of(it)).toFixed(1)}`);
    // A single sample is a bar of one second.
    const line = run.length > 1 ? run : [run[0], { ...run[0], at: run[0].at + 1000 }];
    return `M${[...side(high, line), ...side(low, [...line].reverse())].join("L")}Z`;
  };
  for (const run of runs()) {
    parts.push(`<path class="spent" d="${area(run, () => 0, it => it.spent)}"/>`);
    parts.push(`<path class="held" d="${area(run, it => it.spent, it => it.spent + it.held)}"/>`);
  }
  for (let value = 0; value <= top; value += step) {
    const at = y(value).toFixed(1);
    parts.push(`<line class="grid" x1="${MARGIN.left}" x2="${width - MARGIN.right}" y1="${at}" y2="${at}"/>`);
    parts.push(`<text x="${MARGIN.left - 7}" y="${+at + 4}" text-anchor="end">${compact.format(value)}</text>`);
  }
  for (let minute = 0; minute <= 5; minute += inner.width < 420 ? 2 : 1) {
    const anchor = minute == 0 ? "end" : minute == 5 ? "start" : "middle";
    parts.push(`<text x="${x(now - minute * 60000)}" y="${height - 5}" text-anchor="${anchor}">${minute ? `\u2212${minute} min` : "now"}</text>`);
  }
  const sample = sampleAt(cursor);
  if (sample) {
    parts.push(`<line class="cursor" x1="${x(sample.at)}" x2="${x(sample.at)}" y1="${MARGIN.top}" y2="${height - MARGIN.bottom}"/>`);
    if (sample.held !== undefined) parts.push(`<circle class="dot" r="3" cx="${x(sample.at)}" cy="${y(sample.spent + sample.held)}"/>`);
  }
  svg.innerHTML = parts.join("");
  tell(svg, sample, now);
}

function tell(svg, sample, now) {
  const said = sample ?? samples.at(-1);
  const text = !said ? "no values yet"
    : said.held === undefined ? `${clock(said.at)}: unreachable`
    : `${clock(said.at)}: held ${grouped.format(said.held)}, spent ${grouped.format(said.spent)}`;
  setText("reading", sample ? text : "\u00a0");
  svg.setAttribute("aria-valuetext", text);
  svg.setAttribute("aria-valuenow", said ? Math.max(-300, Math.round((said.at - now) / 1000)) : 0);
}

// The sample nearest to a time.
function sampleAt(time) {
  if (time === null || !samples.length) return null;
  return samples.reduce((best, it) => Math.abs(it.at - time) < Math.abs(best.at - time) ? it : best);
}

function point(event) {
  const box = byId("picture").getBoundingClientRect();
  const part = (event.clientX - box.left - MARGIN.left) / (box.width - MARGIN.left - MARGIN.right);
  cursor = Date.now() - (1 - Math.min(1, Math.max(0, part))) * SPAN;
  draw();
}

function leave() {
  cursor = null;
  draw();
}

function move(event) {
  const place = cursor === null ? samples.length : samples.indexOf(sampleAt(cursor));
  const places = { ArrowLeft: place - 1, ArrowDown: place - 1, ArrowRight: place + 1, ArrowUp: place + 1, Home: 0,
    End: samples.length - 1, PageUp: place - 30, PageDown: place + 30 };
  if (event.key == "Escape") leave();
  else if (event.key in places && samples.length) {
    event.preventDefault();
    cursor = samples[Math.min(samples.length - 1, Math.max(0, places[event.key]))].at;
    draw();
  }
}

byId("picture").addEventListener("pointermove", point);
byId("picture").addEventListener("pointerdown", point);
byId("picture").addEventListener("pointerleave", leave);
byId("picture").addEventListener("keydown", move);
byId("picture").addEventListener("blur", leave);
addEventListener("resize", draw);

// ---- polling

async function get(path) {
  const signal = AbortSignal.timeout(PATIENCE);
  const response = await fetch(path, { signal, cache: "no-store", credentials: "omit" });
  if (response.status == 503) throw new Error("all its client connections are in use");
  if (!response.ok) throw new Error(`it responds with ${response.status} to ${path}`);
  return response.text();
}

function causeOf(error) {
  if (error.name == "TimeoutError") return `no response within ${PATIENCE / 1000} seconds`;
  return error instanceof TypeError ? "no connection" : error.message;
}

// One after the other, so that the page takes only one of the site's connections.
async function poll() {
  try {
    const status = readObject(await get("/status"));
    const sums = readObject(await get("/peers"));
    const metric = readMetrics(await get("/metrics"));
    show(status, sums, metric, Date.now());
  } catch (error) {
    showLost(causeOf(error), Date.now());
  }
  draw();
  setTimeout(poll, PAUSE);
}

draw();
poll();
</script>
</body>
</html>
"##;
