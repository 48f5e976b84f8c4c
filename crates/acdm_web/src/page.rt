//! The page for browsers, which clients/web/embed.py writes from clients/web and docs/schema/words.json.

/// The page, complete in itself.
pub static PAGE: &str = r##"<!DOCTYPE html>
<html lang="en">
<head>
<meta charset="utf-8">
<meta name="viewport" content="width=device-width,initial-scale=1">
<title>A-CDM board</title>
<style>:root{color-scheme:light dark;--back:#fff;--text:#1b2430;--faint:#55616f;--line:#d5dbe2;--head:#eef1f5;--alert:#9c1c1c;--local:#6b5000;--warn:#8a4b00;--cell:#e3e8ee;--actual:#1d4e89}@media (prefers-color-scheme:dark){:root{--back:#10151c;--text:#dde3ea;--faint:#9aa7b6;--line:#2a3441;--head:#1a222d;--alert:#ff8a80;--local:#ffd166;--warn:#ffb066;--cell:#27313d;--actual:#8ab8ec}}*{box-sizing:border-box}html{font-size:clamp(14px,.75vw,48px)}body{margin:0;font:1rem/1.35 "DejaVu Sans",system-ui,sans-serif;background:var(--back);color:var(--text)}small{color:var(--faint);font-size:.85em}.soon{color:var(--local);font-weight:700}.past{color:var(--alert);font-weight:700}.unseen{position:absolute;width:1px;height:1px;margin:0;overflow:hidden;clip-path:inset(50%);white-space:nowrap}:focus-visible{outline:2px solid #4a90d9;outline-offset:-2px}header{position:sticky;top:0;z-index:2;display:flex;flex-wrap:wrap;gap:.4em 1em;align-items:center;padding:.5em .8em;background:var(--head);border-bottom:1px solid var(--line)}#clock{font-size:1.5rem;font-weight:700}#ticks:empty,#anew:empty{display:none}#unproved,#ticks,#anew{font-weight:700;color:var(--warn)}#state.lost{font-weight:700;color:var(--alert)}#controls,#partners{display:flex;flex-wrap:wrap;gap:.3em 1em;align-items:center;margin:0}#partners{gap:.3em}.partner{padding:0 .4em;border:1px solid var(--line);border-radius:3px}.partner.old{border-color:var(--warn);color:var(--warn)}input,select,dialog button{font:inherit;max-width:100%}input[type=checkbox]{width:1.1em;height:1.1em;vertical-align:middle}#options label{display:inline-block;margin:.1em 1em .1em 0}#options > summary{color:var(--faint);cursor:pointer}input[type=search]{width:15em}input[type=file]{width:14em}#refused,#legend,#alerting{margin:.3em .8em;color:var(--faint)}#refused{color:var(--warn)}#alerting li{margin:.2em 0;color:var(--text)}#alerting button,#heads button{font:inherit;color:inherit;background:none;border:0;padding:0;cursor:pointer;text-align:left}#alerting button{text-decoration:underline}#legend i{display:inline-block;padding:0 .4em;margin-right:.3em;font-style:normal;color:#fff}#board,#board > *{display:block}#heads,#rows tr{display:grid;grid-template-columns:8.8rem 8.8rem 3.7rem 3.7rem 22.3rem 5rem 3.9rem 4.2rem 6.6rem 6.6rem 3.9rem minmax(13rem,1fr)}#heads th{white-space:normal}#rows td:first-child{white-space:normal;overflow-wrap:anywhere}table{border-collapse:collapse;width:100%}th,td{text-align:left;padding:.3em .5em;border-bottom:1px solid var(--line);white-space:nowrap;vertical-align:top}th{font-weight:400;color:var(--faint)}th[aria-sort]{color:var(--text);font-weight:700}th[aria-sort] button:after{content:" \2191"}th[aria-sort=descending] button:after{content:" \2193"}#rows tr{cursor:pointer;content-visibility:auto;contain-intrinsic-size:auto 2.2rem}tr.alerted td:first-child{border-left:4px solid var(--alert)}tr.departed{color:var(--faint)}td.alerts{white-space:normal}.alert{display:inline-block;margin:0 .3em .1em 0;padding:0 .3em;border:1px solid var(--alert);border-radius:3px;color:var(--alert)}.alert.local{border-color:var(--local);color:var(--local)}td i{color:var(--faint)}.cells i{display:inline-block;width:1.25rem;height:1.25rem;margin-right:1px;font:.68rem/1.25rem "DejaVu Sans",sans-serif;text-align:center;background:var(--cell);color:var(--faint)}.cells i.on{font-weight:700;color:#fff;background:#455a64}.NM,.cells i.NM{background:#6b4d97}.ATC,.cells i.ATC{background:#1d5b9e}.APT,.cells i.APT{background:#22713f}.AO,.cells i.AO{background:#8a5a00}.GH,.cells i.GH{background:#a3420f}.DIC,.cells i.DIC{background:#00697a}#none,#more{padding:1.5em .8em;color:var(--faint)}dialog{width:min(95vw,70rem);max-height:95vh;border:1px solid var(--line);background:var(--back);color:var(--text)}dialog h2{margin:.3em 0;font-size:1.2rem}dialog td{white-space:normal;overflow-wrap:anywhere}dialog td:first-child{width:9em;color:var(--faint)}#day{overflow-x:auto}#day svg{min-width:42rem}svg text{font-size:12px}.axis{stroke:var(--faint);stroke-width:2}.stem{stroke:var(--line)}circle.actual,text.actual{fill:var(--actual)}path.target{fill:var(--back);stroke:var(--warn);stroke-width:1.5}text.target{fill:var(--warn)}@media (min-width:761px){#options > summary{display:none}}@media screen and (max-width:1340px){#board > thead{display:none}#rows tr{grid-template-columns:repeat(8,minmax(0,1fr));padding:.4em .3em;border-bottom:1px solid var(--line);contain-intrinsic-size:auto 7rem}#rows td{border:0;padding:.1em .4em}td[data-name]:before{content:attr(data-name) " ";color:var(--faint);font-size:.8em}#rows td.wide,#rows td:first-child,#rows td:nth-child(2){grid-column:span 4;white-space:normal}#rows td[data-name=TOBT],#rows td[data-name=TSAT]{font-size:1.15em;grid-column:span 2;order:-1}#rows td:first-child{order:-3}#rows td:nth-child(2){order:-2}}@media screen and (max-width:760px){header{position:static;gap:.2em .7em}#rows tr{grid-template-columns:repeat(4,minmax(0,1fr));contain-intrinsic-size:auto 11rem}#rows td.wide{grid-column:1 / -1}#rows td:first-child,#rows td:nth-child(2),#rows td[data-name=land]{grid-column:span 2}.cells i{width:1.2rem;margin-bottom:1px}}@media print{:root{color-scheme:light;--back:#fff;--text:#000;--faint:#444;--line:#999;--head:#fff;--alert:#000}html{font-size:7.5pt}@page{size:landscape;margin:8mm}header{position:static}#controls,#more,#legend,dialog{display:none}#rows tr{content-visibility:visible;break-inside:avoid}th,td{padding:.15em .3em}.cells i{width:1.1rem;border:1px solid #999;background:none;color:#999}.cells i.on{color:#000;background:none;border-color:#000}}</style>
</head>
<body>
<header>
<span id="clock" role="timer" aria-label="time">--:--</span>
<span id="state" role="status">connecting</span>
<span id="unproved" hidden>This program is not proved.</span>
<span id="ticks" role="status"></span>
<span id="anew" role="status"></span>
<span id="sums"></span>
<span id="partners" role="group" aria-label="partners, with their last word"></span>
<form id="controls" role="search">
<label>Filter <input id="text" type="search" placeholder="call sign, stand, alert" accesskey="f"></label>
<details id="options">
<summary>Options</summary>
<label>Order <select id="by"></select></label>
<label>Show
<select id="show">
<option value="open">open flights</option>
<option value="departed">departed too</option>
<option value="all">all, over for 3 hours too</option>
</select>
</label>
<label><input id="only" type="checkbox"> alerts only</label>
<label><input id="sound" type="checkbox"> sound</label>
<label><input id="notify" type="checkbox"> notify</label>
<label>Time <input id="zone" list="zones" placeholder="UTC" size="14" spellcheck="false"></label>
<datalist id="zones"></datalist>
<label title="A text file of the airport's, a line each, as: LOC03 de-icing late">
Names of local alerts <input id="names" type="file" accept=".txt,text/plain">
</label>
</details>
</form>
</header>
<main>
<p id="refused"></p>
<details id="alerting">
<summary id="alerting-count">No alerts</summary>
<ul id="alerts"></ul>
</details>
<p id="news" class="unseen" role="log" aria-live="polite"></p>
<table id="board" role="table" aria-label="flights">
<thead role="rowgroup"><tr id="heads" role="row"></tr></thead>
<tbody id="rows" role="rowgroup"></tbody>
</table>
<p id="more" hidden></p>
<p id="none" hidden>No flight to show.</p>
<p id="legend"></p>
</main>
<dialog id="one" aria-labelledby="name">
<form method="dialog"><button autofocus>Close</button></form>
<h2 id="name"></h2>
<div id="day"></div>
<table id="detail" role="table" aria-label="record"></table>
</dialog>
<script>
"use strict";
const WORDS={"roles":{"NM":"network manager","ATC":"air traffic control","APT":"airport operator","AO":"aircraft operator","GH":"ground handler","DIC":"de-icing company"},"alerts":{"CDM01":"no airport slot","CDM02":"SOBT and EOBT differ","CDM03":"aircraft types differ","CDM04":"registrations differ","CDM05":"destinations differ","CDM07":"EOBT too early for the turn-round","CDM08":"TOBT over 15 min from EOBT","CDM09":"boarding not started","CDM10":"TOBT taken back","CDM11":"TSAT missed","CDM12":"start-up off its TSAT","CDM13":"no flight plan","CDM14":"no automatic TOBT","CDM07a":"TOBT too early for the turn-round"},"turns":{"CDM01":["APT"],"CDM02":["AO","NM"],"CDM03":["AO","NM"],"CDM04":["AO","NM"],"CDM05":["AO","NM"],"CDM07":["AO","NM"],"CDM08":["AO","GH"],"CDM09":["AO","GH"],"CDM10":["AO","GH"],"CDM11":["ATC"],"CDM12":["ATC"],"CDM13":["AO","NM"],"CDM14":["AO","GH"],"CDM07a":["AO","GH"]},"milestones":[{"short":"flight plan","owner":"NM"},{"short":"EOBT minus 2 h","owner":"NM"},{"short":"take-off from outstation","owner":"NM"},{"short":"radar update","owner":"ATC"},{"short":"final approach","owner":"ATC"},{"short":"landed","owner":"ATC"},{"short":"in-block","owner":"APT"},{"short":"ground handling","owner":"GH"},{"short":"TOBT","owner":"AO"},{"short":"TSAT","owner":"ATC"},{"short":"boarding","owner":"AO"},{"short":"ready","owner":"AO"},{"short":"start-up request","owner":"ATC"},{"short":"start-up approved","owner":"ATC"},{"short":"off-block","owner":"APT"},{"short":"take-off","owner":"ATC"}],"refusals":{"201":"the role does not own the command","202":"the flight is not on the board","203":"a milestone that this one needs was not reached","204":"a milestone that bars this one was reached","205":"TOBT, or TSAT, is not set","206":"the times would stand in the wrong order","207":"the flight has its schedule and its flight plan","321":"there is no program in the slot","322":"the program was checked beside other helpers","323":"the program is for records of another length","324":"the board was migrated already","325":"the board was not migrated","503":"there are 4,096 flights already"}};
const TARGETS = ["sobt", "eobt", "ctot", "eldt", "tobt", "tsat", "eczt", "eezt"];
const TIMES = [
"sobt", "eobt", "ctot", "otot", "eldt", "aldt", "aibt", "acgt", "tobt", "tsat",
"asbt", "ardt", "asrt", "asat", "aobt", "atot", "eczt", "eezt", "aczt", "aezt",
];
const STEP = 200, PART = 20;
const MINUTE = 60000, SILENT = 30 * MINUTE, OVER = 180 * MINUTE, UNTICKED = 5 * MINUTE;
const MANY = 500, SPACED = 100;
const ANEW = 500, TOLD = 10 * MINUTE;
const FIRST_BACK = 2000, MOST_BACK = 64000, LISTED = 100, REFUSED = 5;
const flights = new Map(), facts = new Map(), rows = new Map();
const partners = new Map(), reported = new Map(), stale = new Set();
const onsets = new Map(), earliest = new Map();
let journal = "", next = 0, room = 0, refused = [], heard = 0, alerted = 0, most = STEP, local = {};
let ticked = "", first = "", anew = "";
let isAll = true, isDue = true, isWaiting = false, opened = "", focused = "", known = Infinity, reading = null;
let zone = "UTC", order = "", isDown = false, hours, drawn = 0;
const kept = (name, otherwise) => {
try {
return JSON.parse(localStorage.getItem(name)) ?? otherwise;
} catch {
return otherwise;
}
};
const keep = (name, value) => {
try {
localStorage.setItem(name, JSON.stringify(value));
} catch {}
};
local = kept("names", {});
const element = (id) => document.getElementById(id);
let ahead = 0;
const now = () => Date.now() + ahead;
const half = (flight, key) => flight["plan_" + key] || flight["scheduled_" + key];
const words = (alert) => WORDS.alerts[alert] || local[alert] || "local alert " + alert.slice(3);
const turn = (alert) => WORDS.turns[alert] || ["APT"];
const milestone = (number) => WORDS.milestones[number - 1];
const hasDeparted = (flight) => flight.reached.includes(16);
function clock(time) {
if (!time) return "–";
return zone === "UTC" ? time.slice(-9, -4) : hours.format(Date.parse(time));
}
function tag(name, text, kind, role) {
const node = document.createElement(name);
if (text !== undefined) node.textContent = text;
if (kind) node.className = kind;
if (role) node.setAttribute("role", role);
return node;
}
const parsed = (text) => JSON.parse(text.replace(/"flight":(\d+)/g, '"flight":"$1"'));
const late = (time) => time || "~";
const ordinal = (number) => String(number).padStart(5, "0");
const aircraft = (flight) => half(flight, "type") + " " + half(flight, "reg");
const COLUMNS = [
["Flight", callsign, (flight) => flight.callsign],
["Type, registration", (flight) => tag("td", aircraft(flight)), aircraft],
["To", (flight) => named("to", tag("td", half(flight, "dest"))), (flight) => half(flight, "dest")],
["Stand", (flight) => named("stand", tag("td", flight.stand || "–")), (flight) => ordinal(flight.stand)],
["Milestones", milestoneCells, (flight) => ordinal(99 - flight.reached.length)],
["ELDT or ALDT", landing, (flight) => late(flight.aldt || flight.eldt)],
["AIBT", (flight) => named("AIBT", tag("td", clock(flight.aibt))), (flight) => late(flight.aibt)],
["EOBT", offBlock, (flight) => late(flight.eobt || flight.sobt)],
["TOBT", (flight) => named("TOBT", target(flight.tobt, flight.aobt)), (flight) => late(flight.tobt)],
["TSAT", (flight) => named("TSAT", target(flight.tsat, flight.asat)), (flight) => late(flight.tsat)],
["CTOT", (flight) => named("CTOT", tag("td", clock(flight.ctot))), (flight) => late(flight.ctot)],
["Alerts", alertCells, (flight) => ordinal(99 - flight.alerts.length)],
];
function named(name, cell) {
cell.dataset.name = name;
return cell;
}
function callsign(flight) {
const cell = tag("td");
cell.append(tag("b", flight.callsign), " ", tag("small", flight.flight));
return cell;
}
function landing(flight) {
const cell = tag("td");
cell.append(flight.aldt ? tag("b", clock(flight.aldt)) : clock(flight.eldt));
return named("land", cell);
}
function offBlock(flight) {
const cell = tag("td");
if (flight.eobt) cell.append(clock(flight.eobt));
else if (flight.sobt) cell.append(tag("i", clock(flight.sobt)));
else cell.append("–");
return named(flight.eobt || !flight.sobt ? "EOBT" : "SOBT", cell);
}
function target(time, isDone) {
const cell = tag("td", clock(time));
if (!time || isDone) return cell;
const left = Math.floor((Date.parse(time) - now()) / MINUTE);
if (Math.abs(left) >= 6000) return cell;
cell.append(" ", tag("small", (left < 0 ? "" : "+") + left, left < 0 ? "past" : left <= 10 ? "soon" : ""));
return cell;
}
function milestoneCell(flight, number) {
const isReached = flight.reached.includes(number), by = reported.get(flight.flight + "/" + number);
const cell = tag("i", number);
if (isReached) cell.className = "on" + (by ? " " + by.role : "");
const who = by ? ": " + by.role + ", session " + by.session + ", at " + clock(by.minute) : ": reached";
cell.title = number + " " + milestone(number).short + (isReached ? who : ": not reached");
return cell;
}
function milestoneCells(flight) {
const cell = tag("td", undefined, "cells wide"), cells = tag("span");
const reached = flight.reached.filter(Boolean).map((number) => milestone(number).short);
cells.setAttribute("aria-hidden", "true");
for (let number = 1; number <= WORDS.milestones.length; number++) cells.append(milestoneCell(flight, number));
cell.append(cells, tag("span", "reached: " + (reached.join(", ") || "none"), "unseen"));
return cell;
}
function alertCells(flight) {
const cells = tag("td", undefined, "alerts wide");
for (const alert of flight.alerts) {
const cell = tag("span", words(alert), "alert" + (alert.startsWith("LOC") ? " local" : ""));
cell.title = alert + ", " + turn(alert).join(" or ") + since(flight, alert);
cells.append(cell, " ");
}
return cells;
}
function since(flight, alert) {
const onset = onsets.get(flight.flight)?.get(alert);
if (!onset?.minute) return "";
return (onset.isSure ? ", since " : ", since before ") + clock(onset.minute);
}
function row(flight) {
const line = rows.get(flight.flight) || tag("tr", undefined, "", "row");
rows.set(flight.flight, line);
line.dataset.flight = flight.flight;
line.tabIndex = flight.flight === focused ? 0 : -1;
line.className = (flight.alerts.length ? "alerted" : "") + (hasDeparted(flight) ? " departed" : "");
const cells = COLUMNS.map((column) => column[1](flight));
for (const cell of cells) cell.setAttribute("role", "cell");
line.replaceChildren(...cells);
return line;
}
function fact(flight) {
const texts = [flight.callsign, flight.flight, half(flight, "type"), half(flight, "reg"), half(flight, "dest")];
texts.push("stand " + flight.stand, ...flight.alerts, ...flight.alerts.map(words));
const usual = late(flight.tobt || flight.eobt || flight.sobt) + late(flight.eobt);
const column = COLUMNS.find((it) => it[0] === order);
const last = TIMES.reduce((latest, name) => flight[name] > latest ? flight[name] : latest, "");
return {
search: texts.join(" ").toLowerCase(),
order: (column ? column[2](flight) + " " : "") + usual + flight.flight.padStart(20, "0"),
last: last ? Date.parse(last) : Infinity,
isGone: hasDeparted(flight),
id: flight.flight,
};
}
function put(flight) {
flights.set(flight.flight, flight);
facts.set(flight.flight, fact(flight));
stale.add(flight.flight);
if (flight.flight === opened) fill(flight);
}
function choice() {
return {
show: element("show").value,
only: element("only").checked,
words: element("text").value.toLowerCase().split(/\s+/).filter(Boolean),
over: now() - OVER,
};
}
function isAsked(flight, fact, asked) {
if (asked.show !== "all" && fact.last < asked.over || asked.show === "open" && fact.isGone) return false;
if (asked.only && !flight.alerts.length) return false;
return asked.words.every((word) => fact.search.includes(word));
}
let list = [];
function shown() {
const asked = choice(), before = new Set(list.map((it) => it.id)), found = [];
alerted = 0;
for (const it of list) {
const fact = facts.get(it.id), flight = flights.get(it.id);
if (fact && isAsked(flight, fact, asked)) found.push(fact);
}
for (const [id, flight] of flights) {
const fact = facts.get(id);
if (flight.alerts.length && !fact.isGone) alerted++;
if (!before.has(id) && isAsked(flight, fact, asked)) found.push(fact);
}
const sign = isDown ? -1 : 1;
list = found.sort((one, other) => one.order < other.order ? -sign : sign);
return list;
}
function drawRows() {
const focus = document.activeElement;
const seen = new Set(list.slice(0, most).map((it) => it.id));
for (const id of rows.keys()) {
if (!seen.has(id)) {
rows.get(id).remove();
rows.delete(id);
}
}
if (!seen.has(focused)) focused = list[0]?.id || "";
let place = element("rows").firstChild, left = PART;
for (const id of seen) {
let line = rows.get(id);
if (!line || stale.has(id)) {
if (left > 0) {
left--;
line = row(flights.get(id));
stale.delete(id);
} else {
soon();
if (!line) continue;
}
}
if (line === place) place = place.nextSibling;
else element("rows").insertBefore(line, place);
}
if (rows.get(focused) === focus) focus.focus({ preventScroll: true });
const first = rows.get(focused);
if (first) first.tabIndex = 0;
}
function partnerCell([session, partner]) {
const isOld = now() - Date.parse(partner.last) > SILENT;
const text = partner.role + " " + session + " " + clock(partner.last) + (isOld ? " (silent)" : "");
const count = partner.refused ? ", " + partner.refused + " refused" : "";
return tag("span", text + count, "partner" + (isOld ? " old" : ""));
}
function refusal(line) {
const flight = line.command.flight ? " " + line.command.flight : "";
const why = WORDS.refusals[line.outcome.code] || line.outcome.name;
return clock(line.minute) + " " + line.role + " " + line.command.cmd + flight + ": " + why;
}
function alertList() {
const list = [];
for (const flight of flights.values()) {
if (hasDeparted(flight)) continue;
for (const alert of flight.alerts) {
list.push({ flight, alert, onset: onsets.get(flight.flight)?.get(alert)?.minute || "" });
}
}
return list.sort((one, other) => one.onset < other.onset ? -1 : one.onset > other.onset ? 1 : 0);
}
function alertItem({ flight, alert, onset }) {
const item = tag("li"), button = tag("button", flight.callsign);
button.type = "button";
button.dataset.flight = flight.flight;
const left = onset ? ", " + Math.max(0, Math.floor((now() - Date.parse(onset)) / MINUTE)) + " min" : "";
item.append(button, " " + words(alert) + since(flight, alert) + left + "; turn of " + turn(alert).join(" or "));
return item;
}
function drawAlerts() {
element("alerting-count").textContent = alerted ? "Alerts of " + alerted + " flights" : "No alerts";
if (!element("alerting").open) return;
const list = alertList(), items = list.slice(0, LISTED).map(alertItem);
if (list.length > LISTED) items.push(tag("li", list.length - LISTED + " more"));
element("alerts").replaceChildren(...items);
}
async function askTime() {
const begun = Date.now();
try {
const answer = await fetch("/", { method: "HEAD" });
const found = Date.parse(answer.headers.get("Date")) + 500 - (begun + Date.now()) / 2;
if (!isNaN(found)) ahead = Math.abs(found) < 1000 ? 0 : found;
} catch {}
}
function drawClock() {
const moment = new Date(now()), text = moment.toISOString().slice(11, 16) + "Z";
const own = zone === "UTC" ? "" : " " + hours.format(moment) + " " + zone;
if (element("clock").textContent !== text + own) element("clock").textContent = text + own;
}
function draw() {
drawClock();
drawTicks();
drawAnew();
if (isAll) {
isAll = false;
isDue = true;
for (const flight of flights.values()) put(flight);
}
if (!isDue) return;
isDue = false;
shown();
drawRows();
drawAlerts();
document.title = (alerted ? "(" + alerted + ") " : "") + "A-CDM board";
element("more").hidden = list.length <= most;
element("more").textContent = list.length - most + " more";
element("none").hidden = list.length > 0;
const entries = next + " of " + room + " entries" + (room && next >= 0.8 * room ? " (nearly full)" : "");
const sums = list.length + " of " + flights.size + " flights, " + alerted + " with alerts";
element("sums").textContent = entries + ", " + sums;
const cells = [...partners].sort((one, other) => one[0] - other[0]).flatMap((pair) => [partnerCell(pair), " "]);
element("partners").replaceChildren(...cells);
element("refused").textContent = refused.length ? "Refused last: " + refused.map(refusal).join("; ") : "";
}
function soon() {
isDue = true;
if (isWaiting) return;
isWaiting = true;
const left = flights.size > MANY ? drawn + SPACED - performance.now() : 0;
const go = () => requestAnimationFrame(() => {
isWaiting = false;
draw();
drawn = performance.now();
});
if (left > 0) setTimeout(go, left);
else go();
}
function tellAlert(flight, alert) {
const text = flight.callsign + ": " + words(alert) + ", turn of " + turn(alert).join(" or ");
element("news").textContent = text;
if (element("sound").checked) beep();
const mayNotify = element("notify").checked && Notification.permission === "granted";
if (mayNotify) new Notification(text, { tag: flight.flight + alert });
}
let audio = null;
function beep() {
audio = audio || new AudioContext();
const tone = audio.createOscillator(), volume = audio.createGain();
volume.gain.setValueAtTime(0.2, audio.currentTime);
volume.gain.exponentialRampToValueAtTime(0.001, audio.currentTime + 0.4);
tone.frequency.value = 880;
tone.connect(volume).connect(audio.destination);
tone.start();
tone.stop(audio.currentTime + 0.4);
}
function takeAlerts(flight, minute) {
const before = flights.get(flight.flight)?.alerts || [], had = onsets.get(flight.flight) || new Map();
const standing = new Map();
for (const alert of flight.alerts) {
const isNew = !before.includes(alert);
standing.set(alert, isNew ? { minute, isSure: true } : had.get(alert) || { minute, isSure: false });
if (isNew && isAsked(flight, facts.get(flight.flight), { ...choice(), words: [] })) tellAlert(flight, alert);
}
onsets.set(flight.flight, standing);
if (!earliest.has(flight.flight)) earliest.set(flight.flight, minute);
}
function drawTicks() {
const last = ticked || first, isMissing = last && now() - Date.parse(last) > UNTICKED;
const text = isMissing ? "no tick since " + clock(last) + ": alerts that come with time are missing" : "";
if (element("ticks").textContent !== text) element("ticks").textContent = text;
}
function drawAnew() {
const isTold = anew && now() - Date.parse(anew) < TOLD;
const text = isTold ? "another journal: read anew at " + clock(anew) : "";
if (element("anew").textContent !== text) element("anew").textContent = text;
}
function learn(line) {
const partner = partners.get(line.session) || { role: line.role, refused: 0, entry: -1 };
if (line.entry > partner.entry) {
partner.entry = line.entry;
partner.last = line.minute;
}
partners.set(line.session, partner);
if (line.command.cmd === "tick" && line.minute > ticked) ticked = line.minute;
if (!first || line.minute < first) first = line.minute;
if (line.outcome !== "ok") {
partner.refused++;
refused = [line, ...refused].sort((one, other) => other.entry - one.entry).slice(0, REFUSED);
} else if (line.command.cmd === "report") {
const place = line.command.flight + "/" + line.command.milestone, by = reported.get(place);
if (!by || by.entry < line.entry) {
reported.set(place, { entry: line.entry, role: line.role, session: line.session, minute: line.minute });
}
}
}
function takeJournal(line) {
if (journal && line.journal !== journal || line.next > next) {
source.close();
reading?.abort();
tell("another journal, reading it anew", "lost");
setTimeout(connect, ANEW);
return;
}
journal = line.journal;
room = line.room;
}
function take(line) {
if (line.flights) {
if (journal && line.journal !== journal) anew = new Date(now()).toISOString().slice(0, 17) + "00Z";
journal = line.journal;
for (const it of [flights, facts, rows, partners, reported, onsets, earliest]) it.clear();
element("rows").replaceChildren();
refused = [];
ticked = first = "";
for (const flight of line.flights) {
put(flight);
onsets.set(flight.flight, new Map(flight.alerts.map((alert) => [alert, { minute: "", isSure: false }])));
}
next = known = line.next;
room = line.room;
readBack();
return;
}
if (line.entry === undefined) {
takeJournal(line);
return;
}
if (line.entry < next) return;
next = line.entry + 1;
learn(line);
for (const flight of line.changed) {
if (!facts.has(flight.flight)) facts.set(flight.flight, fact(flight));
takeAlerts(flight, line.minute);
put(flight);
}
}
function trailOf(lines) {
const trail = new Map();
for (const line of lines) {
for (const flight of line.changed) {
const before = trail.get(flight.flight), isFirst = !before && line.command.cmd !== "schedule";
const standing = flight.alerts.map((alert) => [
alert,
before?.standing.get(alert) || { minute: line.minute, isSure: !isFirst },
]);
trail.set(flight.flight, { first: before ? before.first : line.minute, standing: new Map(standing) });
}
}
return trail;
}
function takePart(lines) {
for (const line of lines) learn(line);
for (const [id, part] of trailOf(lines)) {
for (const [alert, onset] of onsets.get(id) || []) {
if (onset.isSure) continue;
const older = part.standing.get(alert);
onsets.get(id).set(alert, older || { minute: earliest.get(id) || "", isSure: earliest.has(id) });
}
earliest.set(id, part.first);
}
}
function isComplete() {
for (const [id, flight] of flights) {
if (hasDeparted(flight)) continue;
if (flight.reached.some((number) => number && !reported.has(id + "/" + number))) return false;
if ([...onsets.get(id)?.values() || []].some((onset) => !onset.isSure)) return false;
}
return true;
}
async function entriesBetween(first, end, signal) {
const answer = await fetch("/events", { headers: { "Last-Event-ID": String(first) }, signal });
const reader = answer.body.pipeThrough(new TextDecoderStream()).getReader(), lines = [];
for (let rest = ""; answer.ok;) {
const piece = await reader.read();
if (piece.done) return null;
const events = (rest + piece.value).split("\n\n");
rest = events.pop();
for (const event of events) {
const line = parsed(event.slice(event.indexOf("data: ") + 6));
if (line.flights) return null;
if (line.entry === undefined) {
if (line.journal !== journal) return null;
continue;
}
if (line.entry < end) lines.push(line);
if (line.entry >= end - 1) return lines;
}
}
return null;
}
async function readBack() {
reading?.abort();
const own = reading = new AbortController(), last = known;
for (let size = FIRST_BACK; known > 0 && last - known < MOST_BACK && !isComplete(); size *= 2) {
const part = new AbortController(), first = Math.max(0, known - size);
own.signal.addEventListener("abort", () => part.abort());
try {
const lines = await entriesBetween(first, known, part.signal);
if (own.signal.aborted || !lines) return;
takePart(lines);
} catch {
return;
} finally {
part.abort();
}
known = first;
isAll = true;
soon();
}
}
function shape(name, attributes, text) {
const node = document.createElementNS("http://www.w3.org/2000/svg", name);
for (const key in attributes) node.setAttribute(key, attributes[key]);
if (text !== undefined) node.textContent = text;
return node;
}
function marks(flight, times) {
const first = times[0][0], span = Math.max(times[times.length - 1][0] - first, 1), ends = { up: [], down: [] };
return times.map(([time, name]) => {
const x = 20 + 760 * (time - first) / span, side = TARGETS.includes(name) ? "down" : "up";
const label = name.toUpperCase() + " " + clock(flight[name]), lanes = ends[side];
const free = lanes.findIndex((end) => end <= x), lane = free < 0 ? lanes.length : free;
lanes[lane] = x + 7.2 * label.length + 10;
return { x, side, lane, label };
});
}
function dayLine(flight) {
const times = TIMES.filter((name) => flight[name]).map((name) => [Date.parse(flight[name]), name]);
const picture = shape("svg", { width: "100%", role: "img", "aria-label": "the times of the flight" });
if (!times.length) return picture;
const all = marks(flight, times.sort((one, other) => one[0] - other[0]));
const deepest = (side) => Math.max(0, ...all.filter((mark) => mark.side === side).map((mark) => mark.lane));
const line = 28 + 15 * deepest("up");
picture.setAttribute("viewBox", "0 0 900 " + (line + 34 + 15 * deepest("down")));
picture.append(shape("line", { x1: 20, x2: 780, y1: line, y2: line, class: "axis" }));
for (const { x, side, lane, label } of all) {
const isUp = side === "up", y = isUp ? line - 14 - 15 * lane : line + 20 + 15 * lane;
const diamond = "M" + x + " " + (line - 5) + "l5 5l-5 5l-5 -5z", kind = isUp ? "actual" : "target";
picture.append(
shape("path", { d: "M" + x + " " + line + "V" + y, class: "stem" }),
isUp ? shape("circle", { cx: x, cy: line, r: 4.5, class: kind }) : shape("path", { d: diamond, class: kind }),
shape("text", { x: x + 3, y: y + 3, class: kind }, label),
);
}
return picture;
}
function minuteOf(time) {
if (zone === "UTC") return time.slice(0, -4).replace("T", " ");
return days.format(Date.parse(time)) + " " + clock(time);
}
function reachedName(flight, number) {
if (!number) return "schedule";
const by = reported.get(flight.flight + "/" + number);
return number + " " + milestone(number).short + (by ? " (" + by.role + " " + clock(by.minute) + ")" : "");
}
const alertText = (flight, alert) =>
alert + " " + words(alert) + since(flight, alert) + ", turn of " + turn(alert).join(" or ");
function details(flight) {
const texts = (half) => ["type", "reg", "dest"].map((key) => flight[half + "_" + key]).join(" ");
return [
["call sign", flight.callsign],
["scheduled", texts("scheduled")],
["planned", texts("plan")],
["MTTT, EXIT, EXOT", [flight.mttt, flight.exit, flight.exot].join(", ") + " min"],
...TIMES.filter((name) => flight[name]).map((name) => [name.toUpperCase(), minuteOf(flight[name])]),
["milestones", flight.reached.map((number) => reachedName(flight, number)).join(", ")],
["alerts", flight.alerts.map((alert) => alertText(flight, alert)).join("; ") || "none"],
];
}
function fill(flight) {
element("name").textContent = flight.callsign + ", flight " + flight.flight;
element("detail").replaceChildren(...details(flight).map(([name, value]) => {
const line = tag("tr", undefined, "", "row");
line.append(tag("td", name, "", "rowheader"), tag("td", value, "", "cell"));
return line;
}));
element("day").replaceChildren(dayLine(flight));
}
function open(id) {
const flight = flights.get(id);
if (!flight) return;
opened = id;
fill(flight);
element("one").showModal();
}
function key(event) {
const line = event.target.closest("tr");
if (event.key === "Enter" || event.key === " ") {
open(line.dataset.flight);
event.preventDefault();
}
const beside = {
ArrowDown: line.nextSibling,
ArrowUp: line.previousSibling,
Home: element("rows").firstChild,
End: element("rows").lastChild,
}[event.key];
if (beside) {
beside.focus();
event.preventDefault();
}
}
function focusOn(event) {
const line = event.target.closest("tr"), before = rows.get(focused);
if (before) before.tabIndex = -1;
focused = line.dataset.flight;
line.tabIndex = 0;
}
function stroke(event) {
if (event.key !== "/" || event.target.closest("input, select, dialog")) return;
element("text").focus();
event.preventDefault();
}
function orderBy(name) {
isDown = name === order && !isDown;
order = name;
keep("order", [order, isDown]);
drawHeads();
isAll = true;
soon();
}
function drawHeads() {
const heads = COLUMNS.map(([name]) => {
const head = tag("th", undefined, "", "columnheader"), button = tag("button", name);
button.type = "button";
head.scope = "col";
if (name === order) head.setAttribute("aria-sort", isDown ? "descending" : "ascending");
head.append(button);
return head;
});
const focus = [...element("heads").querySelectorAll("button")].indexOf(document.activeElement);
element("heads").replaceChildren(...heads);
if (focus >= 0) element("heads").querySelectorAll("button")[focus].focus();
const options = [["", "TOBT, EOBT"], ...COLUMNS.map(([name]) => [name, name])].map(([value, text]) => {
const option = tag("option", text);
option.value = value;
option.selected = value === order;
return option;
});
element("by").replaceChildren(...options);
}
let days;
function setZone(name) {
try {
const words = { hour: "2-digit", minute: "2-digit", hourCycle: "h23", timeZone: name || "UTC" };
hours = new Intl.DateTimeFormat("en-GB", words);
days = new Intl.DateTimeFormat("en-CA", { timeZone: name || "UTC" });
zone = name || "UTC";
keep("zone", zone);
} catch {}
element("zone").value = zone === "UTC" ? "" : zone;
isAll = true;
soon();
}
async function nameAlerts(event) {
const text = await event.target.files[0].text();
const found = [...text.matchAll(/^(LOC\d\d)[ \t]+(\S.*)$/gm)].map((parts) => [parts[1], parts[2].trim()]);
local = Object.fromEntries(found);
keep("names", local);
isAll = true;
soon();
}
function tell(text, kind) {
element("state").textContent = text;
element("state").className = kind;
}
let source = null;
function connect() {
source = new EventSource("/events");
source.onopen = () => tell("live", "");
source.onerror = () => tell("connection lost, trying again", "lost");
source.onmessage = (event) => {
heard++;
take(parsed(event.data));
soon();
};
}
connect();
element("names").addEventListener("change", nameAlerts);
for (const id of ["text", "only", "show"]) element(id).addEventListener("input", soon);
element("controls").addEventListener("submit", (event) => event.preventDefault());
element("by").addEventListener("change", (event) => {
order = "";
orderBy(event.target.value);
});
element("zone").addEventListener("change", (event) => setZone(event.target.value.trim()));
element("sound").addEventListener("change", (event) => event.target.checked && beep());
element("notify").addEventListener("change", async (event) => {
if (event.target.checked && await Notification.requestPermission() !== "granted") event.target.checked = false;
});
element("heads").addEventListener("click", (event) => {
const head = event.target.closest("button");
if (head) orderBy(head.textContent);
});
element("alerting").addEventListener("toggle", soon);
element("alerts").addEventListener("click", (event) => {
const button = event.target.closest("button");
if (button) open(button.dataset.flight);
});
element("one").addEventListener("close", () => {
rows.get(opened)?.focus();
opened = "";
});
element("rows").addEventListener("click", (event) => open(event.target.closest("tr").dataset.flight));
element("rows").addEventListener("keydown", key);
element("rows").addEventListener("focusin", focusOn);
document.addEventListener("keydown", stroke);
new IntersectionObserver((seen) => {
if (!seen.some((entry) => entry.isIntersecting)) return;
most += STEP;
soon();
}, { rootMargin: "400px" }).observe(element("more"));
setInterval(() => {
for (const id of rows.keys()) stale.add(id);
soon();
}, MINUTE);
setInterval(draw, 1000);
setInterval(askTime, 30000);
askTime();
[order, isDown] = kept("order", ["", false]);
element("notify").parentNode.hidden = !("Notification" in window);
const legend = Object.entries(WORDS.roles).flatMap(([role, name]) => [tag("i", role, role), name + " "]);
element("legend").replaceChildren("Colours of milestones, by who reported: ", ...legend);
element("zones").replaceChildren(...[Intl.DateTimeFormat().resolvedOptions().timeZone, "UTC"].map((name) => {
const option = tag("option");
option.value = name;
return option;
}));
const openOptions = () => element("options").open ||= innerWidth > 760;
addEventListener("resize", openOptions);
openOptions();
element("unproved").hidden = location.hash !== "#unproved";
drawHeads();
setZone(kept("zone", "UTC"));
</script>
</body>
</html>
"##;
