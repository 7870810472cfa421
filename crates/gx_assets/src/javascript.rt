//! The page's script, in JavaScript.

/// The script at `/page.js`: asks for the day's state each second and shows it, and asks for a kill.
pub fn script() -> &'static [u8] {
    br##"'use strict';

// The day's state is asked for each second, and shown. What has not changed is left as it is: who has marked a text or stands
// on a button stays there.

const POLL_MILLIS = 1000; // how often the state is asked for
const STALE_AFTER_MILLIS = 3000; // without an answer for so long, what is shown is old
const ANSWER_WAIT_MILLIS = 20000; // so long an answer is waited for: a browser may have to ask for the password meanwhile
const WARNING = 75n; // percent of a limit
const NEAR = 90n;
const DASH = '\u2013';

// Not from the page's own address: a name and a password may stand in it, and then a browser asks for nothing.
const STATE = location.origin + '/state.json';
const KILL = location.origin + '/kill';

const byId = (name) => document.getElementById(name);
const grouped = new Intl.NumberFormat('en-US');

let state = null; // the last state that came
let counted = null; // its counters, with the moment at which they came
let heardAt = Date.now(); // when the gate answered last
let trouble = ''; // what it answered in place of a state
let hasToLogIn = false;
let isOld = false; // whether what is shown is
let isAsking = false;
let isAskedAgain = false;
const killing = new Set(); // accounts whose kill is on its way
let asked = ''; // the account that the open question is about
const shown = new WeakMap(); // the rows of each table, by their keys

// Texts.

function say(element, text) {
  if (element.textContent !== text) element.textContent = text;
}

function show(element, isShown) {
  if (element.hidden === isShown) element.hidden = !isShown;
}

function mark(element, className) {
  if (element.className !== className) element.className = className;
}

// What a JSON text says. Numbers of sixteen digits and more come as texts of them: a number can't hold each exactly.
function read(json) {
  const kept = (part) => (part.startsWith('"') ? part : '"' + part + '"');
  return JSON.parse(json.replace(/"(?:[^"\\]|\\.)*"|-?\d{16,}/g, kept));
}

// Figures are whole numbers of any size, or texts of such, and none is ever rounded.
function number(value) {
  return value === null || value === undefined ? DASH : grouped.format(BigInt(value));
}

// A figure of which so many digits stand behind the point: those in front of it, in groups, and those behind.
function parted(value, places) {
  const one = 10n ** BigInt(places);
  return [grouped.format(BigInt(value) / one), String(BigInt(value) % one).padStart(places, '0')];
}

// Ten-thousandths of a dollar: to the cent, or where cents don't tell it all to the last digit.
function dollars(value) {
  const [whole, digits] = parted(value, 4);
  return '$' + whole + '.' + digits.replace(/00$/, '');
}

// Ten-thousandths of a price, in percent.
function percents(value) {
  const [whole, digits] = parted(value, 2);
  return whole + ('.' + digits).replace(/\.?0+$/, '') + ' %';
}

// A figure of a limit, in its unit.
function amount(value, unit) {
  if (unit === 'dollars/10000') return dollars(value);
  return unit === 'price/10000' ? percents(value) : number(value);
}

// A moment without its fractions, or with three digits of them.
const inSeconds = (moment) => moment.slice(0, 8);
const inThousandths = (moment) => moment.slice(0, 12);

// So much of a limit in percent. It is cut and not rounded: 100 % means all of it.
function percent(used, limit) {
  return parted((used * 1000n) / limit, 1).join('.') + ' %';
}

function aSecond(change, seconds) {
  const rate = change / seconds;
  return rate >= 10 || rate === 0 ? grouped.format(Math.round(rate)) : rate.toFixed(1);
}

// Tables.

function made(tag, className, text) {
  const element = document.createElement(tag);
  if (className) element.className = className;
  if (text) element.textContent = text;
  return element;
}

// An empty row: a heading and then cells, of these classes.
function emptyRow(classes) {
  const row = made('tr');
  const cells = classes.map((className, place) => {
    const cell = made(place === 0 ? 'th' : 'td', className);
    if (place === 0) cell.scope = 'row';
    row.append(cell);
    return cell;
  });
  return { row, cells };
}

// Shows a row for each entry, in their order. A row stays the same element for as long as there is an entry with its key.
function showRows(name, entries, keyOf, begin, fill) {
  const body = byId(name);
  const before = shown.get(body) || new Map();
  const after = new Map();
  for (const entry of entries) {
    const key = keyOf(entry);
    const view = before.get(key) || begin(entry);
    fill(view, entry);
    after.set(key, view);
  }
  for (const [key, view] of before) {
    if (!after.has(key)) view.row.remove();
  }
  let place = body.firstElementChild;
  for (const view of after.values()) {
    if (view.row === place) place = place.nextElementSibling;
    else body.insertBefore(view.row, place);
  }
  shown.set(body, after);
  const none = byId(name + '-none');
  if (none) show(none, after.size === 0);
}

function showTexts(name, entries, keyOf, classes, textsOf) {
  const fill = (view, entry) => textsOf(entry).forEach((text, place) => say(view.cells[place], text));
  showRows(name, entries, keyOf, () => emptyRow(classes), fill);
}

// Accounts.

const givenBy = (command) => inSeconds(command.at) + ' by ' + command.officer + ', record ' + number(command.record);

// A lift ends what was told of the kill: the last one stands among the last commands.
function lastLift(account) {
  if (account.killed) return account.lift;
  const lifts = (row) => row.asked === 'lift' && row.about === account.account && row.denied_by === null;
  const found = state.commands.filter(lifts).pop();
  return found ? { officer: found.user, at: found.at, record: found.record } : null;
}

function aboutAccount(account) {
  const parts = [];
  const lift = lastLift(account);
  if (account.killed && account.kill) parts.push('since ' + givenBy(account.kill));
  if (lift) parts.push((account.killed ? 'partly lifted at ' : 'lifted last at ') + givenBy(lift));
  return parts.join('; ');
}

function beginAccount(account) {
  const view = emptyRow(['', '', 'number', '']);
  view.state = made('span', 'state');
  view.about = made('span', 'about');
  view.button = made('button', 'kill');
  view.button.type = 'button';
  view.button.append('Kill', made('span', 'unseen', ' ' + account.account));
  view.button.addEventListener('click', () => question(account.account));
  view.cells[0].tabIndex = -1;
  view.cells[1].append(view.state, view.about);
  view.cells[3].append(view.button);
  return view;
}

function fillAccount(view, account) {
  const mayKill = state.may_kill && !account.killed;
  mark(view.row, account.killed ? 'is-killed' : '');
  say(view.cells[0], account.account);
  say(view.state, account.killed ? 'KILLED' : 'live');
  say(view.about, aboutAccount(account));
  say(view.cells[2], number(account.live));
  if (!mayKill && asked === account.account) byId('question').close();
  if (!mayKill && document.activeElement === view.button) view.cells[0].focus();
  show(view.button, mayKill);
}

// Limits.

// What is used of each limit, by each account, and of a net limit in each stock and on each side.
function uses() {
  const limits = new Map(state.limits.map((row) => [row.rule, row]));
  const rows = state.gross.map((row) => {
    return { rule: row.rule, account: row.account, of: 'all', used: row.used, ...limitOf(limits, row.rule) };
  });
  for (const row of state.net) {
    for (const side of ['buys', 'sells']) {
      const of = row.stock + ' ' + side;
      rows.push({ rule: row.rule, account: row.account, of, used: row[side], ...limitOf(limits, row.rule) });
    }
  }
  return rows.filter((use) => use.used !== null && use.limit !== null).map(withShare);
}

function limitOf(limits, rule) {
  const { limit = null, unit = null } = limits.get(rule) ?? {};
  return { limit, unit };
}

// A net figure below 0 uses nothing. The share is for bars, and for what is nearest; texts and levels are exact.
function withShare(use) {
  const used = BigInt(use.used) > 0n ? BigInt(use.used) : 0n;
  const limit = BigInt(use.limit);
  const share = limit > 0n ? Number(used) / Number(limit) : used > 0n ? Infinity : 1;
  const text = limit > 0n ? percent(used, limit) : used > 0n ? 'all' : percent(1n, 1n);
  return { ...use, share, text, level: level(used, limit) };
}

function level(used, limit) {
  if (used > limit) return { name: 'past', words: 'past the limit', sign: '\u25b2\u25b2\u25b2' };
  if (used === limit) return { name: 'near', words: 'at the limit', sign: '\u25b2\u25b2' };
  if (used * 100n >= limit * NEAR) return { name: 'near', words: 'near the limit', sign: '\u25b2\u25b2' };
  if (used * 100n >= limit * WARNING) return { name: 'warning', words: 'warning', sign: '\u25b2' };
  return { name: '', words: '', sign: '' };
}

const figures = (use) => amount(use.used, use.unit) + ' of ' + amount(use.limit, use.unit);

function beginUse() {
  const view = emptyRow(['', '', '', '']);
  view.bar = made('div', 'bar');
  view.bar.setAttribute('role', 'meter');
  view.bar.setAttribute('aria-valuemin', '0');
  view.bar.setAttribute('aria-valuemax', '100');
  view.fill = made('div', 'fill');
  view.bar.append(view.fill);
  view.share = made('span', 'share');
  view.exact = made('span', 'soft');
  view.word = made('span', 'word');
  const told = made('div', 'figures');
  told.append(view.share, ' ', view.exact, ' ', view.word);
  const use = made('div', 'use');
  use.append(view.bar, told);
  view.cells[3].append(use);
  return view;
}

function fillUse(view, use) {
  const width = Math.min(100, use.share * 100);
  const text = use.text + (use.level.words && ', ' + use.level.words);
  mark(view.row, use.level.name);
  say(view.cells[0], use.rule);
  say(view.cells[1], use.account);
  say(view.cells[2], use.of);
  say(view.share, use.text);
  say(view.exact, figures(use));
  say(view.word, use.level.words && use.level.sign + ' ' + use.level.words);
  if (view.text !== text) {
    view.text = text;
    view.bar.setAttribute('aria-label', [use.rule, use.account, use.of].join(' '));
    view.bar.setAttribute('aria-valuenow', width.toFixed(1));
    view.bar.setAttribute('aria-valuetext', text);
  }
  const css = width.toFixed(2) + '%';
  if (view.css !== css) {
    view.css = css;
    view.fill.style.width = css;
  }
}

function showLimits() {
  const rows = uses();
  showRows('limits', rows, (use) => [use.rule, use.account, use.of].join(' '), beginUse, fillUse);
  const nearest = rows.reduce((most, use) => (most && most.share >= use.share ? most : use), null);
  const words = nearest && [nearest.level.sign, nearest.text, nearest.rule, nearest.account];
  if (words && nearest.of !== 'all') words.push(nearest.of);
  say(byId('nearest'), words ? words.filter(Boolean).join(' ') : 'nothing used');
  const changed = state.limits.filter((row) => row.limit !== null && row.limit !== row.file);
  show(byId('changed-section'), changed.length > 0);
  const textsOf = (row) => [row.rule, amount(row.limit, row.unit), row.file === null ? DASH : amount(row.file, row.unit)];
  showTexts('changed', changed, (row) => row.rule, ['', 'number', 'number'], textsOf);
}

// The day.

function showRates(now) {
  const before = counted;
  const seconds = before ? (now - before.now) / 1000 : 0;
  const isSameDay = before && state.record >= before.record;
  // a state that was asked for at once, behind a kill, is too near to the one before
  if (isSameDay && seconds < 0.5) return;
  counted = { record: state.record, granted: state.granted, denied: state.denied, fills: state.fills, now };
  for (const [name, id] of [['record', 'records-rate'], ['granted', 'granted-rate'], ['denied', 'denied-rate'], ['fills', 'fills-rate']]) {
    const change = isSameDay ? counted[name] - before[name] : -1;
    say(byId(id), change >= 0 ? aSecond(change, seconds) : DASH);
  }
}

const JOURNALS = { none: 'none', kept: 'kept', failed: 'FAILED' };

function fact(id, text, isBad) {
  say(byId(id), text);
  mark(byId(id), isBad ? 'is-bad' : '');
}

function showDay() {
  say(byId('user'), state.user);
  say(byId('record'), number(state.record));
  say(byId('at'), inThousandths(state.at));
  say(byId('live'), number(state.accounts.reduce((sum, account) => sum + account.live, 0)));
  fact('day', state.closed ? 'CLOSED' : 'open', state.closed);
  fact('journal', JOURNALS[state.journal] || String(state.journal), state.journal === 'failed');
  fact('connections', number(state.connections), false);
  fact('lines-left', number(state.lines_left), state.lines_left < 100);
  fact('records-left', number(state.left), state.left < 1000);
  fact('granted', number(state.granted), false);
  fact('denied', number(state.denied), false);
  fact('fills', number(state.fills), false);
}

function showRecords(name, records) {
  const classes = ['', 'number record', '', '', '', ''];
  const textsOf = (row) => [
    inSeconds(row.at), number(row.record), row.user ?? DASH, row.asked ?? DASH, row.about || DASH, row.denied_by ?? 'granted',
  ];
  showTexts(name, records.slice().reverse(), (row) => row.record, classes, textsOf);
}

function showAll(now) {
  showDay();
  showRates(now);
  showRows('accounts', state.accounts, (row) => row.account, beginAccount, fillAccount);
  showLimits();
  showRecords('commands', state.commands);
  showRecords('denials', state.denials);
  const denied = state.rules.filter((row) => row.count > 0);
  showTexts('rules', denied, (row) => row.rule, ['', 'number'], (row) => [row.rule, number(row.count)]);
  const lineOf = (row) => [row.user, row.line === null ? 'none' : number(row.line)];
  showTexts('users', state.users, (row) => row.user, ['', 'number'], lineOf);
}

// Whether it is old.

const clock = (moment) => new Date(moment).toISOString().slice(11, 19);

function showTrouble() {
  let text = trouble;
  if (Date.now() - heardAt >= STALE_AFTER_MILLIS) {
    text = 'No answer from the gate since ' + clock(heardAt) + ': what you see is old';
  }
  if (hasToLogIn) text = 'The gate asks for your name and password: you have to log in again. What you see is old.';
  say(byId('trouble'), text);
  show(byId('again'), hasToLogIn);
  isOld = text !== '';
  show(byId('banner'), isOld);
  show(byId('old'), isOld);
  document.body.classList.toggle('is-old', isOld);
  showButtons();
}

// What was answered in place of a state.
async function textOf(answer) {
  const text = (await answer.text()).trim();
  return text || 'the gate answered with status ' + answer.status;
}

async function take(answer) {
  hasToLogIn = answer.status === 401;
  if (!answer.ok) {
    trouble = await textOf(answer);
    heardAt = Date.now();
    return;
  }
  state = read(await answer.text());
  heardAt = Date.now();
  showAll(performance.now());
  trouble = '';
}

async function refresh() {
  // a browser asks for the password at each answer of this kind
  if (hasToLogIn) return;
  if (isAsking) {
    isAskedAgain = true;
    return;
  }
  isAsking = true;
  // without an answer the banner tells it after a while
  const none = () => null;
  const answer = await fetch(STATE, { cache: 'no-store', signal: AbortSignal.timeout(ANSWER_WAIT_MILLIS) }).catch(none);
  try {
    if (answer) await take(answer);
  } catch (error) {
    trouble = 'The answer of the gate is no state: what you see is old';
  }
  isAsking = false;
  showTrouble();
  if (isAskedAgain) {
    isAskedAgain = false;
    refresh();
  }
}

// Kills.

const OLD = 'What you see is old: kill by gate desk, or here once the gate answers again';
const ELSEWHERE = 'You are logged in elsewhere: kill from there, or log out there';

// A kill logs the user in, which is denied while he is: by a connection of the trading port, since the page never leaves him on.
function isLoggedIn() {
  return state !== null && state.users.some((row) => row.user === state.user && row.line !== null);
}

// Why no kill may be asked for now; empty where one may.
function hindrance() {
  if (isOld) return OLD;
  return isLoggedIn() ? ELSEWHERE : '';
}

// A button that is disabled keeps the focus, and says why.
function showButton(button, isAsked) {
  const why = hindrance();
  const isDisabled = String(isAsked || why !== '');
  if (button.getAttribute('aria-disabled') !== isDisabled) button.setAttribute('aria-disabled', isDisabled);
  if (button.title !== why) button.title = why;
}

function showButtons() {
  for (const [account, view] of shown.get(byId('accounts')) || []) showButton(view.button, killing.has(account));
  showButton(byId('kill'), false);
  say(byId('question-why'), hindrance());
  const isElsewhere = state !== null && state.may_kill && isLoggedIn();
  say(byId('elsewhere'), isElsewhere ? ELSEWHERE : '');
  show(byId('elsewhere'), isElsewhere);
}

function question(account) {
  if (killing.has(account)) return;
  const why = hindrance();
  if (why) {
    tell('Kill ' + account + ': not asked for. ' + why, true);
    return;
  }
  asked = account;
  say(byId('question-title'), 'Kill ' + account + '?');
  say(byId('kill'), 'Kill ' + account);
  byId('question').showModal();
  byId('keep').focus();
}

function tell(text, isRefused) {
  const answer = byId('answer');
  mark(answer, isRefused ? 'refused' : '');
  show(answer, true);
  say(answer, clock(Date.now()) + ' ' + text);
}

async function kill(account) {
  killing.add(account);
  showButtons();
  tell('Kill ' + account + ': asked for', false);
  try {
    const answer = await fetch(KILL, {
      method: 'POST',
      redirect: 'manual',
      cache: 'no-store',
      headers: { 'Content-Type': 'application/x-www-form-urlencoded' },
      body: 'account=' + encodeURIComponent(account) + '&token=' + encodeURIComponent(state.token),
      signal: AbortSignal.timeout(ANSWER_WAIT_MILLIS),
    });
    // it is sent on to the page where the kill was granted
    if (answer.type === 'opaqueredirect') tell('Kill ' + account + ': granted', false);
    else tell('Kill ' + account + ': not confirmed. ' + (await textOf(answer)), true);
  } catch (error) {
    tell('Kill ' + account + ': no answer. See in its state whether it was killed.', true);
  }
  killing.delete(account);
  await refresh();
}

byId('keep').addEventListener('click', () => byId('question').close());
byId('kill').addEventListener('click', () => {
  if (hindrance()) return;
  const account = asked;
  byId('question').close();
  kill(account);
});
byId('question').addEventListener('close', () => {
  asked = '';
});
byId('again').href = location.origin + '/';

document.addEventListener('visibilitychange', () => {
  if (!document.hidden) refresh();
});
setInterval(refresh, POLL_MILLIS);
setInterval(showTrouble, POLL_MILLIS / 2);
refresh();
"##
}
