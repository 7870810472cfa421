//! The page, in HTML.

/// The page at `/`, without any figure: its script asks for those.
pub fn page() -> &'static [u8] {
    br##"<!doctype html>
<html lang="en">
<head>
<meta charset="utf-8">
<meta name="viewport" content="width=device-width, initial-scale=1">
<meta name="color-scheme" content="light dark">
<title>Boskurige</title>
<link rel="icon" href="data:,">
<link rel="stylesheet" href="/page.css">
<script src="/page.js" defer></script>
</head>
<body>

<a class="skip" href="#main">To the accounts</a>

<header>
<div class="top">
<h1>Boskurige</h1>
<p><span class="soft">You are</span> <b id="user">&ndash;</b></p>
<p><span class="soft">Last record</span> <b id="record">&ndash;</b> <span class="soft">at</span> <b id="at">&ndash;</b></p>
<p id="old" hidden>OLD</p>
</div>
<p id="banner" role="alert" hidden><span id="trouble"></span> <a id="again" href="/" hidden>Log in again</a></p>
<p id="answer" role="status" hidden></p>
</header>

<noscript><p class="notice">This page shows nothing without its script.</p></noscript>

<main id="main" tabindex="-1">

<section class="wide" aria-labelledby="now">
<h2 id="now" class="unseen">Now</h2>
<dl class="tiles">
<div><dt>Live orders</dt><dd id="live">&ndash;</dd></div>
<div><dt>Records a second</dt><dd id="records-rate">&ndash;</dd></div>
<div><dt>Grants a second</dt><dd id="granted-rate">&ndash;</dd></div>
<div><dt>Denials a second</dt><dd id="denied-rate">&ndash;</dd></div>
<div><dt>Fills a second</dt><dd id="fills-rate">&ndash;</dd></div>
<div class="long"><dt>Nearest to its limit</dt><dd id="nearest">&ndash;</dd></div>
</dl>
</section>

<div class="column">

<section aria-labelledby="accounts-title">
<h2 id="accounts-title">Accounts</h2>
<p id="elsewhere" role="status" hidden></p>
<table>
<caption class="unseen">Accounts, their state and their live orders</caption>
<thead><tr>
<th scope="col">Account</th><th scope="col">State</th><th scope="col" class="number">Live orders</th>
<th scope="col"><span class="unseen">What may be done</span></th>
</tr></thead>
<tbody id="accounts"></tbody>
</table>
<p id="accounts-none" class="none" hidden>No account is yours to see.</p>
</section>

<section aria-labelledby="limits-title">
<h2 id="limits-title">Used of limits</h2>
<table class="limits">
<caption class="unseen">What each account has used of the limit of each gross and net rule</caption>
<thead><tr>
<th scope="col">Rule</th><th scope="col">Account</th><th scope="col">Stock</th><th scope="col">Used</th>
</tr></thead>
<tbody id="limits"></tbody>
</table>
<p id="limits-none" class="none" hidden>Nothing is used of a gross or a net limit.</p>
</section>

<section id="changed-section" aria-labelledby="changed-title" hidden>
<h2 id="changed-title">Limits that officers have set</h2>
<table>
<caption class="unseen">Limits in force that are not those of the policy's file</caption>
<thead><tr>
<th scope="col">Rule</th><th scope="col" class="number">In force</th><th scope="col" class="number">In the file</th>
</tr></thead>
<tbody id="changed"></tbody>
</table>
</section>

</div>

<div class="column">

<section aria-labelledby="day-title">
<h2 id="day-title">The day and the gate</h2>
<dl class="facts">
<div><dt>Day</dt><dd id="day">&ndash;</dd></div>
<div><dt>Journal</dt><dd id="journal">&ndash;</dd></div>
<div><dt>Connections open</dt><dd id="connections">&ndash;</dd></div>
<div><dt>Lines left</dt><dd id="lines-left">&ndash;</dd></div>
<div><dt>Records left</dt><dd id="records-left">&ndash;</dd></div>
<div><dt>Granted</dt><dd id="granted">&ndash;</dd></div>
<div><dt>Denied</dt><dd id="denied">&ndash;</dd></div>
<div><dt>Fills</dt><dd id="fills">&ndash;</dd></div>
</dl>
</section>

<section aria-labelledby="commands-title">
<h2 id="commands-title">Last commands</h2>
<div class="scrolled" tabindex="0" role="region" aria-labelledby="commands-title">
<table>
<caption class="unseen">The last commands of officers, newest first</caption>
<thead><tr>
<th scope="col">At</th><th scope="col" class="number record">Record</th><th scope="col">User</th>
<th scope="col">Command</th><th scope="col">About</th><th scope="col">Answer</th>
</tr></thead>
<tbody id="commands"></tbody>
</table>
<p id="commands-none" class="none" hidden>None yet.</p>
</div>
</section>

<section aria-labelledby="denials-title">
<h2 id="denials-title">Last denials</h2>
<div class="scrolled" tabindex="0" role="region" aria-labelledby="denials-title">
<table>
<caption class="unseen">The last requests that were denied, newest first</caption>
<thead><tr>
<th scope="col">At</th><th scope="col" class="number record">Record</th><th scope="col">User</th>
<th scope="col">Asked</th><th scope="col">About</th><th scope="col">Denied by</th>
</tr></thead>
<tbody id="denials"></tbody>
</table>
<p id="denials-none" class="none" hidden>None yet.</p>
</div>
</section>

<div class="pair">
<section aria-labelledby="rules-title">
<h2 id="rules-title">Denials by rule</h2>
<table>
<caption class="unseen">How many requests each rule has denied</caption>
<thead><tr><th scope="col">Rule</th><th scope="col" class="number">Denials</th></tr></thead>
<tbody id="rules"></tbody>
</table>
<p id="rules-none" class="none" hidden>None yet.</p>
</section>

<section aria-labelledby="users-title">
<h2 id="users-title">Users</h2>
<table>
<caption class="unseen">Users, and the line on which each is logged in</caption>
<thead><tr><th scope="col">User</th><th scope="col" class="number">Line</th></tr></thead>
<tbody id="users"></tbody>
</table>
</section>
</div>

</div>

</main>

<dialog id="question" aria-labelledby="question-title" aria-describedby="question-text">
<h2 id="question-title"></h2>
<p id="question-text">All its live orders end, and it can enter none until it is lifted.</p>
<p id="question-why" role="status"></p>
<div class="choices">
<button type="button" id="keep" autofocus>Keep it</button>
<button type="button" id="kill" class="kill"></button>
</div>
</dialog>

</body>
</html>
"##
}
