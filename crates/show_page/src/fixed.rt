//! The parts that every page has, whatever its list.

/// The beginning of a page, up to its style.
pub(crate) const HEAD: &str = r#"<!DOCTYPE html>
<html lang="en">
<head>
<meta charset="utf-8">
<meta name="viewport" content="width=device-width">
<title>clap_debug_show</title>
<style>"#;

/// What lies between the style and the list.
pub(crate) const LIST: &str = r#"</style>
</head>
<body>
<noscript><p>This page is made by a script of its own: allow JavaScript to see it.</p></noscript>
<h1></h1>
<pre></pre>
<script type="application/json" id="list">[
"#;

/// The end of the list, whose last entry is none.
pub(crate) const END_OF_LIST: &str = "[]]</script>\n";

/// What lies before the script.
pub(crate) const BEGIN_SCRIPT: &str = "<script>\n(() => {\n  'use strict';\n";

/// The end of a page, behind its script.
pub(crate) const END_SCRIPT: &str = "})();\n</script>\n</body>\n</html>\n";

/// The body of a log's page.
pub(crate) const WAYS: &str = "<div class=\"lanes\"></div>\n";

/// The body of a schedule's page: the buttons for the moves; the program, the lanes and the state
/// side by side; and the list of keys.
pub(crate) const MOVES: &str = r#"<div class="tools">
<label>show <select id="filter"><option value="">all moves</option></select></label>
<button type="button" id="each" aria-pressed="false">each step <kbd>m</kbd></button>
<button type="button" id="orders" aria-pressed="false">order <kbd>h</kbd></button>
<button type="button" id="text" aria-pressed="false">program <kbd>p</kbd></button>
<button type="button" id="help">keys <kbd>?</kbd></button>
<p>Point at a move, click to pin it, or step by <kbd>j</kbd> and <kbd>k</kbd>.</p>
</div>
<main>
<section id="program" aria-label="program" tabindex="0" hidden>
<ol></ol>
</section>
<div id="run" role="region" aria-label="moves" tabindex="0">
<div id="sheet">
<div class="row head"><div class="n"></div></div>
<ol id="moves"></ol>
<svg id="arrows" aria-hidden="true"></svg>
</div>
</div>
<aside aria-label="state">
<div>
<p id="at"></p>
<p id="said" role="status" aria-live="polite"></p>
<div id="why"></div>
</div>
<div class="held">
<h2>memory</h2>
<table id="memory"></table>
<h2>buffers</h2>
<div id="buffers"></div>
<h2>mutexes</h2>
<table id="mutexes"></table>
<h2>conditions</h2>
<table id="conditions"></table>
</div>
<div>
<h2>threads</h2>
<table id="threads"></table>
<h2>arrows</h2>
<div class="key">
<span><svg viewBox="0 0 35 11"><path class="take" d="M1 5H34M29 1L34 5L29 9"/></svg>value that is taken</span>
<span><svg viewBox="0 0 35 11"><path class="drain" d="M1 5H34M29 1L34 5L29 9"/></svg>store that reaches memory</span>
<span class="orders"><svg viewBox="0 0 35 11"><path class="order" d="M1 5H34M29 1L34 5L29 9"/></svg>happens before</span>
</div>
</div>
</aside>
</main>
<dialog id="keys" aria-labelledby="keys-title">
<h2 id="keys-title">keys</h2>
<table>
<tr><th><kbd>j</kbd> <kbd>&darr;</kbd></th><td>next move</td></tr>
<tr><th><kbd>k</kbd> <kbd>&uarr;</kbd></th><td>move before</td></tr>
<tr><th><kbd>Home</kbd> <kbd>End</kbd></th><td>first and last move</td></tr>
<tr><th><kbd>PgDn</kbd> <kbd>PgUp</kbd></th><td>ten moves on and back</td></tr>
<tr><th><kbd>e</kbd> <kbd>E</kbd></th><td>next event, and the one before</td></tr>
<tr><th><kbd>s</kbd> <kbd>S</kbd></th><td>next switch of thread, and the one before</td></tr>
<tr><th><kbd>c</kbd> <kbd>C</kbd></th><td>next access of this cell, and the one before</td></tr>
<tr><th><kbd>l</kbd> <kbd>L</kbd></th><td>next move at this line, and the one before</td></tr>
<tr><th><kbd>f</kbd></th><td>where the run fails or ends</td></tr>
<tr><th><kbd>/</kbd></th><td>show one thread or cell alone</td></tr>
<tr><th><kbd>Esc</kbd></th><td>show all moves</td></tr>
<tr><th><kbd>m</kbd></th><td>show each step, or fold silent ones</td></tr>
<tr><th><kbd>h</kbd></th><td>show what happens before what</td></tr>
<tr><th><kbd>p</kbd></th><td>show the program</td></tr>
<tr><th><kbd>?</kbd></th><td>this list</td></tr>
</table>
<form method="dialog"><button>close</button></form>
</dialog>
"#;
