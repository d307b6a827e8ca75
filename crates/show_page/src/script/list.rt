//! The list, and the beginning of each page.

pub(super) const LIST: &str = r#"
  const by = id => document.getElementById(id);
  const all = what => [...document.querySelectorAll(what)];

  // The entries of the list, each behind its kind.
  const list = JSON.parse(by('list').textContent);
  const listed = kind => list.filter(([first]) => first === kind).map(([, ...entry]) => entry);

  // A text within HTML.
  const safe = text => text.replace(/[&<>"]/g, c => `&#${c.charCodeAt(0)};`);

  // The title of a page of a kind, and how the run ended, in red where it failed.
  function entitle(kind, title, end, fails) {
    document.body.className = kind;
    document.title = title;
    document.querySelector('h1').textContent = title;
    document.querySelector('pre').textContent = end;
    if (fails) document.querySelector('pre').className = 'fail';
  }
"#;
