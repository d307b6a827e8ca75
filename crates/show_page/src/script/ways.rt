//! The page of a log.

pub(super) const WAYS: &str = r#"
  const [[name, model, end]] = listed('log');
  entitle('ways', `${name}: a log recorded under ${model}`, end, true);

  // Each thread with its lines, and the outcome of a branch there.
  const walks = [];
  for (const [kind, first, source, outcome] of list) {
    if (kind === 'walk') walks.push({ title: first, lines: [] });
    if (kind === 'went') walks.at(-1).lines.push({ line: first, source, outcome });
  }
  const went = outcome => outcome && `<span class="went">${outcome}</span>`;
  const step = ({ line, source, outcome }) => `<li class="deed"><span class="line">${line}</span><code>${safe(source)}</code>${went(outcome)}</li>\n`;
  document.querySelector('.lanes').innerHTML = walks.map(({ title, lines }) =>
    `<section>\n<h2>${safe(title)}</h2>\n<ol>\n${lines.map(step).join('')}</ol>\n</section>\n`).join('');
"#;
