//! The elements of the page.

pub(super) const PAGE: &str = r#"
  const run = by('run'), sheet = by('sheet'), svg = by('arrows'), filter = by('filter'), keys = by('keys');
  const source = listed('line');
  {
    const [[name, model, fails, end]] = listed('run'), switches = moves.filter(move => move.switches).length;
    const numbers = `${moves.length} ${moves.length === 1 ? 'move' : 'moves'}, ${switches} ${switches === 1 ? 'switch' : 'switches'}`;
    entitle('moves', `${name} under ${model}: ${numbers}`, end, fails);
    document.querySelector('#program ol').innerHTML = source.map(([text]) => `<li><code>${safe(text)}</code></li>\n`).join('');
    sheet.setAttribute('style', `--lanes:${lanes.length}`);
    document.querySelector('.head').insertAdjacentHTML('beforeend', lanes.map((lane, k) => `<div data-lane="${k}">${safe(lane)}</div>`).join(''));
    by('moves').innerHTML = moves.map(row).join('');
  }
  function row({ number, thread, lane, line, words, brief, fails }) {
    return `<li class="row${fails ? ' fail' : ''}" id="m${number}"><div class="n">${number}</div><div class="deed" style="grid-column:${lane + 2}">`
      + `<span class="who">${safe(thread)}, </span><span class="line">${line}</span><code>${safe(source[line - 1]?.[1] ?? '?')}</code>`
      + `<span class="each">${safe(words)}</span><span class="brief">${safe(brief ?? '')}</span></div></li>\n`;
  }
  // A table with a row for each name, and room for its state.
  function table(id, names) {
    by(id).innerHTML = names.map(([name]) => `<tr><th scope="row">${safe(name)}</th><td></td></tr>\n`).join('');
    return [...by(id).rows].map((row, k) => ({ row, name: names[k][0], value: row.cells[1], start: names[k][1] }));
  }
  const cells = table('memory', listed('cell')), mutexes = table('mutexes', listed('mutex')), conditions = table('conditions', listed('condition'));
  const threads = table('threads', lanes.map(lane => [lane]));
  for (const id of ['mutexes', 'conditions']) {
    if (by(id).rows.length) continue;
    by(id).previousElementSibling.remove();
    by(id).remove();
  }

  const rows = all('#moves > .row'), deeds = all('#moves .deed'), heads = all('.head > [data-lane]'), lines = all('#program li');
  const last = rows.length;
  let at = last;     // the move that is selected, from 1, and 0 before the first
  let shown = last;  // the move whose state is shown: the selected one, or the one that is pointed at
"#;
