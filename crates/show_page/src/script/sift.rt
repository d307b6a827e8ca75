//! The filter of moves.

pub(super) const SIFT: &str = r#"
  // Shows the moves of one thread or of one cell alone, or all; and of them each, or those alone that are statements or events.
  function offer(label, names, kind) {
    const group = document.createElement('optgroup');
    group.label = label;
    names.forEach((name, k) => {
      if (moves.some(move => move[kind] === k)) group.append(new Option(name, `${kind} ${k}`));
    });
    if (group.childElementCount) filter.append(group);
  }
  const isOn = id => by(id).getAttribute('aria-pressed') === 'true';
  const press = (id, on) => by(id).setAttribute('aria-pressed', on);
  function sieve() {
    const [kind, number] = filter.value.split(' '), folds = !isOn('each');
    sheet.classList.toggle('each', !folds);
    rows.forEach((row, i) => { row.hidden = kind !== '' && moves[i][kind] !== +number || folds && moves[i].folds; });
    draw();
  }
  function sift(what) {
    filter.value = what;
    sieve();
    if (at && !isShown(at)) {
      const before = next(-1);
      select(before === at ? next(1) : before);
      follow();
    } else {
      select(at);
    }
  }
  filter.addEventListener('change', () => sift(filter.value));

  // What is switched on and off.
  function toggle(id, changed) {
    by(id).addEventListener('click', () => {
      press(id, !isOn(id));
      changed();
    });
  }
  function showText() {
    by('program').hidden = !isOn('text');
    draw();
    select(at);
  }
  toggle('each', () => sift(filter.value));
  toggle('orders', () => draw());
  toggle('text', showText);
"#;
