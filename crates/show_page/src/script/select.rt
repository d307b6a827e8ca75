//! Selecting moves: by the keys, the pointer, the address, and the lines of the program.

pub(super) const SELECT: &str = r#"
  // Selects move n, brings it into view, and has it read out; the address follows once the keys rest.
  let following;
  function select(n) {
    rows[at - 1]?.removeAttribute('aria-current');
    rows[n - 1]?.setAttribute('aria-current', 'true');
    at = n;
    const why = show(n);
    if (n) deeds[n - 1].scrollIntoView({ block: 'nearest', inline: 'nearest' });
    else run.scrollTop = 0;
    if (n && !by('program').hidden) lines[moves[n - 1].line - 1]?.scrollIntoView({ block: 'nearest', inline: 'nearest' });
    by('said').textContent = n ? `move ${n} of ${last}, ${text(deeds[n - 1])}${spoken(why)}` : 'before the first move';
  }
  function text(deed) {
    const [who, line, code, each, brief] = [...deed.children].map(part => part.textContent);
    return `${who}line ${line}: ${code} ${isOn('each') ? each : brief}`;
  }
  function follow() {
    const { hash } = location;
    clearTimeout(following);
    following = setTimeout(() => { if (location.hash === hash) history.replaceState(null, '', `#m${at}`); }, 100);
  }

  // The first move from here on or back, among those that are shown, of which the test is true; else the one from here.
  const isShown = n => !rows[n - 1].hidden;
  function next(step, test = () => true, from = at) {
    for (let n = from + step; n >= 1 && n <= last; n += step) {
      if (isShown(n) && test(moves[n - 1])) return n;
    }
    return from;
  }
  function far(step, count) {
    let n = at;
    while (count-- > 0) n = next(step, undefined, n);
    return n;
  }
  const first = () => next(1, undefined, 0), final = () => Math.min(next(-1, undefined, last + 1), last);
  function isSame({ cell }) {
    const own = at ? moves[at - 1].cell : -1;
    return own < 0 ? cell >= 0 : cell === own;
  }
  const isHere = ({ line }) => line === (at ? moves[at - 1].line : 0);
  const steps = {
    j: () => next(1),
    k: () => at === first() ? 0 : next(-1),
    Home: first,
    End: final,
    PageDown: () => far(1, 10),
    PageUp: () => far(-1, 10),
    e: () => next(1, move => move.event),
    E: () => next(-1, move => move.event),
    s: () => next(1, move => move.switches),
    S: () => next(-1, move => move.switches),
    c: () => next(1, isSame),
    C: () => next(-1, isSame),
    l: () => next(1, isHere),
    L: () => next(-1, isHere),
    f: () => { if (last && !isShown(last)) sift(''); return final(); },
  };
  steps.ArrowDown = steps.j;
  steps.ArrowUp = steps.k;
  const others = {
    '/': () => filter.focus(),
    '?': () => keys.showModal(),
    Escape: () => sift(''),
    m: () => by('each').click(),
    h: () => by('orders').click(),
    p: () => by('text').click(),
  };
  addEventListener('keydown', event => {
    if (event.ctrlKey || event.metaKey || event.altKey || keys.open) return;
    if (event.target === filter) {
      if (event.key === 'Enter' || event.key === 'Escape') run.focus();
      if (event.key !== 'Escape') return;
    }
    const step = Object.hasOwn(steps, event.key) && steps[event.key];
    const other = Object.hasOwn(others, event.key) && others[event.key];
    if (!step && !other) return;
    event.preventDefault();
    if (other) return other();
    select(step());
    follow();
  });
  by('help').addEventListener('click', () => keys.showModal());

  // A click selects a move. The pointer shows one while it is moved over it, but not where a row comes under it as rows scroll.
  const pointed = event => +(event.target.closest('#moves > .row')?.id.slice(1) ?? at);
  let place;
  run.addEventListener('click', event => {
    if (!event.target.closest('#moves > .row')) return;
    select(pointed(event));
    follow();
  });
  run.addEventListener('pointermove', event => {
    const now = `${event.screenX} ${event.screenY}`;
    if (event.pointerType !== 'touch' && place !== undefined && place !== now && shown !== pointed(event)) show(pointed(event));
    place = now;
  });
  run.addEventListener('pointerleave', () => { if (shown !== at) show(at); });

  // A click on a line of the program selects its next move, and after the last its first.
  by('program').addEventListener('click', event => {
    const line = lines.indexOf(event.target.closest('li')) + 1, isAt = move => line > 0 && move.line === line;
    const later = next(1, isAt);
    const found = later === at ? next(1, isAt, 0) : later;
    if (!found) return;
    select(found);
    follow();
  });

  // Selects the move that the address names, and else the last, at which the run fails or ends. From a link, which is gone then,
  // the focus goes to the moves.
  let isLinked = false;
  by('why').addEventListener('click', event => { isLinked = event.target.closest('a') !== null; });
  function visit() {
    const [, number] = /^#m([0-9]+)$/.exec(location.hash) ?? [];
    const n = number === undefined ? final() : Math.min(+number, last);
    if (n && !isShown(n)) {
      if (moves[n - 1].folds) press('each', true);
      sift('');
    }
    select(n);
    if (isLinked) run.focus({ preventScroll: true });
    isLinked = false;
  }
  addEventListener('hashchange', visit);
"#;
