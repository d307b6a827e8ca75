//! The state after the selected move, or the one pointed at, and the reasons of that move.

pub(super) const SHOW: &str = r#"
  // Shows the state after the first n moves, and gives the reasons of the last of them.
  function show(n) {
    rows[shown - 1]?.classList.remove('at');
    for (let i = Math.min(shown, n); i < Math.max(shown, n); i++) rows[i].classList.toggle('later', i >= n);
    rows[n - 1]?.classList.add('at');
    shown = n;
    mark();
    const now = state(Math.max(n - 1, 0)), move = moves[n - 1];
    const why = move ? reasons(move, now) : [];
    tellWhy(why);
    if (move) take(now, move);
    tellMemory(now, move);
    tellBuffers(now);
    tellThreads(now);
    tellLines(now, move);
    put(by('at'), `after move ${n} of ${last}`);
    return why;
  }
  const put = (place, text) => { if (place.textContent !== String(text)) place.textContent = text; };

  // A move, by which it is selected.
  function reference(n) {
    const made = document.createElement('a');
    made.href = `#m${n}`;
    made.textContent = called(n);
    return made;
  }
  const called = n => `move ${n} (${lanes[moves[n - 1].lane]})`;
  const isMove = part => typeof part === 'number';
  function tellWhy(why) {
    by('why').replaceChildren(...why.map(parts => {
      const line = document.createElement('p');
      line.append(...parts.map(part => isMove(part) ? reference(part) : part));
      return line;
    }));
  }
  const spoken = why => why.map(parts => `. ${parts.map(part => isMove(part) ? called(part) : part).join('')}`).join('');

  function tellMemory({ memory, owners, threads: those }, move) {
    cells.forEach(({ row, value }, c) => {
      put(value, memory[c].value);
      row.classList.toggle('new', Boolean(move?.isPut) && move.cell === c);
    });
    mutexes.forEach(({ row, value }, m) => {
      put(value, owners[m] < 0 ? 'free' : lanes[owners[m]]);
      row.classList.toggle('new', move?.mutex === m);
    });
    conditions.forEach(({ row, value }, c) => {
      put(value, sleepers({ threads: those }, c).map(k => lanes[k]).join(', ') || 'nobody waits');
      row.classList.toggle('new', move?.condition === c);
    });
  }

  function tellBuffers({ waiting }) {
    const buffers = lanes.map((lane, k) => {
      const stores = waiting.filter(store => store.lane === k).map(store => `${cells[store.cell].name} = ${store.put}`);
      const line = document.createElement('p');
      line.textContent = `${lane}: ${stores.join(', ')}`;
      return stores.length ? line : null;
    }).filter(Boolean);
    by('buffers').replaceChildren(...buffers.length ? buffers : ['empty']);
  }

  // The line at which a thread is, or 0.
  function lineOf({ is, next }, k) {
    if (is === 'uncreated' || is === 'exited' || is === 'joined') return 0;
    return (moves[next - 1] ?? ends[k]).line;
  }

  function tellThreads(now) {
    now.threads.forEach((thread, k) => {
      const line = lineOf(thread, k);
      put(threads[k].value, [words(thread), line ? `line ${line}` : '', waits(now, thread, k)].filter(Boolean).join(', '));
    });
  }
  function words({ is, on }) {
    if (is === 'asleep') return `asleep on ${conditions[on].name}`;
    return is === 'uncreated' ? 'not created' : is === 'running' ? '' : is;
  }
  // What a thread waits for before its next step.
  function waits({ owners, threads: those }, { is, next }, k) {
    const { kind, mutex, other } = moves[next - 1] ?? ends[k];
    if (is !== 'running' && is !== 'woken') return '';
    if ((kind === 'lock' || kind === 'wake') && owners[mutex] >= 0) return `waits for ${mutexes[mutex].name}`;
    return kind === 'join' && those[other].is !== 'exited' ? `waits for ${lanes[other]}` : '';
  }

  // Marks the line of each thread, and that of the move.
  let marked = [];
  function tellLines(now, move) {
    marked.forEach(line => { line.classList.remove('now'); line.querySelectorAll('b').forEach(tag => tag.remove()); });
    const places = now.threads.map(lineOf);
    marked = [...new Set([move?.line ?? 0, ...places])].map(place => lines[place - 1]).filter(Boolean);
    places.forEach((place, k) => {
      const tag = document.createElement('b');
      tag.textContent = lanes[k].split(' ')[0];
      lines[place - 1]?.append(tag);
    });
    lines[(move?.line ?? 0) - 1]?.classList.add('now');
  }
"#;
