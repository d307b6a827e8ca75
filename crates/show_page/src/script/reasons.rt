//! The reasons of a move.

pub(super) const REASONS: &str = r#"
  // Why a move did what it did, in lines of words and of numbers of moves, by the state before it.
  function reasons(move, before) {
    return [
      ...move.took === undefined ? [] : taken(move, before),
      ...move.put === undefined ? [] : stored(move, before),
      ...takers(move),
      ...move.fails ? looked(move) : [],
      ...move.kind !== 'sleep' ? [] : [move.woken ? ['woken by ', move.woken] : ['never woken in this run']],
      ...move.back.filter(({ kind }) => Object.hasOwn(came, kind)).map(({ kind, from }) => [came[kind], from]),
      ...move.on.filter(({ kind }) => Object.hasOwn(goes, kind)).map(({ kind, to }) => [goes[kind], to]),
    ];
  }
  const came = { create: 'created by ', unlock: 'the mutex was freed by ', signal: 'woken by ', exit: 'the thread exited by ' };
  const goes = { create: 'first step: ', unlock: 'next to lock it: ', signal: 'wakes ', exit: 'joined by ' };

  // Where a value came from that is taken, and the newer ones that wait in the buffers of others.
  function taken(move, before) {
    const cell = cells[move.cell].name, isOwn = before.waiting.some(store => store.number === move.from);
    const newer = before.waiting.filter(store => store.cell === move.cell && store.lane !== move.lane && !isOwn);
    const source = move.from ? [`${cell} = ${move.took} was stored by `, move.from, isOwn ? ', in its own buffer' : '']
      : [`${cell} = ${move.took} is its value at the start`];
    return [source, ...newer.map(store => [`newer: ${cell} = ${store.put} of `, store.number, ' waits in a buffer', ...until(store)])];
  }
  // The moves that take the value, the first six by name.
  function takers(move) {
    const takes = move.on.filter(({ kind }) => kind === 'take').map(({ to }) => to), more = takes.length - 6;
    const named = takes.slice(0, 6).flatMap((n, i) => i ? [', ', n] : [n]);
    return takes.length ? [['value taken by ', ...named, more > 0 ? `, and ${more} more` : '']] : [];
  }
  // What the statement that fails took, and who stored that, and which move set each of its ints.
  function looked(move) {
    const steps = moves.filter(({ number, lane, isStep }) => number < move.number && lane === move.lane && isStep).reverse();
    const others = steps.findIndex(({ line }) => line !== move.line);
    const loads = steps.slice(0, others < 0 ? steps.length : others).filter(({ took }) => took !== undefined).reverse();
    const names = new Set(deeds[move.number - 1].querySelector('code').textContent.match(/[A-Za-z_][A-Za-z_0-9]*/g));
    const sets = [...names].map(name => steps.find(step => step.sets === name)).filter(Boolean);
    return [
      ...loads.map(({ number, cell, took, from }) => [`${cells[cell].name} = ${took} was taken by `, number,
        ...from ? [', and stored by ', from] : [' from the start']]),
      ...sets.map(({ number }) => [`${deeds[number - 1].querySelector('.each').textContent} was set by `, home(number, steps)]),
    ];
  }
  // The row in which a step is where silent steps are folded.
  function home(n, steps) {
    const { line } = moves[n - 1], place = steps.findIndex(({ number }) => number === n);
    const found = steps.slice(place).find(step => step.line !== line || !step.folds);
    return found?.line === line ? found.number : n;
  }
  const drainOf = store => store.on.find(({ kind }) => kind === 'drain')?.to;
  const until = store => drainOf(store) ? [' until ', drainOf(store)] : [' to the end'];

  // What becomes of a value that is stored, and what it replaces.
  function stored(move, before) {
    if (move.kind === 'issue') return [drainOf(move) ? ['reaches memory by ', drainOf(move)] : ['never reaches memory in this run']];
    const { value, by } = before.memory[move.cell], old = `replaces ${cells[move.cell].name} = ${value}`;
    const replaces = by ? [`${old} of `, by] : [`${old}, its value at the start`];
    return move.kind === 'drain' ? [['stored by ', move.from], replaces] : [replaces];
  }
"#;
