//! The lanes and the moves, as the list has them.

pub(super) const MOVES: &str = r#"
  // The lanes: the threads that moved or haven't exited, in the order of their names.
  const numbers = thread => thread.split(' ')[0].split('.').map(Number);
  function byName(one, other) {
    const a = numbers(one), b = numbers(other), place = a.findIndex((n, k) => n !== b[k]);
    return place < 0 ? a.length - b.length : a[place] - (b[place] ?? -1);
  }
  const lanes = [...new Set([...listed('standing'), ...listed('move')].map(([thread]) => thread))].sort(byName);
  const places = new Map(lanes.map((thread, k) => [thread.split(' ')[0], k]));
  const laneOf = thread => places.get(thread.split(' ')[0]) ?? -1;
  // The lane of a thread, or of a thread's child; without either it is -1.
  const otherOf = (thread, other, child) => laneOf(other ?? `${thread.split(' ')[0]}.${child ?? ''}`);

  // The moves. What isn't there has number -1, and moves are numbered from 1.
  const moves = listed('move').map(([thread, line, step, kind, cell, mutex, condition, took, put, other, child, words, brief], i) => ({
    number: i + 1, thread, lane: laneOf(thread), line, step, kind, cell: cell ?? -1, mutex: mutex ?? -1, condition: condition ?? -1,
    took: took ?? undefined, put: put ?? undefined, from: 0, other: otherOf(thread, other, child), words, brief,
    sets: kind ? undefined : /^(\w+) = /.exec(words)?.[1], event: !['', 'stbar', 'issue'].includes(kind), switches: false,
    folds: brief === null, fails: kind === 'fail', isStep: kind !== 'drain', isPut: kind === 'drain' || kind === 'store',
    next: 0, woken: 0, back: [], on: [],
  }));
  // What each lane has at the end.
  const ends = lanes.map(() => ({ line: 0, kind: '', mutex: -1, other: -1 }));
  for (const [thread, line, kind, mutex, child] of listed('standing')) {
    ends[laneOf(thread)] = { line, kind, mutex: mutex ?? -1, other: otherOf(thread, null, child) };
  }

  // Where each value comes from that a move takes or drains, and which events are of another thread than the event before.
  {
    const writers = [];
    let waiting = [], before = -1;
    for (const move of moves) {
      const { number, lane, kind, cell, step } = move;
      const store = waiting.findLast(it => it.lane === lane && (kind === 'drain' ? it.step === step : it.cell === cell));
      if (kind === 'drain' || move.took !== undefined) move.from = store ? store.number : writers[cell] ?? 0;
      if (kind === 'issue') waiting.push(move);
      if (kind === 'drain') waiting = waiting.filter(it => it !== store);
      if (move.isPut) writers[cell] = kind === 'drain' ? move.from : number;
      if (!move.event) continue;
      move.switches = before >= 0 && before !== lane;
      before = lane;
    }
  }
"#;
