//! The state after each move.

pub(super) const STATE: &str = r#"
  // The first step of each lane, and of each step the next one of its lane, or 0.
  const firsts = lanes.map(() => 0);
  for (let i = last - 1; i >= 0; i--) {
    const { lane, isStep } = moves[i];
    if (!isStep) continue;
    moves[i].next = firsts[lane];
    firsts[lane] = i + 1;
  }

  // The state before the first move. Of each cell there is also the move that stored its value, of each mutex the one that freed
  // it, and of each thread its next step, and the moves by which it was created, fell asleep, was woken, and ended.
  function start() {
    return {
      memory: cells.map(cell => ({ value: cell.start, by: 0 })),
      waiting: [],
      owners: mutexes.map(() => -1),
      freed: mutexes.map(() => 0),
      threads: lanes.map((_, k) => ({ is: k ? 'uncreated' : 'running', next: firsts[k], on: -1, created: 0, slept: 0, woken: 0, ended: 0 })),
    };
  }

  // What synchronization does to a state.
  const free = (state, move) => { state.owners[move.mutex] = -1; state.freed[move.mutex] = move.number; };
  function rouse(thread, move) {
    Object.assign(thread, { is: 'woken', woken: move.number });
    moves[thread.slept - 1].woken = move.number;
  }
  const syncs = {
    lock(state, move) { state.owners[move.mutex] = move.lane; },
    unlock: free,
    sleep(state, move, thread) {
      free(state, move);
      Object.assign(thread, { is: 'asleep', on: move.condition, slept: move.number });
    },
    wake(state, move, thread) { state.owners[move.mutex] = move.lane; thread.is = 'running'; },
    signal(state, move) { if (move.other >= 0) rouse(state.threads[move.other], move); },
    broadcast(state, move) { sleepers(state, move.condition).forEach(k => rouse(state.threads[k], move)); },
    create(state, move) { Object.assign(state.threads[move.other], { is: 'running', created: move.number }); },
    join(state, move) { state.threads[move.other].is = 'joined'; },
    exit(state, move, thread) { thread.is = 'exited'; thread.ended = move.number; },
  };
  const sleepers = (state, condition) => [...lanes.keys()].filter(k => state.threads[k].is === 'asleep' && state.threads[k].on === condition);

  // Takes a move into a state.
  function take(state, move) {
    const thread = state.threads[move.lane];
    if (move.kind === 'issue') state.waiting.push(move);
    if (move.kind === 'drain') state.waiting = state.waiting.filter(store => store.number !== move.from);
    if (move.isPut) state.memory[move.cell] = { value: move.put, by: move.isStep ? move.number : move.from };
    if (move.isStep) thread.next = move.next;
    if (move.fails) thread.is = 'failed';
    if (Object.hasOwn(syncs, move.kind)) syncs[move.kind](state, move, thread);
  }

  // The state after the first n moves.
  function state(n) {
    const made = start();
    for (let i = 0; i < n; i++) take(made, moves[i]);
    return made;
  }
"#;
