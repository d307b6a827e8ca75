//! Links from move to move.

pub(super) const LINKS: &str = r#"
  // What leads from move to move: a value that is taken, a store that reaches memory, and what orders threads.
  const links = [];
  function link(kind, from, move) {
    if (!from) return;
    const made = { kind, from, to: move.number };
    links.push(made);
    move.back.push(made);
    moves[from - 1].on.push(made);
  }
  {
    const so = start();
    for (const move of moves) {
      const thread = so.threads[move.lane];
      link(move.kind === 'drain' ? 'drain' : 'take', move.from, move);
      if (move.isStep && move.number === firsts[move.lane]) link('create', thread.created, move);
      if (move.kind === 'lock' || move.kind === 'wake') link('unlock', so.freed[move.mutex], move);
      if (move.kind === 'wake') link('signal', thread.woken, move);
      if (move.kind === 'join') link('exit', so.threads[move.other].ended, move);
      take(so, move);
    }
  }
"#;
