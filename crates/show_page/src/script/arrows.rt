//! Arrows.

pub(super) const ARROWS: &str = r#"
  // Lays out the arrows, from the places of their two ends.
  let arrows = [], frame;
  function draw() {
    run.style.scrollPaddingTop = `${heads[0].parentNode.offsetHeight + 8}px`;
    frame = sheet.getBoundingClientRect();
    const orders = isOn('orders'), boxes = deeds.map((deed, i) => rows[i].hidden ? null : deed.getBoundingClientRect());
    arrows = links.filter(({ kind }) => orders || isAccess(kind)).map(({ kind, from, to }) => {
      const end = kind === 'create' ? shownFrom(to) : to;
      const a = boxes[from - 1], b = boxes[end - 1];
      if (!a || !b) return null;
      return { to: end, top: a.top - frame.top, bottom: b.bottom - frame.top, element: arrow(kind, path(a, b, moves[from - 1].lane === moves[end - 1].lane)) };
    }).filter(Boolean);
    svg.setAttribute('width', frame.width);
    svg.setAttribute('height', frame.height);
    hang();
  }
  const isAccess = kind => kind === 'take' || kind === 'drain';
  function arrow(kind, d) {
    const made = document.createElementNS('http://www.w3.org/2000/svg', 'path');
    made.setAttribute('d', d);
    made.setAttribute('class', isAccess(kind) ? kind : 'order');
    return made;
  }
  // The first row that is shown of a thread's, from its move n on.
  function shownFrom(n) {
    while (n && rows[n - 1].hidden) n = moves[n - 1].next;
    return n;
  }
  function path(a, b, same) {
    const right = a.left < b.left;
    const x1 = (same || !right ? a.left : a.right) - frame.left, y1 = a.top + a.height / 2 - frame.top;
    const x2 = (same || right ? b.left : b.right) - frame.left, y2 = b.top + b.height / 2 - frame.top;
    const bend = same ? -14 : right ? 20 : -20, tip = same || right ? -5 : 5;
    return `M${x1} ${y1}C${x1 + bend} ${y1} ${x2 + (same ? bend : -bend)} ${y2} ${x2} ${y2}`
      + `M${x2 + tip} ${y2 - 4}L${x2} ${y2}L${x2 + tip} ${y2 + 4}`;
  }

  // Hangs up the arrows near the window, and marks them, each time the window has moved far.
  let near = [], hung = 0;
  function hang() {
    const whole = matchMedia('print').matches, height = run.clientHeight;
    hung = run.scrollTop;
    near = arrows.filter(({ top, bottom }) => whole || bottom > hung - 2 * height && top < hung + 3 * height);
    svg.replaceChildren(...near.map(({ element }) => element));
    mark();
  }
  run.addEventListener('scroll', () => { if (Math.abs(run.scrollTop - hung) > run.clientHeight) hang(); });
  // Marks the arrows that lead to the move that is shown, and those to later ones.
  function mark() {
    for (const { element, to } of near) {
      element.classList.toggle('now', to === shown);
      element.classList.toggle('later', to > shown);
    }
  }
  addEventListener('resize', draw);
  matchMedia('print').addEventListener('change', draw);
"#;
