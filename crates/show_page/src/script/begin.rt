//! What is done once all is there.

/// Decides whether a page opens with the program's text: if the window is wide and the lanes keep
/// their room, or have none anyway.
pub(super) const BEGIN: &str = r#"
  const size = (element, property) => parseFloat(getComputedStyle(element)[property]);
  function hasRoom() {
    const need = size(sheet, 'minWidth'), room = run.clientWidth, less = size(by('program'), 'flexBasis') + size(run.parentNode, 'columnGap');
    return matchMedia('(min-width: 75rem)').matches && (need <= room - less || need > room);
  }
  offer('thread', lanes, 'lane');
  offer('cell', cells.map(cell => cell.name), 'cell');
  press('text', hasRoom());
  by('program').hidden = !isOn('text');
  sieve();
  visit();
"#;
