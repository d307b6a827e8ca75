//! The number of context switches in the order of a world.
#![tactic(auto)]

ghost use Rattle.std.specs.Prelude.{◌≡◌, ◌≤◌, ◌==◌, ℕ, List, Option, length, if◌then◌else◌};
ghost use Rattle.std.specs.Option.{option_map_or};
ghost use Rattle.order_formula.specs.Worlds.{World as PlainWorld, IsWorld};
ghost use Rattle.order_switches.specs.Switches.{end_at, switches, thread_in};
ghost use Rattle.order_switches.specs.Levels.{AreLevels};

use order_formula::World;

/// A world has at most k switches exactly when its events have levels up to k that rise at each
/// switch.
pub fn levels_are_switches()
    ensures few { (threads : List ℕ) (failing : Option ℕ) (w : PlainWorld) (k : ℕ) (level : ℕ → ℕ) → IsWorld w → length threads ≡ length w.positions
        → AreLevels threads failing w k level → switches threads failing w ≤ k }
    ensures levels { (threads : List ℕ) (failing : Option ℕ) (w : PlainWorld) (k : ℕ) → IsWorld w → length threads ≡ length w.positions
        → switches threads failing w ≤ k → (level : ℕ → ℕ) × AreLevels threads failing w k level }
{}

/// The number of context switches in a world, up to the failing event if there is one. `threads`
/// has the thread of each event.
pub fn switches(threads: &[usize], failing: Option<u32>, world: &World) -> u32
    ensures number { result ≡ switches threads.now failing world.now }
    ensures few { result ≤ 256 }
{
    let mut count = 0;
    let mut last = None;
    for position in 0..end_at(failing, world) {
        if let Some(thread) = thread_in(threads, world.positions(), position) {
            count += change(last, thread);
            last = Some(thread);
        }
    }
    count
}

/// One past the position of the failing event, or past all positions if none fails.
fn end_at(failing: Option<u32>, world: &World) -> usize
    ensures end { result ≡ end_at failing world.now }
    ensures few { result ≤ 256 }
{
    match failing {
        Some(event) => world.position(event) as usize + 1,
        None => 256,
    }
}

/// The thread of the event at a position, if there is one.
fn thread_in(threads: &[usize], positions: &[u8], position: usize) -> Option<usize>
    ensures { result ≡ thread_in threads.now positions.now position }
{
    for event in 0..threads.len().min(positions.len()) {
        if positions[event] as usize == position {
            return Some(threads[event]);
        }
    }
    None
}

/// 1 if a thread isn't the last one, and 0 otherwise.
fn change(last: Option<usize>, thread: usize) -> u32
    ensures change { result ≡ option_map_or (λ earlier. if earlier == thread then 0 else 1) last 0 }
    ensures one { result ≤ 1 }
{
    match last {
        Some(earlier) if earlier != thread => 1,
        _ => 0,
    }
}
