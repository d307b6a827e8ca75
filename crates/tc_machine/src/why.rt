//! Why a move isn't enabled.
ghost use Rattle.std.specs.Prelude.{◌≡◌};
ghost use Rattle.tc_machine.specs.Why.{why_text};

use std::fmt;

/// Why a move isn't enabled: the first reason, in this order.
#[derive(Clone, Copy, Debug, PartialEq, Eq)]
pub enum Why {
    /// A thread has failed, and the run has ended.
    Stopped,
    /// There is no thread with this name.
    NoThread,
    /// The thread has no instruction left to do.
    Exited,
    /// The instruction needs an empty store buffer, and the thread's isn't empty.
    NotDrained,
    /// The thread waits, and no signal has woken it.
    NotWoken,
    /// A thread holds the mutex, this one or another.
    Held,
    /// The thread to join hasn't exited.
    NotEnded,
    /// Threads wait on the condition, and the move doesn't say which one to wake.
    WaiterNeeded,
    /// The thread to wake doesn't wait there. If the waking thread isn't at a signal, this comes
    /// before `NotDrained`.
    WrongWaiter,
    /// There is no store that may drain by this form.
    NoEntry,
}

impl Why {
    /// The reason's name.
    fn name(self) -> &'static str
        ensures { result.now ≡ why_text self }
    {
        match self {
            Why::Stopped => "Stopped",
            Why::NoThread => "NoThread",
            Why::Exited => "Exited",
            Why::NotDrained => "NotDrained",
            Why::NotWoken => "NotWoken",
            Why::Held => "Held",
            Why::NotEnded => "NotEnded",
            Why::WaiterNeeded => "WaiterNeeded",
            Why::WrongWaiter => "WrongWaiter",
            Why::NoEntry => "NoEntry",
        }
    }
}

/// The reason's name.
impl fmt::Display for Why {
    ghost use Rattle.std.specs.Prelude.{Some};
    ghost use Rattle.tc_machine.specs.Why.{why_text};

    ghost output = { λ w. Some (why_text w) };

    fn fmt<W: fmt::Write>(&self, f: &mut fmt::Formatter<W>) -> fmt::Result {
        f.write_str(self.name())
    }
}
