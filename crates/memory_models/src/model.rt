//! The memory models.
ghost use Rattle.std.specs.Prelude.{◌≡◌};
ghost use Rattle.memory_models.specs.Models.{model_name};

use std::fmt;

/// How a thread's stores reach memory.
#[derive(Clone, Copy, Debug, PartialEq, Eq)]
pub enum Model {
    /// Sequential consistency: a store reaches memory at once.
    Sc,
    /// Total store order: each thread has one first-in first-out store buffer.
    Tso,
    /// Partial store order: stores of one thread to different cells may reach memory in any order.
    Pso,
}

impl Model {
    /// The name of the model, as commands and files write it.
    pub fn name(self) -> &'static str
        ensures { result.now ≡ model_name self }
    {
        match self {
            Model::Sc => "sc",
            Model::Tso => "tso",
            Model::Pso => "pso",
        }
    }
}

/// The name of the model, as commands and files write it.
impl fmt::Display for Model {
    ghost use Rattle.std.specs.Prelude.{Some};
    ghost use Rattle.memory_models.specs.Models.{model_name};

    ghost output = { λ m. Some (model_name m) };

    fn fmt<W: fmt::Write>(&self, f: &mut fmt::Formatter<W>) -> fmt::Result {
        f.write_str(self.name())
    }
}
