//! What code keeps of its text: names and lines.
ghost use Rattle.std.specs.Prelude.{◌≡◌};

use std::marker::Model;

/// The name of a function, as in the text.
#[derive(Debug, Drop)]
pub struct FuncName {
    bytes: Vec<u8>,
}

impl Model for FuncName {
    ghost use Rattle.std.specs.Prelude.{List, ℕ};
    ghost use Rattle.std.specs.Coded.{coded_list, coded_ℕ};

    ghost Value = { List ℕ };

    ghost coded = { coded_list coded_ℕ };

    ghost view = { λ n. n.bytes.items };
}

impl FuncName {
    /// The name with these bytes.
    pub fn new(bytes: Vec<u8>) -> FuncName
        ensures { result ≡ bytes.items }
    {
        FuncName { bytes }
    }

    /// Its bytes.
    pub fn as_bytes(&self) -> &[u8]
        ensures { result.now ≡ self.now }
    {
        self.bytes.as_slice()
    }
}

/// The line in the text, from 1, of each instruction of a function.
#[derive(Debug, Drop)]
pub struct Lines {
    lines: Vec<u32>,
}

impl Model for Lines {
    ghost use Rattle.std.specs.Prelude.{List, ℕ};
    ghost use Rattle.std.specs.Coded.{coded_list, coded_ℕ};

    ghost Value = { List ℕ };

    ghost coded = { coded_list coded_ℕ };

    ghost view = { λ l. l.lines.items };
}

impl Lines {
    /// These lines, in the order of the instructions.
    pub fn new(lines: Vec<u32>) -> Lines
        ensures { result ≡ lines.items }
    {
        Lines { lines }
    }

    /// The lines, in the order of the instructions.
    pub fn as_slice(&self) -> &[u32]
        ensures { result.now ≡ self.now }
    {
        self.lines.as_slice()
    }
}
