//! Bytes by name, in memory.
ghost use Rattle.std.specs.Prelude.{◌≡◌, OnOk, OnErr, option_map};
ghost use Rattle.std.specs.FinMap as map;
ghost use Rattle.tc_io.specs.Outside.{bytes_at};

use std::alloc::{AllocError, Global};
use std::collections::BTreeMap;
use std::marker::Model;

/// Bytes by name.
#[derive(Drop)]
pub struct NamedBytes {
    by_name: BTreeMap<String, Vec<u8>>,
}

impl Model for NamedBytes {
    ghost use Rattle.std.specs.Prelude.{map as list_map, string_bytes};
    ghost use Rattle.std.specs.FinMap as map;
    ghost use Rattle.std.specs.Coded.{coded_ℕ, coded_list};
    ghost use Rattle.tc_io.specs.Outside.{Files};

    ghost Value = { Files };

    ghost coded = { map.code (coded_list coded_ℕ) (coded_list coded_ℕ) };

    ghost view = { λ a. map.from_entries (list_map (λ e. (string_bytes e.0, e.1.items)) a.by_name.entries) };
}

impl NamedBytes {
    pub fn new(alloc: Global) -> Self
        ensures { result ≡ map.empty }
    {
        NamedBytes {
            by_name: BTreeMap::new(alloc),
        }
    }

    pub fn get(&self, name: &str) -> Option<&[u8]>
        ensures { option_map (λ bytes. bytes.now) result ≡ map.get self.now name.now }
    {
        match self.by_name.get(name) {
            Some(bytes) => Some(bytes.as_slice()),
            None => None,
        }
    }

    /// The bytes under a name; none if the name is absent.
    pub fn bytes(&self, name: &str) -> &[u8]
        ensures { result.now ≡ bytes_at self.now name.now }
    {
        self.get(name).unwrap_or(&[])
    }

    /// Puts a copy of the bytes under the name, instead of its old bytes.
    pub fn insert(&mut self, alloc: Global, name: &str, bytes: &[u8]) -> Result<(), AllocError>
        ensures ok { OnOk result (self.new ≡ map.insert self.old name.now bytes.now) }
        ensures err { OnErr result (self.new ≡ self.old) }
    {
        let key = String::from_str(alloc, name)?;
        let mut copy = Vec::new(alloc);
        copy.extend_from_slice(bytes)?;
        self.by_name.insert(key, copy)?;
        Ok(())
    }
}
