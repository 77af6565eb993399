//! The keys of a map, to find one that comes twice.

ghost use Rattle.std.specs.Prelude.{◌≡◌, [], ◌∷◌, ◌++◌, not, IfOk, IfErr, OnOk};
ghost use Rattle.yaml_text.specs.SameKeys.{has_key, SameKeys};
ghost use Rattle.yaml_text.specs.declared.fault.YamlError.TheVariants.{OutOfMemory};

use crate::fault::YamlError;
use std::alloc::Global;
use std::collections::BTreeSet;
use std::marker::Model;

/// The keys of a map so far. Contracts see them as a list, in no order that counts.
#[derive(Drop)]
pub struct Keys<'a> {
    set: BTreeSet<&'a [u8]>,
}

impl<'a> Model for Keys<'a> {
    ghost use Rattle.std.specs.Prelude.{ℕ, List};
    ghost use Rattle.std.specs.Coded.{coded_ℕ, coded_list};

    ghost Value = { List (List ℕ) };

    ghost coded = { coded_list (coded_list coded_ℕ) };

    ghost use Rattle.yaml_text.specs.Keys.{keys_of};

    ghost view = { keys_of };
}

impl<'a> Keys<'a> {
    /// No key.
    pub fn new(alloc: Global) -> Keys<'a>
        ensures { result ≡ [] }
    {
        Keys {
            set: BTreeSet::new(alloc),
        }
    }

    /// Adds a key, and says whether it wasn't there.
    pub fn add(&mut self, key: &'a [u8]) -> Result<bool, YamlError>
        ensures new { IfOk result (λ new. new ≡ not (has_key key.now self.old)) }
        ensures keys { OnOk result (SameKeys self.new (self.old ++ key.now ∷ [])) }
        ensures err { IfErr result (λ e. e ≡ OutOfMemory) }
    {
        Ok(self.set.insert(key)?)
    }
}
