//! Files by their names, of which the program only reads.

ghost use Rattle.std.specs.Prelude.{◌≡◌, ◌≤◌, ℕ, List, [], ◌∷◌, ◌++◌, Option, length, IfOk, OnOk, IsErrOf};
ghost use Rattle.kira_outside.specs.Faults.{Rose};
ghost use Rattle.kira_outside.specs.Held.{Held, HoldsName, LoadGives, LacksName};

use crate::LoadFault;
use std::alloc::Global;

/// A folder of files that are loaded by name.
pub trait Files {
    /// The names that it holds with their bytes, where it tells.
    ghost held: { Self → Option Held };

    /// Whether these names can be those of all loads until now, in their order. An object that keeps none denies none.
    ghost loaded: { Self → List (List ℕ) → Type 0 };

    /// How often a call has failed. Each failing call adds one, but at its last value, 2 ^ 64 - 1, it stays.
    ghost faults: { Self → ℕ };

    /// The first `most` bytes of the file, or all where it has fewer. Where the names are told, it is
    /// `Missing` exactly where the name isn't held and the call doesn't answer `Failed`.
    fn load(&mut self, alloc: Global, name: &str, most: usize) -> Result<Vec<u8>, LoadFault>
        ensures bytes { IfOk result (λ bytes. LoadGives (held self.old) name.now most bytes.items) }
        ensures at_most { IfOk result (λ bytes. length bytes.items ≤ most) }
        ensures missing { IsErrOf result LoadFault.Missing → LacksName (faults self.old) (faults self.new) (held self.old) name.now }
        ensures memory { IsErrOf result LoadFault.OutOfMemory → HoldsName (held self.old) name.now }
        ensures loaded { (names : List (List ℕ)) → loaded self.old names → loaded self.new (names ++ name.now ∷ []) }
        ensures same { held self.new ≡ held self.old }
        ensures failed { IsErrOf result LoadFault.Failed → Rose (faults self.old) (faults self.new) }
        ensures ok_count { OnOk result (faults self.new ≡ faults self.old) }
        ensures memory_count { IsErrOf result LoadFault.OutOfMemory → faults self.new ≡ faults self.old }
        ensures never_falls { faults self.old ≤ faults self.new };
}
