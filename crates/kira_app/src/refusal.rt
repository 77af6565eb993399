//! Why a call ends without its table, with what its message names.

ghost use Rattle.std.specs.Prelude.{◌≡◌};
ghost use Rattle.kira_app.specs.Steps.{plain};

use crate::Status;
use out_of_memory::OutOfMemory;
use reduction_core::ForwardFault;
use std::alloc::Global;
use yaml_text::Text;

/// Why a call ends without its table. The name is that of the list file at fault, or of the family whose
/// denominators are dependent; it is empty where the message names neither.
#[derive(Debug, Drop)]
pub struct Refusal {
    /// How the call ends.
    pub status: Status,
    /// The name in its message.
    pub name: Text,
}

impl Refusal {
    ghost use Rattle.std.specs.Prelude.{◌≡◌};
    ghost use Rattle.kira_app.specs.Steps.{plain};

    /// A refusal whose message names nothing but what the status has.
    pub fn plain(alloc: Global, status: Status) -> Refusal
        ensures { result ≡ plain status }
    {
        Refusal {
            status,
            name: Text::empty(alloc),
        }
    }
}
