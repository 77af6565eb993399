//! What a text is refused for.

ghost use Rattle.std.specs.Prelude.{◌≡◌};
ghost use Rattle.yaml_text.specs.Kinds.{text_of};

use out_of_memory::OutOfMemory;
use std::alloc::{AllocError, AllocFailed};
use std::fmt;

/// The kinds of fault. The first four are faults of one line by itself, the others of the structure.
#[derive(Clone, Copy, Debug, PartialEq, Eq, Drop)]
pub enum YamlKind {
    /// A tab outside a comment.
    Tab,
    /// A byte below 32 or above 126 outside a comment, other than a tab.
    NotAscii,
    /// A single quote, a backslash, or an odd number of double quotes, outside a comment.
    Quote,
    /// A line without indentation that begins with `---` or `...`.
    Document,
    /// A plain key is `<<`.
    Merge,
    /// A plain scalar or key, or a text that must be a flow value, begins as an anchor, an alias, a
    /// tag, a directive or an explicit key does.
    Indicator,
    /// A plain scalar or key begins with a vertical bar or `>`.
    BlockScalar,
    /// A text that must be a flow value isn't one.
    Flow,
    /// A line at an indentation that its block doesn't allow.
    Indent,
    /// A line of a map has no key with a colon.
    NoColon,
    /// A map has a key twice; the line is the second's.
    DuplicateKey,
    /// More than 16 lists and maps inside one another.
    TooDeep,
}

impl YamlKind {
    /// The kind in plain words, for a message.
    pub fn text(&self) -> &'static str
        ensures { result.now ≡ text_of self.now }
    {
        match self {
            YamlKind::Tab => "a tab outside comments",
            YamlKind::NotAscii => "a byte that is not printable ASCII",
            YamlKind::Quote => "a single quote, backslash or open quote",
            YamlKind::Document => "a document mark",
            YamlKind::Merge => "a merge key",
            YamlKind::Indicator => "an anchor, alias, tag or other indicator",
            YamlKind::BlockScalar => "a block scalar",
            YamlKind::Flow => "not a value on one line",
            YamlKind::Indent => "wrong indentation",
            YamlKind::NoColon => "a key without a colon",
            YamlKind::DuplicateKey => "key used twice",
            YamlKind::TooDeep => "nested too deep",
        }
    }
}

/// The first fault of a text: its line, counted from 1, and its kind.
#[derive(Clone, Copy, Debug, PartialEq, Eq, Drop)]
pub struct YamlFault {
    /// The line, counted from 1.
    pub line: u32,
    /// What is wrong there.
    pub kind: YamlKind,
}

/// Why no tree was given.
#[derive(Clone, Copy, Debug, PartialEq, Eq, Drop)]
pub enum YamlError {
    /// The text has no tree; this is its first fault.
    Fault(YamlFault),
    /// Memory was refused.
    OutOfMemory,
}

impl From<AllocError> for YamlError {
    ghost use Rattle.std.specs.Prelude.{◌≡◌};
    ghost use Rattle.yaml_text.specs.declared.fault.YamlError.TheVariants.{OutOfMemory};

    ghost from_gives = { λ _ e. e ≡ OutOfMemory };

    fn from(_: AllocError) -> YamlError {
        YamlError::OutOfMemory
    }
}

impl<T: Drop> From<AllocFailed<T>> for YamlError {
    ghost use Rattle.std.specs.Prelude.{◌≡◌};
    ghost use Rattle.yaml_text.specs.declared.fault.YamlError.TheVariants.{OutOfMemory};

    ghost from_gives = { λ _ e. e ≡ OutOfMemory };

    fn from(_: AllocFailed<T>) -> YamlError {
        YamlError::OutOfMemory
    }
}

impl From<OutOfMemory> for YamlError {
    ghost use Rattle.std.specs.Prelude.{◌≡◌};
    ghost use Rattle.yaml_text.specs.declared.fault.YamlError.TheVariants.{OutOfMemory};

    ghost from_gives = { λ _ e. e ≡ OutOfMemory };

    fn from(_: OutOfMemory) -> YamlError {
        YamlError::OutOfMemory
    }
}

impl fmt::Display for YamlKind {
    ghost use Rattle.std.specs.Prelude.{Some};
    ghost use Rattle.yaml_text.specs.Kinds.{text_of};

    ghost output = { λ kind. Some (text_of kind) };

    fn fmt<W: fmt::Write>(&self, f: &mut fmt::Formatter<W>) -> fmt::Result {
        f.write_str(self.text())
    }
}
