//! What an input is refused for.

ghost use Rattle.std.specs.Prelude.{◌≡◌};
ghost use Rattle.input_schema.specs.Kinds.{text_of, kind_of};
ghost use Rattle.input_schema.specs.declared.faults.SchemaError.TheVariants as schema_error;

use out_of_memory::OutOfMemory;
use std::alloc::{AllocError, AllocFailed};
use std::fmt;
use text_tokens::TextKind;
use yaml_text::YamlKind;

/// The files that a job is read from. The project's own.
#[derive(Clone, Copy, Debug, PartialEq, Eq, Drop)]
pub enum File {
    /// The words of the command; a line is a word's place among them.
    Words,
    /// The file of jobs.
    Jobs,
    /// The file of integral families.
    Families,
    /// The file of kinematics.
    Kinematics,
    /// The list file with this number, counted from 0.
    List(u32),
}

/// The kinds of fault of an input. The project's own.
#[derive(Clone, Copy, Debug, PartialEq, Eq, Drop)]
pub enum InputKind {
    /// The file isn't there.
    Missing,
    /// The file has more bytes than it may have.
    TooLong,
    /// The file isn't in the profile of YAML.
    Yaml(YamlKind),
    /// A node isn't the map, list, pair or scalar that is asked for.
    Shape,
    /// A map has a key that it may not have.
    UnknownKey,
    /// A map lacks a key that it needs.
    MissingKey,
    /// A text isn't of the form of a name.
    BadName,
    /// A declared name is `d` or `prime`.
    ReservedName,
    /// A name is declared twice.
    DuplicateName,
    /// A name isn't declared.
    UnknownName,
    /// A text isn't digits alone.
    BadNumber,
    /// A number is above 2^128 - 1.
    NumberTooWide,
    /// A number, a length or a coefficient is outside its range.
    OutOfRange,
    /// A text isn't a value.
    BadExpression,
    /// A text isn't a momentum.
    BadMomentum,
    /// A value nests too deep or has too many signs.
    TooDeep,
    /// There are more or fewer propagators or indices than the family has.
    WrongCount,
    /// A sector isn't a subset of a top level sector.
    SectorOutside,
    /// A run flag isn't `true`.
    RunFlag,
    /// There is more than one job.
    ManyJobs,
    /// A parameter has no value.
    NoValue,
    /// A word isn't NAME=VALUE.
    BadOverride,
    /// A line of a list file isn't an integral.
    BadLine,
    /// The prime isn't an odd number from 3 below 2^63.
    BadModulus,
    /// A map of the loop momenta doesn't permute the denominators.
    NotAPermutation,
}

impl InputKind {
    /// The kind in plain words, for a message.
    pub fn text(&self) -> &'static str
        ensures { result.now ≡ text_of self.now }
    {
        match self {
            InputKind::Missing => "no such file",
            InputKind::TooLong => "longer than 16777216 bytes",
            InputKind::Yaml(kind) => kind.text(),
            InputKind::Shape => "the value has the wrong shape",
            InputKind::UnknownKey => "unknown key",
            InputKind::MissingKey => "a key is missing",
            InputKind::BadName => "not a name",
            InputKind::ReservedName => "reserved name",
            InputKind::DuplicateName => "name used twice",
            InputKind::UnknownName => "unknown name",
            InputKind::BadNumber => "not a number",
            InputKind::NumberTooWide => "wider than 128 bits",
            InputKind::OutOfRange => "out of range",
            InputKind::BadExpression => "not an expression",
            InputKind::BadMomentum => "not a momentum",
            InputKind::TooDeep => "nested too deep",
            InputKind::WrongCount => "wrong count",
            InputKind::SectorOutside => "sector outside the top level sectors",
            InputKind::RunFlag => "only true is allowed",
            InputKind::ManyJobs => "more than one job",
            InputKind::NoValue => "no value given",
            InputKind::BadOverride => "not NAME=VALUE",
            InputKind::BadLine => "not an integral",
            InputKind::BadModulus => "not an odd number from 3 below 2^63",
            InputKind::NotAPermutation => "not a symmetry of the denominators",
        }
    }

    /// The kind of a fault in the text of a momentum or a value.
    pub fn of_text(kind: TextKind) -> InputKind
        ensures { result ≡ kind_of kind }
    {
        match kind {
            TextKind::BadExpression => InputKind::BadExpression,
            TextKind::BadMomentum => InputKind::BadMomentum,
            TextKind::UnknownName => InputKind::UnknownName,
            TextKind::NumberTooWide => InputKind::NumberTooWide,
            TextKind::OutOfRange => InputKind::OutOfRange,
            TextKind::TooDeep => InputKind::TooDeep,
        }
    }
}

impl fmt::Display for InputKind {
    ghost use Rattle.std.specs.Prelude.{Some};
    ghost use Rattle.input_schema.specs.Kinds.{text_of};

    ghost output = { λ kind. Some (text_of kind) };

    fn fmt<W: fmt::Write>(&self, f: &mut fmt::Formatter<W>) -> fmt::Result {
        f.write_str(self.text())
    }
}

/// The first fault of an input: its file, its line, and its kind.
#[derive(Clone, Copy, Debug, PartialEq, Eq, Drop)]
pub struct InputFault {
    /// The file at fault.
    pub file: File,
    /// The line, counted from 1; for words the place of the word, and 0 where there is no file to read.
    pub line: u32,
    /// What is wrong there.
    pub kind: InputKind,
}

/// Why a part of a file wasn't read.
#[derive(Clone, Copy, Debug, PartialEq, Eq, Drop)]
pub enum SchemaError {
    /// This is its first fault.
    Fault(InputFault),
    /// Memory was refused.
    OutOfMemory,
}

/// The error with this fault.
pub fn fault(file: File, line: u32, kind: InputKind) -> SchemaError
    ensures { result ≡ schema_error.Fault (record { file = file; line = line; kind = kind }) }
{
    SchemaError::Fault(InputFault { file, line, kind })
}

impl From<AllocError> for SchemaError {
    ghost use Rattle.std.specs.Prelude.{◌≡◌};
    ghost use Rattle.input_schema.specs.declared.faults.SchemaError.TheVariants.{OutOfMemory};

    ghost from_gives = { λ _ e. e ≡ OutOfMemory };

    fn from(_refused: AllocError) -> SchemaError {
        SchemaError::OutOfMemory
    }
}

impl<T: Drop> From<AllocFailed<T>> for SchemaError {
    ghost use Rattle.std.specs.Prelude.{◌≡◌};
    ghost use Rattle.input_schema.specs.declared.faults.SchemaError.TheVariants.{OutOfMemory};

    ghost from_gives = { λ _ e. e ≡ OutOfMemory };

    fn from(_refused: AllocFailed<T>) -> SchemaError {
        SchemaError::OutOfMemory
    }
}

impl From<OutOfMemory> for SchemaError {
    ghost use Rattle.std.specs.Prelude.{◌≡◌};
    ghost use Rattle.input_schema.specs.declared.faults.SchemaError.TheVariants.{OutOfMemory};

    ghost from_gives = { λ _ e. e ≡ OutOfMemory };

    fn from(_refused: OutOfMemory) -> SchemaError {
        SchemaError::OutOfMemory
    }
}
