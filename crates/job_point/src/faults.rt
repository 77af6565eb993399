//! Why a job has no plan.

ghost use Rattle.std.specs.Prelude.{◌≡◌};
ghost use Rattle.job_point.specs.Values as values;
ghost use Rattle.job_point.specs.Point as point;

use field_word::Composite;
use input_schema::{File, InputFault, InputKind};
use kinematics::PointFault;
use matrix_elimination::Vector;
use out_of_memory::OutOfMemory;
use propagators::BasisFault;
use rational_expressions::ValueFault;
use std::alloc::{AllocError, AllocFailed};
use std::fmt;
use symmetry_maps::MapFault;
use thiserror::Error;

/// What has no value, or not just one, at the numeric point. The project's own.
#[derive(Debug, Drop, Error)]
pub enum Singular {
    /// A division by zero: its file, its line, counted from 1, or the place of its word, and the offset of
    /// its `/` in the value, counted from 0.
    #[error("division by zero at byte {at} of line {line}")]
    ZeroDivisor { file: File, line: u32, at: u32 },
    /// Several tables of products meet the rules: the product of each rule vanishes over this vector,
    /// whose entries are residues in the order of the tables. Its first entry other than 0 is 1.
    #[error("the rules leave a product open")]
    RulesOpen { vector: Vector },
    /// The denominators of the family with this number, counted from 0, sum to a constant, each as often
    /// as the entry of this vector says, a residue. Its first entry other than 0 is 1.
    #[error("the denominators of family {family} are dependent")]
    NotBasis { family: u32, vector: Vector },
}

/// What a job has too many of. The limits are the project's own.
#[derive(Clone, Copy, Debug, PartialEq, Eq, Drop)]
pub enum Excess {
    /// The seeds under `reduce`: more than 2^17.
    Seeds,
    /// The selected integrals: more than 2^17.
    Selected,
    /// The terms of the seeded equations, as their bound counts them: more than 2^24.
    Terms,
}

impl fmt::Display for Excess {
    fn fmt<W: fmt::Write>(&self, f: &mut fmt::Formatter<W>) -> fmt::Result {
        match self {
            Excess::Seeds => write!(f, "more than 131072 seeds"),
            Excess::Selected => write!(f, "more than 131072 selected integrals"),
            Excess::Terms => write!(f, "more than 16777216 terms"),
        }
    }
}

/// Why a job has no plan, or none was found. The project's own.
#[derive(Debug, Drop, Error)]
pub enum PlanError {
    /// An input is at fault.
    #[error("an input is at fault")]
    Input(InputFault),
    /// What it says has no value at the numeric point.
    #[error(transparent)]
    Singular(Singular),
    /// No table meets the rules: under these multipliers, one residue for each rule, their products cancel
    /// over every table, and their values sum to the residue, which isn't 0.
    #[error("the rules clash")]
    RulesClash { multipliers: Vector, residue: u64 },
    /// A number that has to be inverted has no inverse, so the modulus isn't prime: a divisor of it.
    #[error(transparent)]
    Composite(Composite),
    /// There are too many of these: the count is one more than allowed for seeds and for selected
    /// integrals, which are counted up to it, and the exact number for terms.
    #[error("{what}")]
    TooMany { what: Excess, count: u64 },
    /// Memory was refused.
    #[error("out of memory")]
    OutOfMemory,
}

/// The fault of a value that stands on this line of this file.
pub(crate) fn value_error(file: File, line: u32, fault: ValueFault) -> PlanError
    ensures { result ≡ values.fault_at file line fault }
{
    match fault {
        ValueFault::ZeroDivisor { at } => {
            PlanError::Singular(Singular::ZeroDivisor { file, line, at })
        }
        ValueFault::Composite(composite) => PlanError::Composite(composite),
    }
}

/// The fault of the rules.
pub(crate) fn point_error(fault: PointFault) -> PlanError
    ensures { result ≡ point.point_error_of fault }
{
    match fault {
        PointFault::RulesClash {
            multipliers,
            residue,
        } => {
            PlanError::RulesClash {
                multipliers,
                residue,
            }
        }
        PointFault::RulesOpen { vector } => PlanError::Singular(Singular::RulesOpen { vector }),
        PointFault::Composite(composite) => PlanError::Composite(composite),
        PointFault::OutOfMemory => PlanError::OutOfMemory,
    }
}

/// The fault of the denominators of the family with this number.
pub(crate) fn basis_error(family: u32, fault: BasisFault) -> PlanError
    ensures { result ≡ point.basis_error_of family fault }
{
    match fault {
        BasisFault::NotBasis { vector } => {
            PlanError::Singular(Singular::NotBasis { family, vector })
        }
        BasisFault::Composite(composite) => PlanError::Composite(composite),
        BasisFault::OutOfMemory => PlanError::OutOfMemory,
    }
}

/// The fault of the map on this line of the file of families.
pub(crate) fn map_error(line: u32, fault: MapFault) -> PlanError
    ensures { result ≡ point.map_error_of line fault }
{
    match fault {
        MapFault::NotAPermutation { .. } => {
            PlanError::Input(InputFault {
                file: File::Families,
                line,
                kind: InputKind::NotAPermutation,
            })
        }
        MapFault::OutOfMemory => PlanError::OutOfMemory,
    }
}

impl From<AllocError> for PlanError {
    ghost use Rattle.std.specs.Prelude.{◌≡◌};
    ghost use Rattle.job_point.specs.declared.faults.PlanError.TheVariants.{OutOfMemory};

    ghost from_gives = { λ _ e. e ≡ OutOfMemory };

    fn from(_refused: AllocError) -> PlanError {
        PlanError::OutOfMemory
    }
}

impl<T: Drop> From<AllocFailed<T>> for PlanError {
    ghost use Rattle.std.specs.Prelude.{◌≡◌};
    ghost use Rattle.job_point.specs.declared.faults.PlanError.TheVariants.{OutOfMemory};

    ghost from_gives = { λ _ e. e ≡ OutOfMemory };

    fn from(_refused: AllocFailed<T>) -> PlanError {
        PlanError::OutOfMemory
    }
}

impl From<OutOfMemory> for PlanError {
    ghost use Rattle.std.specs.Prelude.{◌≡◌};
    ghost use Rattle.job_point.specs.declared.faults.PlanError.TheVariants.{OutOfMemory};

    ghost from_gives = { λ _ e. e ≡ OutOfMemory };

    fn from(_refused: OutOfMemory) -> PlanError {
        PlanError::OutOfMemory
    }
}
