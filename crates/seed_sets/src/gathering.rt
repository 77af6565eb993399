//! A set of integrals that grows up to a limit: a list in any order, in which an integral may come
//! again. From time to time it is sorted and what comes again is left out, so that it never holds
//! more than about twice as many as the limit.

ghost use Rattle.std.specs.Prelude.{◌≡◌, ◌↔◌, ◌≤◌, ◌^◌, ◌⊎◌, ℕ, Contains, length, OnOk, IfErr};
ghost use Rattle.integral_index.specs.Integral.{Integral as IntegralValue};
ghost use Rattle.seed_sets.specs.Seeds.{Ascends, IsCause};
ghost use Rattle.seed_sets.specs.Gathering.{Gains, IsAmong};

use crate::SeedFault;
use integral_index::{Integral, Order};

// How many different integrals are allowed, and the order in which they ascend.
#[derive(Clone, Copy)]
pub(crate) struct Limit {
    pub(crate) order: Order,
    pub(crate) most: u64,
}

/// Adds an integral. It fails only where more different ones than the limit are there then.
pub(crate) fn add(
    found: &mut Vec<Integral>,
    integral: Integral,
    limit: Limit,
) -> Result<(), SeedFault>
    requires { limit.most ≤ 2 ^ 17 }
    ensures members { OnOk result (Gains found.old.items found.new.items (λ y. integral ≡ y)) }
    ensures many { IfErr result (IsCause limit.order limit.most (IsAmong found.old.items (λ y. integral ≡ y))) }
{
    found.push(integral)?;
    if found.len() as u64 > 2 * limit.most {
        settle(found, limit)?;
    }
    Ok(())
}

/// Lets the integrals ascend, each once, and fails where there are more than the limit then.
pub(crate) fn settle(found: &mut Vec<Integral>, limit: Limit) -> Result<(), SeedFault>
    requires { limit.most ≤ 2 ^ 17 }
    ensures ascends { Ascends limit.order found.new.items }
    ensures members { (y : IntegralValue) → Contains found.new.items y ↔ Contains found.old.items y }
    ensures few { OnOk result (length found.new.items ≤ limit.most) }
    ensures many { IfErr result (IsCause limit.order limit.most (Contains found.old.items)) }
{
    ascend(found, limit.order);
    if found.len() as u64 > limit.most {
        return Err(SeedFault::TooMany {
            count: limit.most + 1,
        });
    }
    Ok(())
}

/// Lets the integrals ascend, each once.
fn ascend(found: &mut Vec<Integral>, order: Order)
    ensures ascends { Ascends order found.new.items }
    ensures members { (y : IntegralValue) → Contains found.new.items y ↔ Contains found.old.items y }
{
    found.sort_unstable_by(|x, y| order.compare(x, y));
    found.dedup_by(|x, y| order.compare(x, y).is_eq());
}
