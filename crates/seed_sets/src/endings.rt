//! The lists of indices of one sector, built index by index. Whatever has been chosen, there is a
//! way to go on: so the work grows with the number of lists, and not with that of the attempts.

ghost use Rattle.std.specs.Prelude.{◌≡◌, ◌+◌, ◌<◌, ◌≤◌, ◌^◌, ℕ, All, take, OnOk, IfErr};
ghost use Rattle.integral_index.specs.Integral.{IsIndex};
ghost use Rattle.seed_sets.specs.Seeds.{IsCause};
ghost use Rattle.seed_sets.specs.Gathering.{Gains, IsAmong};
ghost use Rattle.seed_sets.specs.Endings.{Continues, choices, index_at, after};

use crate::SeedFault;
use crate::gathering::{Limit, add};
use integral_index::Integral;
use std::alloc::Global;

// The most indices that a family has.
pub(crate) const MOST: usize = 20;

// What may stand behind the indices that have been chosen: so many indices of this sector, with so
// many dots at most, whose negative ones add up to so much at most.
#[derive(Clone, Copy)]
pub(crate) struct Rest {
    pub(crate) places: u32,
    pub(crate) sector: u32,
    pub(crate) dots: u32,
    pub(crate) s: u32,
}

/// Adds the integrals of the family whose indices begin with the first `place` ones of `indices`
/// and go on as the rest allows.
pub(crate) fn extend(
    alloc: Global,
    found: &mut Vec<Integral>,
    limit: Limit,
    family: u32,
    indices: [i8; MOST],
    place: usize,
    rest: Rest,
) -> Result<(), SeedFault>
    requires most { limit.most ≤ 2 ^ 17 }
    requires some { 1 ≤ place + rest.places }
    requires room { place + rest.places ≤ 20 }
    requires chosen { All IsIndex (take place indices) }
    requires sector { rest.sector < 2 ^ rest.places }
    requires dots { rest.dots ≤ 100 }
    requires s { rest.s ≤ 100 }
    ensures members { OnOk result (Gains found.old.items found.new.items (Continues family (take place indices) rest)) }
    ensures many { IfErr result (IsCause limit.order limit.most (IsAmong found.old.items (Continues family (take place indices) rest))) }
{
    if rest.places == 0 {
        let integral = Integral::new(alloc, family, &indices[..place])?;
        return add(found, integral, limit);
    }
    for step in 0..rest.choices() {
        let mut longer = indices;
        longer[place] = rest.index(step);
        extend(
            alloc,
            found,
            limit,
            family,
            longer,
            place + 1,
            rest.after(step),
        )?;
    }
    Ok(())
}

impl Rest {
    ghost use Rattle.std.specs.Prelude.{◌≡◌, ◌≤◌, ◌<◌};
    ghost use Rattle.seed_sets.specs.Endings.{choices, index_at, after};

    // How many indices the next place may have. Only these are of the sector and within the rest.
    fn choices(self) -> u32
        requires dots { self.dots ≤ 100 }
        requires s { self.s ≤ 100 }
        ensures value { result ≡ choices self }
        ensures bound { result ≤ 101 }
    {
        if self.sector % 2 == 1 {
            self.dots + 1
        } else {
            self.s + 1
        }
    }

    // The index of this choice: 1, 2, .. where the sector has the place, and else 0, -1, ..
    fn index(self, step: u32) -> i8
        requires { step ≤ 100 }
        ensures { result ≡ index_at self step }
    {
        if self.sector % 2 == 1 {
            (step + 1) as i8
        } else {
            -(step as i8)
        }
    }

    // What may stand behind this choice.
    fn after(self, step: u32) -> Rest
        requires places { 0 < self.places }
        requires step { step < choices self }
        ensures { result ≡ after self step }
    {
        if self.sector % 2 == 1 {
            Rest {
                places: self.places - 1,
                sector: self.sector / 2,
                dots: self.dots - step,
                s: self.s,
            }
        } else {
            Rest {
                places: self.places - 1,
                sector: self.sector / 2,
                dots: self.dots,
                s: self.s - step,
            }
        }
    }
}
