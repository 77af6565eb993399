//! The seeds of one spec, sector by sector.

ghost use Rattle.std.specs.Prelude.{◌≡◌, ◌<◌, ◌≤◌, ◌^◌, OnOk, IfErr, IfSome};
ghost use Rattle.seed_sets.specs.Seeds.{IsCause, IsSeed};
ghost use Rattle.seed_sets.specs.Gathering.{Gains, IsAmong};
ghost use Rattle.seed_sets.specs.Sectors.{is_wanted, IsOfSector, most_dots};

use crate::endings::{MOST, Rest, extend};
use crate::gathering::Limit;
use crate::{SeedFault, Shape, Spec};
use integral_index::{Integral, ZeroSectors};
use std::alloc::Global;

/// Adds the seeds of the spec, whose family has the shape.
pub(crate) fn add_spec(
    alloc: Global,
    found: &mut Vec<Integral>,
    spec: &Spec,
    shape: &Shape,
    limit: Limit,
) -> Result<(), SeedFault>
    requires most { limit.most ≤ 2 ^ 17 }
    requires some { 1 ≤ shape.now.width }
    requires wide { shape.now.width ≤ 20 }
    requires sector { spec.now.sector < 2 ^ shape.now.width }
    requires r { spec.now.r ≤ 100 }
    requires s { spec.now.s ≤ 100 }
    ensures members { OnOk result (Gains found.old.items found.new.items (IsSeed spec.now shape.now)) }
    ensures many { IfErr result (IsCause limit.order limit.most (IsAmong found.old.items (IsSeed spec.now shape.now))) }
{
    for sector in 0..spec.sector + 1 {
        add_sector(alloc, found, spec, shape, sector, limit)?;
    }
    Ok(())
}

// Whether seeds of a spec that names the other sector may be of this one.
fn is_wanted(sector: u32, other: u32, zeros: &ZeroSectors) -> bool
    ensures { result ≡ is_wanted sector other zeros.now }
{
    sector & other == sector && !zeros.is_zero(sector)
}

// Adds the seeds of one sector: none where the sector isn't wanted, or has more places than r.
fn add_sector(
    alloc: Global,
    found: &mut Vec<Integral>,
    spec: &Spec,
    shape: &Shape,
    sector: u32,
    limit: Limit,
) -> Result<(), SeedFault>
    requires most { limit.most ≤ 2 ^ 17 }
    requires some { 1 ≤ shape.now.width }
    requires wide { shape.now.width ≤ 20 }
    requires sector { sector < 2 ^ shape.now.width }
    requires r { spec.now.r ≤ 100 }
    requires s { spec.now.s ≤ 100 }
    ensures members { OnOk result (Gains found.old.items found.new.items (IsOfSector spec.now shape.now sector)) }
    ensures many { IfErr result (IsCause limit.order limit.most (IsAmong found.old.items (IsOfSector spec.now shape.now sector))) }
{
    if !is_wanted(sector, spec.sector, &shape.zeros) {
        return Ok(());
    }
    let t = sector.count_ones();
    if spec.r < t {
        return Ok(());
    }
    let rest = Rest {
        places: shape.width,
        sector,
        dots: most_dots(spec.d, spec.r - t),
        s: spec.s,
    };
    extend(alloc, found, limit, spec.family, [0; MOST], 0, rest)
}

// The most dots of an integral whose r may be so far above its t.
fn most_dots(d: Option<u32>, room: u32) -> u32
    ensures value { result ≡ most_dots d room }
    ensures bound { result ≤ room }
{
    match d {
        Some(dots) => dots.min(room),
        None => room,
    }
}
