//! The places of the products of momenta in a table.

ghost use Rattle.std.specs.Prelude.{◌≡◌, ◌<◌, ◌≤◌};
ghost use Rattle.kinematics.specs.Points.{place_of, product_count};

// The place of the product of two momenta, x <= y, which are counted from 0. The momentum x has
// the products with itself and the later ones, one fewer than the momentum before it.
pub(crate) fn place_of(externals: u32, x: u32, y: u32) -> usize
    requires few { externals ≤ 6 }
    requires ordered { x ≤ y }
    requires within { y < externals }
    ensures value { result ≡ place_of externals x y }
    ensures below { result < product_count externals }
{
    let earlier = x * (2 * externals + 1 - x) / 2;
    (earlier + y - x) as usize
}

// How many products two of this many momenta have.
pub(crate) fn product_count(externals: u32) -> usize
    requires { externals ≤ 6 }
    ensures { result ≡ product_count externals }
{
    (externals * (externals + 1) / 2) as usize
}
