//! The bound on the terms of seeded equations.

ghost use Rattle.std.specs.Prelude.{◌≡◌, ◌≤◌, ◌<◌, ◌*◌, ◌^◌, All, length};
ghost use Rattle.job_equations.specs.Bounds.{equations_of_seed, terms_of_equation, term_bound, IsEquationShape};

use integral_index::Integral;

/// What the bound needs to know of a family.
#[derive(Clone, Copy, Debug, PartialEq, Eq)]
pub struct EquationShape {
    /// The number of loop momenta, from 1 to 6.
    pub loops: u32,
    /// The number of independent external momenta, at most 6.
    pub externals: u32,
    /// The number of denominators, at most 20.
    pub width: u32,
    /// The number of symmetries, at most 64.
    pub symmetries: u32,
}

/// The bound on the terms of all equations of the seeds: the sum over the families, each the place of its
/// shape, of the number of its seeds, times the equations of one seed, times the terms of one equation.
/// It is known before any equation is written.
pub fn term_bound(shapes: &[EquationShape], seeds: &[Integral]) -> u64
    requires shapes { All IsEquationShape shapes.now }
    requires families { All (λ seed. seed.family < length shapes.now) seeds.now }
    requires few { length seeds.now ≤ 2 ^ 17 }
    ensures { result ≡ term_bound shapes.now seeds.now }
{
    let mut bound = 0;
    for seed in seeds {
        bound += terms_of_seed(&shapes[seed.family() as usize]);
    }
    bound
}

// The bound on the terms of the equations of one seed.
fn terms_of_seed(shape: &EquationShape) -> u64
    requires { IsEquationShape shape.now }
    ensures value { result ≡ equations_of_seed shape.now * terms_of_equation shape.now }
    ensures most { result ≤ 136 * 421 }
{
    let equations = shape.loops * (shape.loops + shape.externals) + shape.symmetries;
    let terms = shape.width * shape.width + shape.width + 1;
    u64::from(equations) * u64::from(terms)
}
