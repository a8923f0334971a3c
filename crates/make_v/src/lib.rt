// Make: from u to V.
#![tactic(auto)]

ghost use Rattle.std.specs.Prelude.{◌≡◌, ◌<◌, length};
ghost use Rattle.whole.specs.Row.{padded};
ghost use Rattle.rule.specs.Rows.{cell};
ghost use Rattle.rule.specs.Floats.{whole, ◌⊗◌};
ghost use Rattle.rule.specs.Coefficients.{scale, coefficients};
ghost use Rattle.rule.specs.Refusals.{met_as};
ghost use Rattle.rule.specs.Make.{reduced_velocity, reduced_velocities};
ghost use Rattle.make_v.specs.Velocities.{Given};

// A coefficient times the velocity of cell j.
fn term(k: i64, u: &[i64], j: usize) -> f64
    requires { j < length u.now }
    ensures { result ≡ whole k ⊗ whole (cell u.now j) }
{
    round::to_float(k) * round::to_float(u[j])
}

// V of cell j, unrounded. The term of a dropped coefficient is left out.
fn reduced_velocity(n: usize, x: u64, h: &[i64], u: &[i64], j: usize) -> f64
    requires { Given n x h.now u.now × (j < n) }
    ensures { result ≡ reduced_velocity n (scale x) (coefficients n x h.now j) u.now j }
{
    let r = coefficients::coefficients(n, x, h, j);
    let w = round::to_float(coefficients::scale(x) as i64);
    let middle = term(r.b, u, j);
    if j == 0 {
        return (middle + term(r.c, u, j + 1)) / w;
    }
    let left = term(r.a, u, j - 1);
    if j + 1 == n {
        return (left + middle) / w;
    }
    (left + middle + term(r.c, u, j + 1)) / w
}

// V of each cell; or refusal 7.
pub fn reduced_velocities(
    n: usize,
    x: u64,
    h: &[i64],
    u: &[i64],
) -> Result<[i64; rule::MOST_CELLS], rule::Refusal>
    requires { Given n x h.now u.now }
    ensures { result ≡ met_as (padded n) (reduced_velocities n x h.now u.now) }
{
    let mut unrounded = [0.0; 256];
    for (j, v) in unrounded[..n].iter_mut().enumerate() {
        *v = reduced_velocity(n, x, h, u, j);
        if !round::within(*v, rule::MOST_REDUCED) {
            return Err(rule::Refusal::Speed);
        }
    }
    Ok(solve::rounded_row(n, &unrounded))
}
