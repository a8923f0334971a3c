// Acceleration: F in the cells.
#![tactic(auto)]

ghost use Rattle.std.specs.Prelude.{◌≡◌, ◌<◌};
ghost use Rattle.whole.specs.Row.{padded};
ghost use Rattle.rule.specs.Acceleration.{undamped, acceleration, accelerations};
ghost use Rattle.dispersion.specs.Asked.{Moving, Damped};

use rows::{Even, Odd};

// On cells j - 2 to j + 2.
const SLOPE: [i64; 5] = [1, -8, 0, 8, -1];

// What gravity and advection give in cell j, before damping.
fn undamped(n: usize, x: u64, e: &[i64], u: &[i64], j: usize) -> i64
    requires { Moving n x e.now u.now × (j < n) }
    ensures { result ≡ undamped n x e.now u.now j }
{
    let gravity = 9_810_000 * rows::weigh::<Even>(e, n, j + 2, &SLOPE);
    let advection = u[j] * rows::weigh::<Odd>(u, n, j + 2, &SLOPE);
    -round::rounded(gravity + advection, 12 * (1000 * x))
}

// F of cell j: each of its two parts is rounded by itself.
fn acceleration(n: usize, x: u64, e: &[i64], u: &[i64], damping: &[i64], j: usize) -> i64
    requires { Damped n x e.now u.now damping.now × (j < n) }
    ensures { result ≡ acceleration n x e.now u.now damping.now j }
{
    let drag = round::rounded(damping[j] * u[j], 1000);
    undamped(n, x, e, u, j) - drag
}

pub fn accelerations(
    n: usize,
    x: u64,
    e: &[i64],
    u: &[i64],
    damping: &[i64],
) -> [i64; rule::MOST_CELLS]
    requires { Damped n x e.now u.now damping.now }
    ensures { result ≡ padded n (accelerations n x e.now u.now damping.now) }
{
    let mut row = [0; rule::MOST_CELLS];
    for (j, f) in row[..n].iter_mut().enumerate() {
        *f = acceleration(n, x, e, u, damping, j);
    }
    row
}
