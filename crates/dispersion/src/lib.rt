// Flux: M of each cell, the dispersive part before it is taken to the faces.
#![tactic(auto)]

ghost use Rattle.std.specs.Prelude.{◌≡◌, ◌<◌, take};
ghost use Rattle.rule.specs.Channel as rule;
ghost use Rattle.rule.specs.Flux.{second, M, Ms};
ghost use Rattle.dispersion.specs.Asked.{Cells, Cell, Bed};

// On cells j - 1 to j + 1.
const SECOND: [i64; 3] = [1, -2, 1];

// A or B of cell j.
fn second(n: usize, row: &[i64], j: usize) -> i64
    requires { Cells 1_000_000_000_000_000 n row.now × (j < n) }
    ensures { result ≡ second n row.now j }
{
    rows::weigh::<rows::Odd>(row, n, j + 3, &SECOND)
}

// M of a cell, from its 1000h, x, A and B.
fn cell_value(h: i64, x: u64, a: i64, b: i64) -> f64
    requires { Cell h x a b }
    ensures { result ≡ M h x a b }
{
    let r = round::exact(h) / round::exact(x as i64);
    let k = 154117.0 * round::exact(h * a) + 186000.0 * round::exact(b);
    -(((r * r) * k) / 6000000.0)
}

// M of each cell, from the rows h, u and 1000h·u.
pub fn cell_values(n: usize, x: u64, h: &[i64], u: &[i64], hu: &[i64]) -> [f64; rule::MOST_CELLS]
    requires { Bed n x h.now u.now hu.now }
    ensures { take n result ≡ Ms n x (rule.bottom n h.now) u.now hu.now }
{
    let mut ms = [0.0; rule::MOST_CELLS];
    for (j, m) in ms[..n].iter_mut().enumerate() {
        *m = cell_value(1000 * h[j], 1000 * x, second(n, u, j), second(n, hu, j));
    }
    ms
}
