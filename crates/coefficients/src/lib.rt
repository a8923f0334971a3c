// From V to u: the coefficients of each cell's row, and whether they are dominant.
#![tactic(auto)]

ghost use Rattle.std.specs.Prelude.{◌≡◌, ◌<◌, ◌≤◌, nat_abs};
ghost use Rattle.whole.specs.Row.{tab};
ghost use Rattle.rule.specs.declared.Refusal.TheVariants.{Dominance};
ghost use Rattle.rule.specs.Refusals.{met};
ghost use Rattle.rule.specs.Checks.{each};
ghost use Rattle.rule.specs.Coefficients.{scale, beside, coefficients, dominant};
ghost use Rattle.rule.specs.Ranges.{most_width, most_depth};
ghost use Rattle.coefficients.specs.Ready.{Bed, Sized};

// w, which V is taken times.
pub fn scale(x: u64) -> u64
    requires { x ≤ most_width }
    ensures { result ≡ scale x }
{
    10000000 * (x * x)
}

// a or c of a cell of depth h, beside one of depth k.
fn beside(h: i64, k: i64) -> i64
    requires { (nat_abs h ≤ most_depth) × (nat_abs k ≤ most_depth) }
    ensures { result ≡ beside h k }
{
    h * (1409805 * h - 5310000 * k)
}

// The row of cell j. At a wall b grows, and the coefficient on its side is dropped.
pub fn coefficients(n: usize, x: u64, h: &[i64], j: usize) -> rule::Coefficients
    requires { Bed n x h.now × (j < n) }
    ensures { result ≡ coefficients n x h.now j }
{
    let here = h[j];
    let hh = here * here;
    let inner = scale(x) as i64 + 7800390 * hh;
    let walled = inner + 3900195 * hh;
    if j == 0 {
        let c = beside(here, h[j + 1]);
        return rule::Coefficients { a: 0, b: walled, c };
    }
    let a = beside(here, h[j - 1]);
    if j + 1 == n {
        return rule::Coefficients { a, b: walled, c: 0 };
    }
    let c = beside(here, h[j + 1]);
    rule::Coefficients { a, b: inner, c }
}

// b is greater than |a| + |c|.
pub fn dominant(r: rule::Coefficients) -> bool
    requires { Sized r }
    ensures { result ≡ dominant r }
{
    r.a.unsigned_abs() + r.c.unsigned_abs() < r.b.unsigned_abs()
}

// 5: every row is dominant, or the refusal of the lowest cell whose row is not.
pub fn check(n: usize, x: u64, h: &[i64]) -> Result<(), rule::Refusal>
    requires { Bed n x h.now }
    ensures { result ≡ met (each dominant (tab n (coefficients n x h.now)) Dominance) }
{
    let mut lowest = None;
    for j in 0..n {
        lowest = places::lower(lowest, dominant(coefficients(n, x, h, j)), j);
    }
    if let Some(place) = lowest {
        return Err(rule::Refusal::Dominance(place));
    }
    Ok(())
}
