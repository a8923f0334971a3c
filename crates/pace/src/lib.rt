// "Refusal numbers": the time step beside the deepest cell's depth.
#![tactic(auto)]

ghost use Rattle.std.specs.Prelude.{◌≡◌};
ghost use Rattle.rule.specs.Checks.{deepest, timed};
ghost use Rattle.rule.specs.Refusals.{met};
ghost use Rattle.pace.specs.Asked.{Depths, Measures};

// The depth of the deepest of n cells.
pub fn deepest(n: usize, h: &[i64]) -> u64
    requires { Depths n h.now }
    ensures { result ≡ deepest n h.now }
{
    let mut most = 0;
    for depth in &h[..n] {
        most = most.max(depth.unsigned_abs());
    }
    most
}

// 26: the time step is not too long for the deepest of n cells.
pub fn check(n: usize, x: u64, t: u64, h: &[i64]) -> Result<(), rule::Refusal>
    requires { Measures n x t h.now }
    ensures { result ≡ met (timed n x t h.now) }
{
    if 9810 * deepest(n, h) * (t * t) > 6000000 * (x * x) {
        return Err(rule::Refusal::TimeStep);
    }
    Ok(())
}
