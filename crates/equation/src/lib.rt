// From V to u: one row of the equations in f64, and one step of each sweep.
#![tactic(auto)]

ghost use Rattle.std.specs.Prelude.{◌≡◌, ◌≤◌, nat_abs};
ghost use Rattle.rule.specs.Floats.{whole, ◌⊖◌, ◌⊗◌};
ghost use Rattle.rule.specs.Solve.{equation, eliminate};
ghost use Rattle.rule.specs.declared.Reduced.TheVariants.{Kept};
ghost use Rattle.rule.specs.Ranges.{most_reduced};
ghost use Rattle.coefficients.specs.Ready.{Sized};

// Three coefficients and the right side d = w * V.
pub fn equation(w: u64, r: rule::Coefficients, v: i64) -> rule::Equation
    requires { (w ≤ 250_000_000_000_000) × Sized r × (nat_abs v ≤ most_reduced) }
    ensures { result ≡ equation w r v }
{
    rule::Equation {
        a: round::exact(r.a),
        b: round::exact(r.b),
        c: round::exact(r.c),
        d: round::exact(w as i64) * round::exact(v),
    }
}

// A row after one reduced to a ratio and a side. No pivot is exactly when p > 0 is false.
// `Reduced`, and no Option: the enum of two f64 values and a bare case is a form of docs/PROMISES.md, 'The listed forms'.
pub fn eliminate(r: rule::Equation, ratio: f64, side: f64) -> rule::Reduced
    ensures { result ≡ eliminate r (Kept ratio side) }
{
    let p = r.b - r.a * ratio;
    if p > 0.0 {
        rule::Reduced::Kept(r.c / p, (r.d - r.a * side) / p)
    } else {
        rule::Reduced::NoPivot
    }
}

// u of a row, unrounded, from the unrounded u after it.
pub fn above(ratio: f64, side: f64, after: f64) -> f64
    ensures { result ≡ side ⊖ ratio ⊗ after }
{
    side - ratio * after
}
