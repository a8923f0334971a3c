// A step but for what it stores: its checks, then its stages.
#![tactic(auto)]

ghost use Rattle.rule.specs.Counted.{lent};
ghost use Rattle.advance.specs.Advance.{left_in};
ghost use Rattle.attempt.specs.Attempt.{Attempted};

// The whole step, but for what it stores: the input checks, then 11, then the stages. An accepted step is left in what is lent.
pub fn attempt(
    c: rule::Lent,
    s: &[i64],
    step: &mut advance::Advanced,
) -> Result<(), advance::Stopped>
    ensures { Attempted (lent c.entry) s.now (left_in result step.new) }
{
    checks::check(c, Some(s))?;
    if c.counts.accepted == c.counts.wanted {
        return Err(rule::Refusal::Complete.into());
    }
    advance::advance(c, s, step)
}
