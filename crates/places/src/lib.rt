// Refusal numbers: a test that fails, and the lowest place of what does not pass, found by one step of a loop over any row.
#![tactic(auto)]

ghost use Rattle.std.specs.Prelude.{◌≡◌, ◌+◌, ◌<◌, ◌^◌};
ghost use Rattle.rule.specs.Refusals.{met, require};
ghost use Rattle.places.specs.Lowest.{lower_place};

// The refusal where a test fails.
pub fn require(passes: bool, refusal: rule::Refusal) -> Result<(), rule::Refusal>
    ensures { result ≡ met (require passes refusal) }
{
    if passes { Ok(()) } else { Err(refusal) }
}

// The lowest place, counted from 1, of an entry that does not pass, once the entry after j others is looked at too: none as long
// as every entry passes.
pub fn lower(place: Option<u64>, passes: bool, j: usize) -> Option<u64>
    requires { j + 1 < 2 ^ 64 }
    ensures { result ≡ lower_place place passes j }
{
    if place.is_none() & !passes {
        return Some(j as u64 + 1);
    }
    place
}
