// An answer in one number, as C is given it.
#![tactic(auto)]

ghost use Rattle.std.specs.Prelude.{◌≡◌};
ghost use Rattle.rule.specs.Calls.{packed};
ghost use Rattle.packing.specs.Small.{Small};

// Stage, number, place and count stand in it from the lowest bit, from the eighth, the sixteenth and the twenty-fifth on.
pub fn pack(a: rule::Answer) -> u64
    requires { Small a }
    ensures { result ≡ packed a }
{
    a.count * 33554432 + a.place * 65536 + a.number * 256 + a.stage
}
