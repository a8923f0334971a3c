// The stages of a step: a prediction, and corrections until they settle.
#![tactic(auto)]

ghost use Rattle.std.specs.Prelude.{◌≡◌};
ghost use Rattle.rule.specs.Counted.{lent};
ghost use Rattle.stage.specs.Asked.{Staging};
ghost use Rattle.advance.specs.Advance.{left_in, Advances};

// An accepted step: the count of its corrections, and the trial that settled.
#[derive(Drop)]
pub struct Advanced {
    pub count: u64,
    pub trial: stage::Trial,
}

// A refused step, and the stage at which it was: 0 is before any correction.
#[derive(Clone, Copy, Debug, PartialEq, Eq, Drop)]
pub struct Stopped {
    pub refusal: rule::Refusal,
    pub stage: u64,
}

impl From<rule::Refusal> for Stopped {
    ghost from_gives = { λ r t. t ≡ record { refusal = r; stage = 0 } };

    fn from(refusal: rule::Refusal) -> Stopped {
        Stopped { refusal, stage: 0 }
    }
}

// A correction uses the trial Q and F of the stage before. An accepted step is left in what is lent, where every trial takes the
// place of the one before: a trial that is answered by value is 10 KiB of stack, cleared and copied, in each function that it passes.
pub fn advance(c: rule::Lent, s: &[i64], step: &mut Advanced) -> Result<(), Stopped>
    requires { Staging (lent c) s.now }
    ensures { Advances (lent c.entry) s.now (left_in result step.new) }
{
    step.trial = stage::prediction(c, s)?;
    for k in 1..=10 {
        let before = &step.trial;
        let new = match stage::correction(c, s, before) {
            Ok(new) => new,
            Err(refusal) => return Err(Stopped { refusal, stage: k }),
        };
        let settled = new.settled(c.counts.n, before);
        step.trial = new;
        if settled {
            step.count = k;
            return Ok(());
        }
    }
    Err(Stopped {
        refusal: rule::Refusal::Unsettled,
        stage: 10,
    })
}
