mod ceilings;

ghost use Rattle.std.specs.Prelude.{◌≡◌, ℕ, ◌+◌, ◌<◌, ◌≤◌, true, Decides, MatchResult};
ghost use Rattle.figures.specs.Limits.{Fits, Fit, Outside};
ghost use Rattle.figures.specs.declared.limits.Figure.TheVariants.{Workers, Holds, Blocks, Live, TakingPeriod, TryingPeriod, StartingEra};

use crate::limits::{Figure, Form};
use crate::refusals::Refusal;

// The figures of one keeper: a form whose figures are all within their limits.
#[derive(Clone, Copy)]
pub struct Figures {
    form: Form,
    ghost workers_fit: { Fits form Workers },
    ghost holds_fit: { Fits form Holds },
    ghost blocks_fit: { Fits form Blocks },
    ghost live_fit: { Fits form Live },
    ghost taking_period_fits: { Fits form TakingPeriod },
    ghost trying_period_fits: { Fits form TryingPeriod },
    ghost starting_era_fits: { Fits form StartingEra },
}

const IN_ORDER: [Figure; 7] = [
    Figure::Workers,
    Figure::Holds,
    Figure::Blocks,
    Figure::Live,
    Figure::TakingPeriod,
    Figure::TryingPeriod,
    Figure::StartingEra,
];

impl Figures {
    // The figures of a form, refused where one is outside its limits.
    pub fn new(form: Form) -> Result<Figures, Refusal>
        ensures { MatchResult result (λ figures. (figures.form ≡ form) × Fit form) (Outside form) }
    {
        // Not by `find`: tried, and what it says of the figures before the one it finds did not come to this contract.
        for figure in IN_ORDER {
            if !form.fits(figure) {
                return Err(Refusal::Misfit(figure));
            }
        }
        Ok(Figures { form })
    }

    // The form that was checked.
    pub fn form(&self) -> Form
        ensures value { result ≡ self.now.form }
        ensures fit { Fit result }
    {
        self.form
    }
}
