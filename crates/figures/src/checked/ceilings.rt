ghost use Rattle.std.specs.Prelude.{◌≡◌, ◌≤◌, Decides};
ghost use Rattle.figures.specs.Ceiling.{ceiling_of, needed_of, WorkedExamples, CountsPlaces, NoneLarger, NeverFalls, LeavesOne};

use crate::checked::Figures;
use crate::limits::{Figure, Form};

impl Figures {
    // The most retired blocks that there can be, whatever the workers do.
    pub fn ceiling(&self) -> u32
        ensures value { result ≡ ceiling_of self.now.form }
        ensures bound { result ≤ 13148672 }
        ensures counts_places { CountsPlaces }
    {
        let workers = u32::from(self.form.workers);
        let holds = u32::from(self.form.holds);
        let live = u32::from(self.form.live);
        let taking_period = u32::from(self.form.taking_period);
        let trying_period = u32::from(self.form.trying_period);
        let reach = live + workers * (taking_period + 1);
        workers * (2 * (holds + 1) * reach + 1) * (workers * holds + trying_period)
    }

    // The blocks that a box must have, so that a taking is never refused for want of one.
    pub fn blocks_needed(&self) -> u32
        ensures value { result ≡ needed_of self.now.form }
        ensures leaves_one { LeavesOne self.now.form result }
    {
        u32::from(self.form.live) + self.ceiling()
    }

    // Whether a keeper can have as many blocks as that.
    pub fn can_be_met(&self) -> bool
        ensures { Decides result (needed_of self.now.form ≤ 2048) }
    {
        self.blocks_needed() <= self.form.most(Figure::Blocks)
    }

    // Whether a box with the blocks that these figures need has enough for `other` too, since no figure is larger there.
    pub fn cover(&self, other: &Figures) -> bool
        ensures test { Decides result (NoneLarger other.now.form self.now.form) }
        ensures never_falls { NeverFalls }
    {
        // No derived order: that compares the first figures that differ, and no others.
        let one = other.form;
        let form = self.form;
        one.workers <= form.workers
            && one.holds <= form.holds
            && one.live <= form.live
            && one.taking_period <= form.taking_period
            && one.trying_period <= form.trying_period
    }

    // The worked example: two workers with three holds each, and at most fourteen live blocks.
    pub fn worked_example() -> Figures
        ensures form { result.form ≡ record { workers = 2; holds = 3; blocks = 2048; live = 14; taking_period = 1; trying_period = 1; starting_era = 1 } }
        ensures ceilings { WorkedExamples }
    {
        Figures {
            form: Form {
                workers: 2,
                holds: 3,
                blocks: 2048,
                live: 14,
                taking_period: 1,
                trying_period: 1,
                starting_era: 1,
            },
        }
    }
}
