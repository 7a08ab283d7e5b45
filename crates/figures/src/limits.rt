ghost use Rattle.std.specs.Prelude.{◌≡◌, Some, Decides};
ghost use Rattle.figures.specs.Limits.{value, most, Fits};
ghost use Rattle.figures.specs.Printed.{word};

use std::fmt;

// The figures as a commissioning form has them: any numbers at all.
#[derive(Clone, Copy, PartialEq, Eq, Debug)]
pub struct Form {
    // W: how many workers the keeper has
    pub workers: u16,
    // H: how many holds each worker has
    pub holds: u16,
    // N: how many blocks there are
    pub blocks: u16,
    // M: how many blocks may be live at once
    pub live: u16,
    // F: a worker raises the era at every F-th of its takings
    pub taking_period: u16,
    // G: a worker tries its batch at every G-th of its retirings
    pub trying_period: u16,
    // the era at the making
    pub starting_era: u32,
}

// Which figure of a form is meant.
#[derive(Clone, Copy, PartialEq, Eq, Debug)]
pub enum Figure {
    Workers,
    Holds,
    Blocks,
    Live,
    TakingPeriod,
    TryingPeriod,
    StartingEra,
}

impl fmt::Display for Figure {
    ghost output = { λ figure. Some (word figure) };

    fn fmt<W: fmt::Write>(&self, f: &mut fmt::Formatter<W>) -> fmt::Result {
        match self {
            Figure::Workers => f.write_str("workers W"),
            Figure::Holds => f.write_str("holds H"),
            Figure::Blocks => f.write_str("blocks N"),
            Figure::Live => f.write_str("live blocks M"),
            Figure::TakingPeriod => f.write_str("taking period F"),
            Figure::TryingPeriod => f.write_str("trying period G"),
            Figure::StartingEra => f.write_str("starting era"),
        }
    }
}

impl Form {
    // The number that stands for a figure.
    pub fn value(&self, figure: Figure) -> u32
        ensures { result ≡ value self.now figure }
    {
        match figure {
            Figure::Workers => u32::from(self.workers),
            Figure::Holds => u32::from(self.holds),
            Figure::Blocks => u32::from(self.blocks),
            Figure::Live => u32::from(self.live),
            Figure::TakingPeriod => u32::from(self.taking_period),
            Figure::TryingPeriod => u32::from(self.trying_period),
            Figure::StartingEra => self.starting_era,
        }
    }

    // The most that a figure may be; each is at least 1.
    pub fn most(&self, figure: Figure) -> u32
        ensures { result ≡ most self.now figure }
    {
        match figure {
            Figure::Workers => 8,
            Figure::Holds => 4,
            Figure::Blocks => 2048,
            Figure::Live => u32::from(self.blocks),
            Figure::TakingPeriod => 64,
            Figure::TryingPeriod => 32,
            Figure::StartingEra => u32::MAX,
        }
    }

    // Whether a figure is within its limits.
    pub fn fits(&self, figure: Figure) -> bool
        ensures { Decides result (Fits self.now figure) }
    {
        (1..=self.most(figure)).contains(&self.value(figure))
    }
}
