ghost use Rattle.std.specs.Prelude.{◌≡◌, ◌≤◌, Some, Decides};
ghost use Rattle.figures.specs.Ceiling.{ceiling_of, needed_of};
ghost use Rattle.sizing.specs.Lines.{answer, figure_lines, sizing_lines};

use figures::{Figures, Form};
use std::fmt;

// What a commissioning form wants to know of a box's figures.
#[derive(Clone, Copy)]
pub struct Sizing {
    form: Form,
    // the most retired blocks that there can be
    ceiling: u32,
    // the blocks that the box must have
    needed: u32,
    // whether a keeper can have that many
    met: bool,
}

impl Sizing {
    pub fn new(figures: &Figures) -> Sizing
        ensures form { result.form ≡ figures.now.form }
        ensures ceiling { result.ceiling ≡ ceiling_of figures.now.form }
        ensures needed { result.needed ≡ needed_of figures.now.form }
        ensures met { Decides result.met (needed_of figures.now.form ≤ 2048) }
    {
        Sizing {
            form: figures.form(),
            ceiling: figures.ceiling(),
            needed: figures.blocks_needed(),
            met: figures.can_be_met(),
        }
    }
}

fn yes_or_no(met: bool) -> &'static str
    ensures { result.now ≡ answer met }
{
    if met { "yes" } else { "no" }
}

// The figures that were asked for, one to a line.
#[derive(Clone, Copy)]
pub struct Asked(Form);

impl fmt::Display for Asked {
    ghost output = { λ asked. Some (figure_lines asked.0) };

    fn fmt<W: fmt::Write>(&self, f: &mut fmt::Formatter<W>) -> fmt::Result {
        let Asked(
            Form {
                workers,
                holds,
                live,
                taking_period,
                trying_period,
                ..
            },
        ) = *self;
        write!(
            f,
            "workers W: {workers}\nholds H: {holds}\nlive blocks M: {live}\ntaking period F: {taking_period}\ntrying period G: {trying_period}\n"
        )
    }
}

impl fmt::Display for Sizing {
    ghost output = { λ sizing. Some (sizing_lines sizing) };

    fn fmt<W: fmt::Write>(&self, f: &mut fmt::Formatter<W>) -> fmt::Result {
        let asked = Asked(self.form);
        let ceiling = self.ceiling;
        let needed = self.needed;
        let met = yes_or_no(self.met);
        write!(
            f,
            "{asked}most retired blocks: {ceiling}\nblocks needed: {needed}\na keeper of at most 2048 blocks can have that many: {met}"
        )
    }
}
