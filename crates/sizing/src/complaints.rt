ghost use Rattle.std.specs.Prelude.{Some};
ghost use Rattle.sizing.specs.Lines.{complaint_line};

use crate::arguments::LARGEST;
use figures::Figure;
use std::fmt;

// Why the arguments are refused.
#[derive(Clone, Copy, PartialEq, Debug)]
pub enum Complaint {
    // There is no argument for this figure.
    Missing(Figure),
    // The argument for this figure is the first that is not a number within its limits.
    Unfit(Figure),
    // There is an argument after the last figure's.
    Extra,
}

impl fmt::Display for Complaint {
    ghost output = { λ complaint. Some (complaint_line complaint) };

    fn fmt<W: fmt::Write>(&self, f: &mut fmt::Formatter<W>) -> fmt::Result {
        match *self {
            Complaint::Missing(figure) => {
                let most = LARGEST.most(figure);
                write!(f, "{figure} is missing: give a number from 1 to {most}")
            }
            Complaint::Unfit(figure) => {
                let most = LARGEST.most(figure);
                write!(f, "{figure} must be a number from 1 to {most}")
            }
            Complaint::Extra => f.write_str(
                "the sixth argument is one too many: give workers W from 1 to 8, holds H from 1 to 4, live blocks M from 1 to 2048, taking period F from 1 to 64 and trying period G from 1 to 32",
            ),
        }
    }
}
