ghost use Rattle.std.specs.Prelude.{◌≡◌, ◌<◌, map, string_bytes, MatchResult};
ghost use Rattle.sizing.specs.declared.complaints.Complaint.TheVariants.{Unfit};
ghost use Rattle.sizing.specs.Arguments.{complaint, most_asked, Good, Bad, Read, Answered};

use crate::complaints::Complaint;
use figures::{Figure, Figures, Form, Refusal};

// The largest figures that can be asked for, with the starting era that a sizing does not depend on.
pub const LARGEST: Form = Form {
    workers: 8,
    holds: 4,
    blocks: 2048,
    live: 2048,
    taking_period: 64,
    trying_period: 32,
    starting_era: 1,
};

impl From<Refusal> for Complaint {
    ghost from_gives = { λ refusal r. r ≡ complaint refusal };

    fn from(refusal: Refusal) -> Complaint {
        match refusal {
            Refusal::Misfit(figure) => Complaint::Unfit(figure),
        }
    }
}

// The number that a word says, for one of the figures.
fn number_for(word: &str, figure: Figure) -> Result<u16, Complaint>
    requires { most_asked figure < 65536 }
    ensures { MatchResult result (λ n. Good word.now figure n) (λ complaint. (complaint ≡ Unfit figure) × Bad word.now figure) }
{
    let unfit = Complaint::Unfit(figure);
    let n = word.parse::<u16>().map_err(|_| unfit)?;
    if !(1..=LARGEST.most(figure)).contains(&u32::from(n)) {
        return Err(unfit);
    }
    Ok(n)
}

// The figures that five words say, in the order W H M F G.
fn figures_of(w: &str, h: &str, m: &str, f: &str, g: &str) -> Result<Figures, Complaint>
    ensures { Read w.now h.now m.now f.now g.now result }
{
    let form = Form {
        workers: number_for(w, Figure::Workers)?,
        holds: number_for(h, Figure::Holds)?,
        live: number_for(m, Figure::Live)?,
        taking_period: number_for(f, Figure::TakingPeriod)?,
        trying_period: number_for(g, Figure::TryingPeriod)?,
        ..LARGEST
    };
    Ok(Figures::new(form)?)
}

// The figures that are asked for: the worked example's where no argument is given.
pub fn figures_asked_for(words: &[String]) -> Result<Figures, Complaint>
    ensures { Answered (map string_bytes words.now) result }
{
    match words {
        [] => Ok(Figures::worked_example()),
        [_] => Err(Complaint::Missing(Figure::Holds)),
        [_, _] => Err(Complaint::Missing(Figure::Live)),
        [_, _, _] => Err(Complaint::Missing(Figure::TakingPeriod)),
        [_, _, _, _] => Err(Complaint::Missing(Figure::TryingPeriod)),
        [w, h, m, f, g] => figures_of(w.as_str(), h.as_str(), m.as_str(), f.as_str(), g.as_str()),
        _ => Err(Complaint::Extra),
    }
}
