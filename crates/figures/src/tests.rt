use crate::{Figure, Figures, Form, Refusal};
use faults::Fault;
use std::test::Fail;

const LEAST: Form = Form {
    workers: 1,
    holds: 1,
    blocks: 1,
    live: 1,
    taking_period: 1,
    trying_period: 1,
    starting_era: 1,
};

const MOST: Form = Form {
    workers: 8,
    holds: 4,
    blocks: 2048,
    live: 2048,
    taking_period: 64,
    trying_period: 32,
    starting_era: 4_294_967_295,
};

// A form with another number for one of its figures.
fn changed(form: Form, figure: Figure, to: u16) -> Form {
    match figure {
        Figure::Workers => Form {
            workers: to,
            ..form
        },
        Figure::Holds => Form { holds: to, ..form },
        Figure::Blocks => Form { blocks: to, ..form },
        Figure::Live => Form { live: to, ..form },
        Figure::TakingPeriod => Form {
            taking_period: to,
            ..form
        },
        Figure::TryingPeriod => Form {
            trying_period: to,
            ..form
        },
        Figure::StartingEra => Form {
            starting_era: u32::from(to),
            ..form
        },
    }
}

// The figure that a form is refused for.
fn misfit(form: Form) -> Option<Figure> {
    match Figures::new(form) {
        Ok(_) => None,
        Err(Refusal::Misfit(figure)) => Some(figure),
    }
}

#[test]
fn zero_is_below_each_limit(rt: HostRuntime) {
    assert_eq!(rt; misfit(LEAST), None);
    for figure in [
        Figure::Workers,
        Figure::Holds,
        Figure::Blocks,
        Figure::Live,
        Figure::TakingPeriod,
        Figure::TryingPeriod,
        Figure::StartingEra,
    ] {
        assert_eq!(rt; misfit(changed(LEAST, figure, 0)), Some(figure));
    }
}

#[test]
fn one_more_is_above_each_limit(rt: HostRuntime) {
    assert_eq!(rt; misfit(MOST), None);
    for (figure, above) in [
        (Figure::Workers, 9),
        (Figure::Holds, 5),
        (Figure::Blocks, 2049),
        (Figure::Live, 2049),
        (Figure::TakingPeriod, 65),
        (Figure::TryingPeriod, 33),
    ] {
        assert_eq!(rt; misfit(changed(MOST, figure, above)), Some(figure));
    }
    let fewer = changed(MOST, Figure::Blocks, 100);
    assert_eq!(rt;
        misfit(fewer),
        Some(Figure::Live),
        "more live blocks than there are"
    );
}

#[test]
fn a_misfit_is_reported_by_the_keeper(rt: HostRuntime) -> Result<(), Fail> {
    let refusal = Refusal::Misfit(Figure::Live);
    assert_eq!(rt; refusal.to_string(rt.alloc())?.as_str(), "keeper 1 0");
    let fault = Fault::from(refusal);
    assert_eq!(rt; fault.to_string(rt.alloc())?.as_str(), "keeper 1 0");
    Ok(())
}

#[test]
fn the_worked_examples(rt: HostRuntime) -> Result<(), Fail> {
    let example = Figures::worked_example();
    assert_eq!(rt; example.ceiling(), 2030);
    assert_eq!(rt; example.blocks_needed(), 2044);
    assert!(rt; example.can_be_met());
    let least = Figures::new(LEAST)?;
    assert_eq!(rt; least.ceiling(), 26);
    assert_eq!(rt; least.blocks_needed(), 27);
    let most = Figures::new(MOST)?;
    assert!(rt; !most.can_be_met());
    assert!(rt; most.cover(&example) && example.cover(&least) && !least.cover(&example));
    Ok(())
}
