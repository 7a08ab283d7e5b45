use crate::arguments::figures_asked_for;
use crate::lines::Sizing;
use std::alloc::Global;
use std::test::Fail;

// What the program prints for the arguments in a text, with blanks between them.
fn printed(heap: Global, text: &str) -> Result<String, Fail> {
    let mut words = Vec::new(heap);
    for word in text.split_whitespace() {
        words.push(String::from_str(heap, word)?)?;
    }
    match figures_asked_for(words.as_slice()) {
        Ok(figures) => Ok(Sizing::new(&figures).to_string(heap)?),
        Err(complaint) => Ok(complaint.to_string(heap)?),
    }
}

#[test]
fn each_figure_under_its_own_name(rt: HostRuntime) -> Result<(), Fail> {
    let text = printed(rt.alloc(), "2 3 14 5 6")?;
    assert_eq!(rt;
        text.as_str(),
        "workers W: 2\nholds H: 3\nlive blocks M: 14\ntaking period F: 5\ntrying period G: 6\nmost retired blocks: 5016\nblocks needed: 5030\na keeper of at most 2048 blocks can have that many: no"
    );
    Ok(())
}

#[test]
fn no_argument_is_the_worked_example(rt: HostRuntime) -> Result<(), Fail> {
    let none = printed(rt.alloc(), "")?;
    let example = printed(rt.alloc(), "2 3 14 1 1")?;
    assert_eq!(rt; none.as_str(), example.as_str());
    Ok(())
}

#[test]
fn one_line_for_each_complaint(rt: HostRuntime) -> Result<(), Fail> {
    let extra =
        "the sixth argument is one too many: give workers W from 1 to 8, holds H from 1 to 4, live blocks M from 1 to 2048, taking period F from 1 to 64 and trying period G from 1 to 32";
    let cases = [
        ("2", "holds H is missing: give a number from 1 to 4"),
        (
            "2 3 14 1",
            "trying period G is missing: give a number from 1 to 32",
        ),
        ("2 3 14 1 1 1", extra),
        ("9 3 14 1 1", "workers W must be a number from 1 to 8"),
        ("2 x 14 1 1", "holds H must be a number from 1 to 4"),
        (
            "2 3 2049 1 1",
            "live blocks M must be a number from 1 to 2048",
        ),
        (
            "2 3 14 -1 1",
            "taking period F must be a number from 1 to 64",
        ),
        (
            "2 3 14 1 99999999999",
            "trying period G must be a number from 1 to 32",
        ),
        ("9 x 14 1 1", "workers W must be a number from 1 to 8"),
    ];
    for (arguments, expected) in cases {
        let line = printed(rt.alloc(), arguments)?;
        assert_eq!(rt; line.as_str(), expected);
    }
    Ok(())
}
