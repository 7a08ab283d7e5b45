// Examples of both kinds.
use crate::*;
use faults::Fault;
use std::test::Fail;

// The place of the fault in eight bytes that are refused.
fn place<R: Kind>(bytes: [u8; 8]) -> Option<u16> {
    R::decode(&bytes)
        .err()
        .map(|refusal| Fault::from(refusal).place)
}

#[test]
fn a_wrong_field_of_a_reading_is_refused_where_it_starts(rt: HostRuntime) {
    assert_eq!(rt;
        place::<Reading>([4, 0, 0, 0, 0, 0, 0, 0]),
        Some(0),
        "no such sort"
    );
    assert_eq!(rt;
        place::<Reading>([4, 1, 0, 0, 9, 0, 0, 0]),
        Some(0),
        "the first wrong field counts"
    );
    assert_eq!(rt;
        place::<Reading>([0, 0, 1, 0, 0, 0, 0, 0]),
        Some(1),
        "a gap that is not zero"
    );
    assert_eq!(rt;
        place::<Reading>([1, 0, 0, 0, 0, 0, 0xc0, 0x7f]),
        Some(4),
        "not a number"
    );
    assert_eq!(rt;
        place::<Reading>([3, 0, 0, 0, 2, 0, 0, 0]),
        Some(4),
        "a state of 2"
    );
}

#[test]
fn an_infinite_reading_is_accepted(rt: HostRuntime) {
    let bytes = [1, 0, 0, 0, 0, 0, 0x80, 0x7f];
    assert!(rt; Reading::decode(&bytes) == Ok(Reading::Analogue(f32::INFINITY)));
    assert!(rt; recoded::<Reading>(&bytes) == Ok(bytes));
}

#[test]
fn what_is_not_a_number_comes_back_as_missing(rt: HostRuntime) {
    assert!(rt; Reading::Analogue(f32::NAN).encode() == [0; 8]);
    assert!(rt; returned(Reading::Analogue(f32::NAN)) == Ok(Reading::Missing));
}

#[test]
fn a_branch_ends_in_zeros(rt: HostRuntime) {
    let branch = Branch {
        unit: 0x0201,
        channels: 3,
    };
    assert!(rt; Branch::decode(&[1, 2, 3, 0, 0, 0, 0, 0]) == Ok(branch));
    assert_eq!(rt; place::<Branch>([1, 2, 3, 0, 0, 0, 0, 1]), Some(3));
}

#[test]
fn texts_are_as_programs_print_them(rt: HostRuntime) -> Result<(), Fail> {
    let refusal = RecordFault::WrongValue;
    assert_eq!(rt;
        format!(in rt.alloc(); "{refusal}")?.as_str(),
        "record 16 4"
    );
    let digits = Hex(Reading::Counter(0xfedc_ba98).encode());
    assert_eq!(rt;
        format!(in rt.alloc(); "{digits}")?.as_str(),
        "0200000098badcfe"
    );
    Ok(())
}

#[test]
fn a_fresh_table_holds_what_zeros_are(rt: HostRuntime) -> Result<(), Fail> {
    let table = fresh_table::<Reading>(rt.alloc(), 3)?;
    assert!(rt; table.len() == 3);
    assert!(rt; Reading::decode(&[0; 8]) == Ok(table[2]));
    Ok(())
}
