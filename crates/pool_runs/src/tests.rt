// Both pools by example, and the runs over both.
use crate::circuit::circulate;
use crate::moves::{Move, Outcome};
use crate::plays::play;
use pools::{Pool, PoolFault, Row, Stack};
use std::process::Abort;
use std::test::Fail;

// The pool hands out these numbers, and then has none in.
fn hands_out<P: Pool>(rt: &impl Abort, pool: &mut P, numbers: &[u16]) {
    for number in numbers {
        assert_eq!(rt; pool.take(), Ok(*number));
    }
    assert_eq!(rt; pool.count(), 0);
    assert_eq!(rt; pool.take(), Err(PoolFault::NoneIn));
}

// Of four numbers three are taken, and of these 1 is given back, and then 0.
fn gives_two<P: Pool>(rt: &impl Abort, pool: &mut P) {
    for number in 0..3 {
        assert_eq!(rt; pool.take(), Ok(number));
    }
    assert_eq!(rt; pool.give(1), Ok(()));
    assert_eq!(rt; pool.give(0), Ok(()));
    assert_eq!(rt; pool.count(), 3);
}

// A full pool of three numbers takes none of them back.
fn is_full<P: Pool>(rt: &impl Abort, pool: &mut P) {
    assert_eq!(rt; pool.size(), 3);
    assert_eq!(rt; pool.count(), 3);
    assert_eq!(rt; pool.give(2), Err(PoolFault::NotOut));
}

// An empty pool of three numbers takes back its last number, once, and none past that.
fn keeps_its_bounds<P: Pool>(rt: &impl Abort, pool: &mut P) {
    assert_eq!(rt; pool.give(3), Err(PoolFault::NotOut));
    assert_eq!(rt; pool.give(2), Ok(()));
    assert_eq!(rt; pool.give(2), Err(PoolFault::NotOut));
    assert!(rt; pool.is_in(2) && !pool.is_in(1) && !pool.is_in(3));
    assert_eq!(rt; pool.count(), 1);
}

#[test]
fn the_stack_hands_out_the_number_given_last(rt: HostRuntime) -> Result<(), Fail> {
    let mut pool = Stack::new(4)?;
    gives_two(&rt, &mut pool);
    hands_out(&rt, &mut pool, &[0, 1, 3]);
    let mut three = Stack::new(3)?;
    is_full(&rt, &mut three);
    hands_out(&rt, &mut three, &[0, 1, 2]);
    keeps_its_bounds(&rt, &mut three);
    Ok(())
}

#[test]
fn the_row_hands_out_the_number_in_longest(rt: HostRuntime) -> Result<(), Fail> {
    let mut pool = Row::new(4)?;
    gives_two(&rt, &mut pool);
    hands_out(&rt, &mut pool, &[3, 1, 0]);
    let mut three = Row::new(3)?;
    is_full(&rt, &mut three);
    hands_out(&rt, &mut three, &[0, 1, 2]);
    keeps_its_bounds(&rt, &mut three);
    Ok(())
}

#[test]
fn sizes_from_1_to_2048_fit(rt: HostRuntime) -> Result<(), Fail> {
    for size in [0, 2049] {
        assert!(rt; matches!(Stack::new(size), Err(PoolFault::Misfit)));
        assert!(rt; matches!(Row::new(size), Err(PoolFault::Misfit)));
    }
    for size in [1, 2048] {
        assert_eq!(rt; Stack::new(size)?.count(), size);
        assert_eq!(rt; Row::new(size)?.count(), size);
    }
    hands_out(&rt, &mut Stack::new(1)?, &[0]);
    hands_out(&rt, &mut Row::new(1)?, &[0]);
    Ok(())
}

#[test]
fn refusals_print_layer_number_and_place(rt: HostRuntime) -> Result<(), Fail> {
    let printed = format!(in rt.alloc();
        "{}, {}, {}",
        PoolFault::Misfit,
        PoolFault::NoneIn,
        PoolFault::NotOut
    )?;
    assert_eq!(rt; printed.as_str(), "pool 1 0, pool 17 0, pool 18 0");
    Ok(())
}

#[test]
fn numbers_circulate(rt: HostRuntime) -> Result<(), Fail> {
    let mut stack = Stack::new(3)?;
    let mut row = Row::new(3)?;
    assert_eq!(rt;
        circulate(rt.alloc(), &mut stack, 2)?.as_slice(),
        [0, 1].as_slice()
    );
    assert_eq!(rt;
        circulate(rt.alloc(), &mut row, 2)?.as_slice(),
        [0, 1].as_slice()
    );
    assert_eq!(rt;
        circulate(rt.alloc(), &mut stack, 9)?.as_slice(),
        [1, 0, 2].as_slice()
    );
    assert_eq!(rt;
        circulate(rt.alloc(), &mut row, 9)?.as_slice(),
        [2, 0, 1].as_slice()
    );
    Ok(())
}

#[test]
fn a_run_is_answered_move_by_move(rt: HostRuntime) -> Result<(), Fail> {
    let moves = [
        Move::Take,
        Move::Take,
        Move::Take,
        Move::Give(0),
        Move::Give(0),
        Move::Take,
    ];
    let answers = [
        Ok(Outcome::HandedOut(0)),
        Ok(Outcome::HandedOut(1)),
        Err(PoolFault::NoneIn),
        Ok(Outcome::TakenBack),
        Err(PoolFault::NotOut),
        Ok(Outcome::HandedOut(0)),
    ];
    assert_eq!(rt;
        play(rt.alloc(), &mut Stack::new(2)?, &moves)?.as_slice(),
        answers.as_slice()
    );
    assert_eq!(rt;
        play(rt.alloc(), &mut Row::new(2)?, &moves)?.as_slice(),
        answers.as_slice()
    );
    Ok(())
}
