// Rows of calls on one object, plain and shared, each with what it is answered.
use qtc_chain::{
    AllArrive, AllState, AnyArrive, AnyState, Attach, Cont, ContState, WhenAll, WhenAny,
};
use std::process::Abort;
use std::sync::Wait;
use std::test::Fail;

// A step, of which there is no second one.
#[derive(Debug, Drop, PartialEq, Eq)]
pub struct Step {
    pub number: u32,
}

// What came out: the number of a step to run, or of one that was refused.
#[derive(Clone, Copy, Debug, PartialEq, Eq)]
enum Told {
    Waits,
    Run(u32),
    Refused(u32),
    Nothing,
}

// A call on a continuation.
#[derive(Clone, Copy, Debug)]
enum Call {
    Attach(u32),
    Finish,
}

fn of_attach(answer: Attach<Step>) -> Told {
    match answer {
        Attach::Waiting => Told::Waits,
        Attach::RunNow(step) => Told::Run(step.number),
        Attach::Refused(step) => Told::Refused(step.number),
    }
}

fn of_finish(answer: Option<Step>) -> Told {
    answer.map_or(Told::Nothing, |step| Told::Run(step.number))
}

fn on_plain(state: &mut ContState<Step>, call: Call) -> Told {
    match call {
        Call::Attach(number) => of_attach(state.attach(Step { number })),
        Call::Finish => of_finish(state.finished()),
    }
}

fn on_shared<R: Wait>(rt: &R, cont: &Cont<Step>, call: Call) -> Told {
    match call {
        Call::Attach(number) => of_attach(cont.attach(rt, Step { number })),
        Call::Finish => of_finish(cont.finished(rt)),
    }
}

// Makes the calls one after the other, on a plain object and on a shared one.
fn play<R: Abort + Wait>(rt: &R, row: &[(Call, Told)]) {
    let mut state = ContState::new();
    let cont = Cont::new();
    for (call, want) in row {
        assert_eq!(rt; on_plain(&mut state, *call), *want, "plain, at {call:?}");
        assert_eq!(rt; on_shared(rt, &cont, *call), *want, "shared, at {call:?}");
    }
}

#[test]
fn a_step_waits_for_the_end_and_comes_out_once(rt: HostRuntime) {
    let row = [
        (Call::Attach(1), Told::Waits),
        (Call::Attach(2), Told::Refused(2)),
        (Call::Finish, Told::Run(1)),
        (Call::Finish, Told::Nothing),
        (Call::Attach(3), Told::Refused(3)),
    ];
    play(&rt, row.as_slice());
}

#[test]
fn a_step_after_the_end_runs_now_and_a_second_is_refused(rt: HostRuntime) {
    let row = [
        (Call::Finish, Told::Nothing),
        (Call::Attach(1), Told::Run(1)),
        (Call::Attach(2), Told::Refused(2)),
        (Call::Finish, Told::Nothing),
    ];
    play(&rt, row.as_slice());
}

#[test]
fn all_of_none_have_arrived(rt: HostRuntime) -> Result<(), Fail> {
    let mut plain: AllState<u32> = AllState::new(rt.alloc(), 0)?;
    assert!(rt; plain.is_finished());
    assert_eq!(rt; plain.close().len(), 0);
    let shared: WhenAll<u32> = WhenAll::new(rt.alloc(), 0)?;
    assert!(rt; shared.is_finished(&rt));
    assert_eq!(rt; shared.close(&rt).len(), 0);
    Ok(())
}

#[test]
fn all_are_there_with_the_last_and_stand_by_their_indexes(rt: HostRuntime) -> Result<(), Fail> {
    let mut plain = AllState::new(rt.alloc(), 2)?;
    assert_eq!(rt; plain.arrive(1, 71), AllArrive::Waiting);
    assert_eq!(rt; plain.arrive(1, 72), AllArrive::Again(72));
    assert!(rt; !plain.is_finished());
    assert_eq!(rt; plain.arrive(0, 70), AllArrive::Last);
    assert!(rt; plain.is_finished());
    assert_eq!(rt; plain.arrive(0, 73), AllArrive::Again(73));
    assert_eq!(rt; plain.close().as_slice(), [Some(70), Some(71)].as_slice());

    let shared = WhenAll::new(rt.alloc(), 2)?;
    assert_eq!(rt; shared.arrive(&rt, 1, 71), AllArrive::Waiting);
    assert_eq!(rt; shared.arrive(&rt, 1, 72), AllArrive::Again(72));
    assert!(rt; !shared.is_finished(&rt));
    assert_eq!(rt; shared.arrive(&rt, 0, 70), AllArrive::Last);
    assert!(rt; shared.is_finished(&rt));
    assert_eq!(rt; shared.arrive(&rt, 0, 73), AllArrive::Again(73));
    assert_eq!(rt;
        shared.close(&rt).as_slice(),
        [Some(70), Some(71)].as_slice()
    );
    Ok(())
}

#[test]
fn what_has_not_arrived_is_none(rt: HostRuntime) -> Result<(), Fail> {
    let shared = WhenAll::new(rt.alloc(), 3)?;
    assert_eq!(rt; shared.arrive(&rt, 2, 72), AllArrive::Waiting);
    assert_eq!(rt;
        shared.close(&rt).as_slice(),
        [None, None, Some(72)].as_slice()
    );
    Ok(())
}

#[test]
fn the_first_that_arrives_is_kept(rt: HostRuntime) {
    let empty: AnyState<u32> = AnyState::new();
    assert_eq!(rt; empty.close(), (-1, None));
    let mut plain = AnyState::new();
    assert_eq!(rt; plain.arrive(3, 73), AnyArrive::First);
    assert_eq!(rt; plain.arrive(0, 70), AnyArrive::Late(70));
    assert_eq!(rt; plain.arrive(3, 74), AnyArrive::Late(74));
    assert_eq!(rt; plain.close(), (3, Some(73)));

    let empty: WhenAny<u32> = WhenAny::new();
    assert_eq!(rt; empty.close(), (-1, None));
    let shared = WhenAny::new();
    assert_eq!(rt; shared.arrive(&rt, 65_535, 73), AnyArrive::First);
    assert_eq!(rt; shared.arrive(&rt, 0, 70), AnyArrive::Late(70));
    assert_eq!(rt; shared.close(), (65_535, Some(73)));
}
