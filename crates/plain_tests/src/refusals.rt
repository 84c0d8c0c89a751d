// Of the checks that find something the one with the lowest number answers, and the caster goes on as if it had not been called.
use crate::pictures::Picture;
use crate::scenes::{copy, eight};
use caster::Caster;
use floor::Refusal;
use plain::{Endorsement, PlainCaster, PlainEvent};
use std::process::Abort;
use std::test::Fail;

// In session 0 console 0 has cast number 0, its copy to itself is handed over and that to console 1 lost, and the Byzantine console has
// endorsed number 1 to console 2.
fn begun() -> Result<PlainCaster, Refusal> {
    let mut caster = PlainCaster::new(PlainCaster::standard_echo(&eight(2)?)?);
    caster.cast(0, 0, 0)?;
    caster.step(PlainEvent::Hand(copy(0, 0, 0, 0)))?;
    caster.step(PlainEvent::Lose(copy(0, 1, 0, 0)))?;
    caster.step(PlainEvent::Inject(copy(7, 2, 0, 1)))?;
    Ok(caster)
}

// Both answer alike after two more casts, which make a wave, and after each offered step.
fn same_course<C: Caster<Event = PlainEvent> + Drop>(rt: &impl Abort, mut one: C, mut other: C) {
    for console in 1..3 {
        assert_eq!(rt; one.cast(console, 0, 0), other.cast(console, 0, 0));
    }
    while let Some(event) = one.offer() {
        assert_eq!(rt; Picture::of(&one), Picture::of(&other));
        assert_eq!(rt; one.step(event), other.step(event));
    }
    assert_eq!(rt; Picture::of(&one), Picture::of(&other));
}

// Each event is refused so, and leaves the caster as it was.
fn refused(rt: &impl Abort, events: &[PlainEvent], refusal: Refusal) -> Result<(), Fail> {
    let mut caster = begun()?;
    let before = Picture::of(&caster);
    for &event in events {
        assert_eq!(rt; caster.step(event), Err(refusal));
        assert_eq!(rt; Picture::of(&caster), before);
    }
    same_course(rt, caster, begun()?);
    Ok(())
}

// One beyond each limit; the last two have a Byzantine console where an honest one must stand, or the reverse, as well.
fn beyond() -> [Endorsement; 6] {
    [
        copy(8, 0, 0, 0),
        copy(0, 8, 0, 0),
        copy(0, 0, 2, 0),
        copy(0, 0, 0, 2),
        copy(7, 7, 2, 0),
        copy(0, 7, 0, 2),
    ]
}

#[test]
fn events_beyond_a_limit_are_refused_with_1(rt: HostRuntime) -> Result<(), Fail> {
    for e in beyond() {
        let events = [
            PlainEvent::Hand(e),
            PlainEvent::Lose(e),
            PlainEvent::Inject(e),
        ];
        refused(&rt, &events, Refusal::OutOfRange)?;
    }
    Ok(())
}

#[test]
fn events_of_the_wrong_console_are_refused_with_2(rt: HostRuntime) -> Result<(), Fail> {
    let from_byzantine = copy(7, 2, 0, 1);
    let to_byzantine = copy(0, 7, 0, 0);
    let heard = copy(0, 0, 0, 0);
    let events = [
        PlainEvent::Hand(from_byzantine),
        PlainEvent::Hand(to_byzantine),
        PlainEvent::Lose(from_byzantine),
        PlainEvent::Lose(to_byzantine),
        PlainEvent::Inject(heard),
        PlainEvent::Inject(copy(7, 7, 0, 1)),
    ];
    refused(&rt, &events, Refusal::WrongHonesty)
}

// Handed over, lost, and never sent. In the first two cases the sender has no loss left, too.
#[test]
fn copies_that_are_not_under_way_are_refused_with_25(rt: HostRuntime) -> Result<(), Fail> {
    for e in [copy(0, 0, 0, 0), copy(0, 1, 0, 0), copy(1, 0, 0, 0)] {
        refused(
            &rt,
            &[PlainEvent::Hand(e), PlainEvent::Lose(e)],
            Refusal::NoSuchCopy,
        )?;
    }
    Ok(())
}

#[test]
fn a_second_loss_is_refused_with_26(rt: HostRuntime) -> Result<(), Fail> {
    refused(
        &rt,
        &[PlainEvent::Lose(copy(0, 2, 0, 0))],
        Refusal::LossesUsed,
    )
}

#[test]
fn an_endorsement_that_is_heard_is_refused_with_27(rt: HostRuntime) -> Result<(), Fail> {
    refused(
        &rt,
        &[PlainEvent::Inject(copy(7, 2, 0, 1))],
        Refusal::NothingNew,
    )
}

// Console 0 has cast in session 0, and console 7 is Byzantine.
#[test]
fn casts_are_refused_by_rising_number(rt: HostRuntime) -> Result<(), Fail> {
    let mut caster = begun()?;
    let before = Picture::of(&caster);
    for (console, session, number, refusal) in [
        (8, 0, 0, Refusal::OutOfRange),
        (0, 2, 0, Refusal::OutOfRange),
        (0, 0, 2, Refusal::OutOfRange),
        (7, 2, 0, Refusal::OutOfRange),
        (7, 0, 0, Refusal::WrongHonesty),
        (0, 0, 0, Refusal::AlreadyCast),
        (0, 0, 1, Refusal::AlreadyCast),
    ] {
        assert_eq!(rt; caster.cast(console, session, number), Err(refusal));
        assert_eq!(rt; Picture::of(&caster), before);
    }
    same_course(&rt, caster, begun()?);
    Ok(())
}

// The losses of one session do not count in another.
#[test]
fn calls_at_each_limit_are_accepted(rt: HostRuntime) -> Result<(), Fail> {
    let mut caster = begun()?;
    assert_eq!(rt; caster.cast(0, 1, 0), Ok(None));
    assert_eq!(rt; caster.step(PlainEvent::Lose(copy(0, 1, 1, 0))), Ok(None));
    assert_eq!(rt; caster.cast(6, 1, 1), Ok(None));
    assert_eq!(rt; caster.step(PlainEvent::Hand(copy(6, 6, 1, 1))), Ok(None));
    assert_eq!(rt; caster.step(PlainEvent::Lose(copy(6, 5, 1, 1))), Ok(None));
    assert_eq!(rt; caster.step(PlainEvent::Inject(copy(7, 6, 1, 1))), Ok(None));
    assert_eq!(rt; caster.cast_at(6, 1), Ok(Some(1)));
    Ok(())
}
