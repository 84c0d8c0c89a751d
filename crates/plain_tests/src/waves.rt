// Waves worked out by hand.
use crate::scenes::{copy, eight};
use caster::{Caster, drain};
use floor::{Draft, Refusal};
use plain::{PlainCaster, PlainEvent};
use quorum::PlainThresholds;
use std::alloc::Global;
use std::test::Fail;

// The steps to the end that bring a delivery, by sender and receiver.
fn bringing<C: Caster<Event = PlainEvent>>(
    alloc: Global,
    caster: &mut C,
) -> Result<Vec<(usize, usize)>, Fail> {
    let mut brought = Vec::new(alloc);
    while let Some(PlainEvent::Hand(e)) = caster.offer() {
        if caster.step(PlainEvent::Hand(e))?.is_some() {
            brought.push((e.sender, e.receiver))?;
        }
    }
    Ok(brought)
}

// Standard ready: qd 4, qf 2. Consoles 0 and 1 cast, and the others forward at their second copy: console 5 at that of console 0, as it
// has the Byzantine console's, console 6 at that of console 2, as it misses that of console 1, and consoles 2, 3 and 4 at that of
// console 1. So all seven endorse, and a console delivers at its fourth copy: console 5 at that of console 2 (after 7, 0, 1), consoles 0
// to 4 at that of console 3 (after 0, 1, 2), and console 6 at that of console 4 (after 0, 2, 3). The 49 copies of number 1 are left.
#[test]
fn a_wave_is_forwarded(rt: HostRuntime) -> Result<(), Fail> {
    let mut caster = PlainCaster::new(PlainCaster::standard_ready(&eight(1)?)?);
    caster.cast(0, 0, 0)?;
    caster.cast(1, 0, 0)?;
    caster.step(PlainEvent::Inject(copy(7, 5, 0, 0)))?;
    caster.step(PlainEvent::Lose(copy(1, 6, 0, 0)))?;
    let brought = bringing(rt.alloc(), &mut caster)?;
    assert_eq!(rt;
        brought.as_slice(),
        [(2, 5), (3, 0), (3, 1), (3, 2), (3, 3), (3, 4), (4, 6)].as_slice()
    );
    assert!(rt; caster.is_quiet());
    assert_eq!(rt; caster.steps_left(), 49);
    Ok(())
}

// How many steps it takes until two numbers, each cast by two consoles, come to rest, and what console 6 then has delivered.
fn two_numbers(single: bool) -> Result<(usize, Option<usize>), Refusal> {
    let thresholds = PlainThresholds {
        deliver: 5,
        forward: 2,
        single,
    };
    let mut caster = PlainCaster::new(PlainCaster::plan(&eight(1)?, thresholds)?);
    for (console, number) in [(0, 0), (1, 0), (2, 1), (3, 1)] {
        caster.cast(console, 0, number)?;
    }
    let steps = drain(&mut caster);
    Ok((steps, caster.delivered_at(6, 0)?))
}

// With single on each of the seven endorses once, with seven copies: consoles 4, 5 and 6 forward number 0, whose copies come first, so that
// it has the five endorsements that a delivery takes. With single off all seven endorse both numbers, and number 0 is delivered first.
#[test]
fn a_second_number_is_forwarded_unless_single(rt: HostRuntime) -> Result<(), Fail> {
    assert_eq!(rt; two_numbers(true)?, (49, Some(0)));
    assert_eq!(rt; two_numbers(false)?, (98, Some(0)));
    Ok(())
}

// 32 consoles send 32 copies each in 16 sessions.
#[test]
fn the_largest_caster_comes_to_rest(rt: HostRuntime) -> Result<(), Fail> {
    let mut draft = Draft::new(Draft::plan(32, 1, 0, 1)?);
    for sequence in 0..16 {
        draft.enter(0, sequence)?;
    }
    let mut caster = PlainCaster::new(PlainCaster::standard_echo(&draft)?);
    for session in 0..16 {
        for console in 0..32 {
            caster.cast(console, session, 0)?;
        }
    }
    assert_eq!(rt; drain(&mut caster), 16_384);
    assert_eq!(rt; caster.steps_left(), 0);
    assert_eq!(rt; caster.delivered_at(31, 15), Ok(Some(0)));
    Ok(())
}
