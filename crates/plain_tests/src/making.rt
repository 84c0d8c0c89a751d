// Thresholds at the limit of each rule and one beyond, and the questions that are refused.
use crate::scenes::eight;
use caster::Caster;
use floor::{Draft, Refusal};
use plain::PlainCaster;
use quorum::PlainThresholds;
use std::test::Fail;

fn single(deliver: usize, forward: usize) -> PlainThresholds {
    PlainThresholds {
        deliver,
        forward,
        single: true,
    }
}

// On 8 consoles with t 1 and d 1: the first rule at its limit, qf = t+1, the third, qd = g-d at g 7, and the lowest qd that keeps
// the fifth. The second has no limit that is accepted, as thresholds that are equal break the fourth.
#[test]
fn thresholds_within_the_rules_are_accepted(rt: HostRuntime) -> Result<(), Fail> {
    let draft = eight(1)?;
    for [deliver, forward] in [[5, 2], [6, 2], [4, 2]] {
        assert_eq!(rt;
            PlainCaster::plan(&draft, single(deliver, forward)).err(),
            None
        );
    }
    Ok(())
}

// One beyond: what fails is 1 > 1 of the first rule, 1 >= 2 of the second, 7-1 >= 7 of the third, and 1*(7-1+2-1-1) >= 7 of the fifth.
#[test]
fn thresholds_that_break_a_rule_are_refused_with_4(rt: HostRuntime) -> Result<(), Fail> {
    let draft = eight(1)?;
    for [deliver, forward] in [[5, 1], [1, 2], [7, 2], [3, 2]] {
        assert_eq!(rt;
            PlainCaster::plan(&draft, single(deliver, forward)).err(),
            Some(Refusal::ThresholdRule)
        );
    }
    Ok(())
}

// With no Byzantine console the fourth rule fails alone: (8-1-5+3)*4 > 8*2, but not (8-1-5+4)*4 > 8*3.
#[test]
fn endorsements_must_not_rest_one_short_of_a_delivery(rt: HostRuntime) -> Result<(), Fail> {
    let draft = Draft::new(Draft::plan(8, 0, 1, 1)?);
    assert_eq!(rt; PlainCaster::plan(&draft, single(5, 3)).err(), None);
    assert_eq!(rt;
        PlainCaster::plan(&draft, single(5, 4)).err(),
        Some(Refusal::ThresholdRule)
    );
    Ok(())
}

#[test]
fn questions_are_refused_by_rising_number(rt: HostRuntime) -> Result<(), Fail> {
    let caster = PlainCaster::new(PlainCaster::standard_ready(&eight(2)?)?);
    for (console, session, answer) in [
        (8, 0, Err(Refusal::OutOfRange)),
        (0, 2, Err(Refusal::OutOfRange)),
        (7, 2, Err(Refusal::OutOfRange)),
        (7, 1, Err(Refusal::WrongHonesty)),
        (6, 1, Ok(None)),
    ] {
        assert_eq!(rt; caster.cast_at(console, session), answer);
        assert_eq!(rt; caster.delivered_at(console, session), answer);
    }
    Ok(())
}
