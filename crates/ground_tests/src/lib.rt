// A walk through a set, and the refusals of draft and card in their order, at each limit and one beyond.
#![tactic(auto)]

#[cfg(test)]
mod told;

#[cfg(test)]
mod tests {
    use floor::{Card, Draft, Payload, Refusal, Session, SessionResult};
    use sets::ConsoleSet;
    use std::test::Fail;

    #[test]
    fn a_walk_through_a_set_goes_upward(rt: HostRuntime) {
        let consoles = ConsoleSet::empty().with(31).with(7).with(32).with(12);
        assert!(rt; consoles.into_iter().eq([7, 12, 31]));
    }

    fn draft(consoles: usize, byzantine: usize) -> Result<Draft, Refusal> {
        Ok(Draft::new(Draft::plan(consoles, byzantine, 0, 8)?))
    }

    #[test]
    fn plans_within_the_limits_are_answered(rt: HostRuntime) {
        for [consoles, byzantine, lost, capacity] in [
            [1, 0, 0, 1],
            [1, 1, 1, 8],
            [32, 0, 0, 8],
            [32, 32, 32, 1],
        ] {
            let plan = Draft::plan(consoles, byzantine, lost, capacity);
            assert_eq!(rt; plan.err(), None);
        }
    }

    #[test]
    fn plans_one_beyond_a_limit_are_refused(rt: HostRuntime) {
        for [consoles, byzantine, lost, capacity] in [
            [0, 0, 0, 1],
            [33, 0, 0, 1],
            [4, 5, 0, 1],
            [4, 0, 5, 1],
            [4, 0, 0, 0],
            [4, 0, 0, 9],
        ] {
            let plan = Draft::plan(consoles, byzantine, lost, capacity);
            assert_eq!(rt; plan.err(), Some(Refusal::OutOfRange));
        }
    }

    #[test]
    fn marking_is_refused_by_rising_number(rt: HostRuntime) -> Result<(), Fail> {
        let mut draft = draft(3, 1)?;
        assert_eq!(rt; draft.mark(3), Err(Refusal::OutOfRange));
        assert_eq!(rt; draft.mark(2), Ok(()));
        assert_eq!(rt; draft.mark(3), Err(Refusal::OutOfRange));
        assert_eq!(rt; draft.mark(2), Err(Refusal::WrongHonesty));
        assert_eq!(rt; draft.mark(0), Err(Refusal::ByzantineFull));
        assert!(rt; draft.byzantine().contains(2));
        assert_eq!(rt; draft.honest_count(), 2);
        Ok(())
    }

    #[test]
    fn entering_is_refused_by_rising_number(rt: HostRuntime) -> Result<(), Fail> {
        let mut draft = draft(2, 0)?;
        assert_eq!(rt; draft.enter(2, 0), Err(Refusal::OutOfRange));
        assert_eq!(rt; draft.enter(1, 65_536), Err(Refusal::OutOfRange));
        assert_eq!(rt; draft.enter(1, 65_535), Ok(0));
        assert_eq!(rt; draft.enter(1, 65_535), Err(Refusal::SessionTwice));
        for sequence in 1..16 {
            assert_eq!(rt; draft.enter(0, sequence), Ok(sequence));
        }
        assert_eq!(rt; draft.enter(2, 1), Err(Refusal::OutOfRange));
        assert_eq!(rt; draft.enter(0, 1), Err(Refusal::SessionTwice));
        assert_eq!(rt; draft.enter(0, 16), Err(Refusal::SessionsFull));
        assert_eq!(rt; draft.session_count(), 16);
        assert_eq!(rt;
            draft.session(15),
            Ok(Session {
                owner: 0,
                sequence: 15,
            })
        );
        assert_eq!(rt; draft.session(16), Err(Refusal::OutOfRange));
        Ok(())
    }

    #[test]
    fn a_card_has_1_to_16_bytes(rt: HostRuntime) -> Result<(), Fail> {
        let bytes = b"seventeen bytes!!";
        for len in 0..18 {
            let made = Card::plan(&bytes[..len]).is_ok();
            assert_eq!(rt; made, (1..=16).contains(&len));
        }
        let whole = Card::new(Card::plan(&bytes[..16])?);
        let short = Card::new(Card::plan(&bytes[..15])?);
        assert!(rt; whole.alike(&whole) && !whole.alike(&short));
        Ok(())
    }

    #[test]
    fn results_differ_in_any_number(rt: HostRuntime) {
        let row = SessionResult {
            metres: 2000,
            tenths: 4210,
            strokes: 221,
        };
        assert!(rt; row.alike(&row));
        for other in [
            SessionResult {
                metres: 2001,
                ..row
            },
            SessionResult {
                tenths: 4211,
                ..row
            },
            SessionResult {
                strokes: 222,
                ..row
            },
        ] {
            assert!(rt; !row.alike(&other));
        }
    }
}
