// What code knows of a plan, a draft or a card that it is handed, and has asked nothing.
ghost use Rattle.std.specs.Prelude.{◌≡◌, ◌+◌, ◌≤◌};
ghost use Rattle.floor.specs.Drafts.{IsCapacity, IsSound, honest_count};
ghost use Rattle.floor.specs.Places.{IsCard};
ghost use Rattle.floor.specs.States.{plan_of, state_of};

use floor::{Card, Draft, DraftPlan};
use std::test::Fail;

fn handed_plan(plan: DraftPlan) -> DraftPlan
    ensures same { result ≡ plan }
    ensures in_range { IsCapacity (plan_of plan).capacity }
{
    plan
}

fn handed_draft(draft: Draft) -> Draft
    ensures same { result ≡ draft }
    ensures sound { IsSound (state_of draft) }
{
    draft
}

fn handed_card(card: Card) -> Card
    ensures same { result ≡ card }
    ensures sized { IsCard card.len card.places }
{
    card
}

// The sum fits, since a draft has at most 32 consoles.
fn one_more_than_honest(draft: &Draft) -> usize
    ensures answered { result ≡ honest_count (state_of draft.now) + 1 }
    ensures few { result ≤ 33 }
{
    draft.honest_count() + 1
}

#[test]
fn what_is_handed_on_is_known(rt: HostRuntime) -> Result<(), Fail> {
    let plan = handed_plan(Draft::plan(8, 1, 1, 2)?);
    let mut draft = handed_draft(Draft::new(plan));
    draft.mark(7)?;
    assert_eq!(rt; one_more_than_honest(&draft), 8);
    let card = handed_card(Card::new(Card::plan(b"row")?));
    assert_eq!(rt; card.as_bytes(), b"row".as_slice());
    Ok(())
}
