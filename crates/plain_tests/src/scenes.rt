// Floors and calls that the tests begin with.
use floor::{Draft, Refusal};
use plain::Endorsement;

// Eight consoles, of which console 7 is Byzantine, one lost copy, and two payload numbers.
pub(crate) fn eight(sessions: usize) -> Result<Draft, Refusal> {
    let mut draft = Draft::new(Draft::plan(8, 1, 1, 2)?);
    draft.mark(7)?;
    for sequence in 0..sessions {
        draft.enter(0, sequence)?;
    }
    Ok(draft)
}

// The four make the struct; heat has such a function, and a program takes nothing from tests.
pub(crate) fn copy(sender: usize, receiver: usize, session: usize, number: usize) -> Endorsement {
    Endorsement {
        sender,
        receiver,
        session,
        number,
    }
}
