// The casters that are played on.
use floor::{Draft, Refusal};
use plain::PlainCaster;

/// Eight consoles, of which the last is Byzantine, and one session.
pub fn wave_caster() -> Result<PlainCaster, Refusal> {
    let mut draft = Draft::new(Draft::plan(8, 1, 1, 2)?);
    draft.mark(7)?;
    draft.enter(0, 1)?;
    Ok(PlainCaster::new(PlainCaster::standard_echo(&draft)?))
}

/// As many honest consoles, sessions and payload numbers as a floor can have.
pub fn drain_caster() -> Result<PlainCaster, Refusal> {
    let mut draft = Draft::new(Draft::plan(32, 1, 0, 8)?);
    for sequence in 0..16 {
        draft.enter(0, sequence)?;
    }
    Ok(PlainCaster::new(PlainCaster::standard_echo(&draft)?))
}
