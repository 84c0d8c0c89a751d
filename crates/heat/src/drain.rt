// How long the largest caster takes from its casts to its last copy.
use crate::making::drain_caster;
use caster::{Caster, drain};
use floor::Refusal;
use plain::PlainCaster;
use std::time::Instant;

// Every honest console casts number 0 in every session.
fn cast_everywhere(caster: &mut PlainCaster) -> Result<(), Refusal> {
    let floor = caster.floor();
    for session in 0..floor.sessions {
        for console in floor.honest() {
            caster.cast(console, session, 0)?;
        }
    }
    Ok(())
}

pub fn time_a_drain(rt: &HostRuntime) -> anyhow::Result<()> {
    let mut caster = drain_caster()?;
    cast_everywhere(&mut caster)?;
    let start = Instant::now(rt)?;
    let steps = drain(&mut caster);
    let microseconds = start.elapsed(rt)?.as_micros();
    println!(rt; "{steps} steps in {microseconds} microseconds")?;
    Ok(())
}
