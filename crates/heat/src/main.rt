// Plays one wave of endorsements on the standard echo caster, and holds its end against what the laws promise.
#![tactic(auto)]

mod closing;
mod drain;
mod making;
mod moves;
mod wave;

use crate::drain::time_a_drain;
use crate::wave::play_a_wave;
use std::process::ExitCode;
use std::{env, io};
use thiserror::Error;

const USAGE: &str = "usage: heat [drain]
  a wave on a floor of 8 consoles, move by move; with 'drain' how long 32 consoles take to hand over every copy in 16 sessions";

#[derive(Clone, Copy)]
enum Mode {
    Wave,
    Drain,
}

// Why the arguments name no mode.
#[derive(Debug, Drop, Error)]
enum ArgumentError {
    #[error("'{0}' is not known")]
    Unknown(String),
    #[error(transparent)]
    Input(#[from] io::Error),
}

impl TryFrom<String> for Mode {
    type Error = ArgumentError;

    fn try_from(word: String) -> Result<Mode, ArgumentError> {
        match word.as_str() {
            "drain" => Ok(Mode::Drain),
            _ => Err(ArgumentError::Unknown(word)),
        }
    }
}

// With no words the wave; else each word has to name a mode, and the last counts.
fn read_mode(rt: &HostRuntime) -> Result<Mode, ArgumentError> {
    env::args(rt)?
        .skip(1)
        .try_fold(Mode::Wave, |_, word| Mode::try_from(word))
}

// As floorfit does: each program tells of its own arguments, and no crate is about arguments.
fn main(rt: HostRuntime) -> anyhow::Result<ExitCode> {
    match read_mode(&rt) {
        Ok(Mode::Wave) => play_a_wave(&rt)?,
        Ok(Mode::Drain) => time_a_drain(&rt)?,
        Err(error) => {
            eprintln!(rt; "heat: {error}")?;
            eprintln!(rt; "{USAGE}")?;
            return Ok(ExitCode::FAILURE);
        }
    }
    Ok(ExitCode::SUCCESS)
}
