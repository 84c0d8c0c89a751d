// Prints what floors will bear, for each count of honest consoles that they may have.
#![tactic(auto)]

use fitting::standard_fit;
use floor::Refusal;
use quorum::Counts;
use std::alloc::AllocError;
use std::process::ExitCode;
use std::{env, io};
use thiserror::Error;

const USAGE: &str = "usage: floorfit N T D [N T D ..]
  N consoles (1 to 32), at most T of them Byzantine (0 to N), at most D copies of a message lost (0 to N)";

// Why the arguments name no floors.
#[derive(Debug, Drop, Error)]
enum ArgumentError {
    #[error("'{0}' is no whole number")]
    NoNumber(String),
    #[error("a floor takes three numbers")]
    NotThree,
    #[error("floor {n} {t} {d} is refused with {}: {refusal}", .refusal.number())]
    Refused {
        n: usize,
        t: usize,
        d: usize,
        refusal: Refusal,
    },
    #[error("no floor is given")]
    NoFloor,
    #[error(transparent)]
    Input(#[from] io::Error),
    #[error(transparent)]
    Memory(#[from(alloc)] AllocError),
}

fn read_number(word: String) -> Result<usize, ArgumentError> {
    word.parse::<usize>()
        .map_err(|_| ArgumentError::NoNumber(word))
}

fn read_floor(numbers: &[usize]) -> Result<Counts, ArgumentError> {
    let [n, t, d] = *numbers else {
        return Err(ArgumentError::NotThree);
    };
    let refusal = Refusal::OutOfRange;
    Counts::new(n, t, d).ok_or(ArgumentError::Refused { n, t, d, refusal })
}

fn read_floors(rt: &HostRuntime) -> Result<Vec<Counts>, ArgumentError> {
    let words = env::args(rt)?.skip(1);
    let numbers: Vec<usize> = words.map(read_number).try_collect(rt.alloc())?;
    if numbers.is_empty() {
        return Err(ArgumentError::NoFloor);
    }
    numbers.chunks(3).map(read_floor).try_collect(rt.alloc())
}

fn print_floor(rt: &HostRuntime, counts: Counts) -> io::Result<()> {
    println!(rt; "{counts}")?;
    let consoles = counts.consoles();
    for honest in consoles - counts.max_byzantine()..=consoles {
        if let Ok(fit) = standard_fit(counts, honest) {
            println!(rt; "{fit}")?;
        }
    }
    Ok(())
}

// As heat does: each program tells of its own arguments, and no crate is about arguments.
fn main(rt: HostRuntime) -> io::Result<ExitCode> {
    match read_floors(&rt) {
        Ok(floors) => {
            for counts in floors {
                print_floor(&rt, counts)?;
            }
            Ok(ExitCode::SUCCESS)
        }
        Err(error) => {
            eprintln!(rt; "floorfit: {error}")?;
            eprintln!(rt; "{USAGE}")?;
            Ok(ExitCode::FAILURE)
        }
    }
}
