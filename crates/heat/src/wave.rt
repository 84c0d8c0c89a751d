// One wave, from the casts to its end.
use crate::closing::Closing;
use crate::making::wave_caster;
use crate::moves::Move;
use caster::{Caster, Delivery, FloorFigures};
use floor::Refusal;
use plain::{Endorsement, PlainEvent};
use std::io;

const SESSION: usize = 0;

fn cast(console: usize, number: usize) -> Move {
    Move::Cast {
        console,
        session: SESSION,
        number,
    }
}

// The numbers make the struct; the tests have such a function, and a program takes nothing from tests.
fn copy(sender: usize, receiver: usize, number: usize) -> Endorsement {
    Endorsement {
        sender,
        receiver,
        session: SESSION,
        number,
    }
}

fn inject(receiver: usize, number: usize) -> Move {
    Move::Step(PlainEvent::Inject(copy(7, receiver, number)))
}

fn lose(sender: usize, receiver: usize) -> Move {
    Move::Step(PlainEvent::Lose(copy(sender, receiver, 0)))
}

// Three consoles cast number 0, the Byzantine console endorses different numbers to its neighbours, and the copies from the three to
// console 6 are lost. The last move of each kind is one that is refused.
fn opening() -> [Move; 13] {
    [
        cast(0, 0),
        cast(1, 0),
        cast(2, 0),
        cast(2, 1),
        inject(3, 0),
        inject(4, 0),
        inject(5, 1),
        inject(6, 1),
        inject(6, 1),
        lose(0, 6),
        lose(1, 6),
        lose(2, 6),
        lose(2, 5),
    ]
}

// A text in one place: nothing else would ask a floor for it.
fn print_floor(rt: &HostRuntime, floor: FloorFigures) -> io::Result<()> {
    let FloorFigures {
        consoles,
        byzantine,
        sessions,
        capacity,
        lost,
    } = floor;
    println!(rt;
        "floor: consoles {consoles} sessions {sessions} payload numbers {capacity} lost copies of a message {lost}"
    )?;
    for console in byzantine {
        println!(rt; "console {console} is Byzantine")?;
    }
    Ok(())
}

// A move, and what it brought: a delivery, nothing, or a refusal.
fn print_move(
    rt: &HostRuntime,
    turn: Move,
    answer: Result<Option<Delivery>, Refusal>,
) -> io::Result<()> {
    println!(rt; "{turn}")?;
    match answer {
        Ok(None) => Ok(()),
        Ok(Some(delivery)) => println!(rt; "  {delivery}"),
        Err(refusal) => println!(rt; "  refused with {}: {refusal}", refusal.number()),
    }
}

// Takes offered steps until the caster is quiet.
fn take_offers<C: Caster<Event = PlainEvent>>(rt: &HostRuntime, caster: &mut C) -> io::Result<()> {
    while let Some(event) = caster.offer() {
        print_move(rt, Move::Step(event), caster.step(event))?;
    }
    Ok(())
}

pub fn play_a_wave(rt: &HostRuntime) -> anyhow::Result<()> {
    let mut caster = wave_caster()?;
    print_floor(rt, caster.floor())?;
    for turn in opening() {
        print_move(rt, turn, turn.make(&mut caster))?;
    }
    take_offers(rt, &mut caster)?;
    let closing = Closing::of(&caster, SESSION, 0)?;
    println!(rt; "{closing}")?;
    Ok(())
}
