// What has happened in one session.
mod protocol;
mod questions;
mod writes;

use crate::agenda::Agenda;
use crate::places::{CONSOLES, NUMBERS};
use crate::row::Row;
use sets::ConsoleSet;

// Fixed arrays and no heap. A console casts and delivers apart, and each is asked alone: pairs of the two would be no plainer.
#[derive(Clone, Copy, PartialEq, Eq, Debug)]
pub struct SessionTable {
    /// by payload number, what has happened to it
    pub rows: [Row; NUMBERS],
    /// the honest consoles that have endorsed some number
    pub voters: ConsoleSet,
    /// by console, the number that it has cast
    pub casts: [Option<usize>; CONSOLES],
    /// by console, the number that it has delivered
    pub deliveries: [Option<usize>; CONSOLES],
    /// the numbers that have copies under way
    pub numbers: Agenda,
}
