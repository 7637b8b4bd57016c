//! What words ask, and their faults.

ghost use Rattle.std.specs.Prelude.{◌≡◌, ◌∷◌, [], true};
ghost use Rattle.query_words.specs.declared.commands.Key.TheVariants.{At};
ghost use Rattle.query_words.specs.Commands.{is_built, required};
ghost use Rattle.query_words.specs.Neighbours.{command_of, neighbour_of};

use crate::commands::Command;
use moment_core::{Dir, Stamp};
use span_core::Token;

/// What a query asks for by a moment.
#[derive(Clone, Copy, Debug, PartialEq, Eq)]
pub enum Neighbour {
    /// The first run that begins after the moment.
    Next,
    /// The last run that ends before the moment.
    Previous,
    /// The run that holds the moment, or else the previous one.
    Current,
    /// The run that holds the moment, or else the nearer of the previous and the next one.
    Closest,
    /// Whether a run holds the moment.
    Contains,
}

impl Neighbour {
    /// What a command asks for by a moment, or None for another command.
    pub fn asked_by(command: Command) -> Option<Neighbour>
        ensures { result ≡ neighbour_of command }
    {
        match command {
            Command::Next => Some(Neighbour::Next),
            Command::Previous => Some(Neighbour::Previous),
            Command::Current => Some(Neighbour::Current),
            Command::Closest => Some(Neighbour::Closest),
            Command::Contains => Some(Neighbour::Contains),
            _ => None,
        }
    }

    /// The command that asks for it.
    pub fn command(self) -> Command
        ensures value { result ≡ command_of self }
        ensures built { is_built result ≡ true }
        ensures needs { required result ≡ At ∷ [] }
    {
        match self {
            Neighbour::Next => Command::Next,
            Neighbour::Previous => Command::Previous,
            Neighbour::Current => Command::Current,
            Neighbour::Closest => Command::Closest,
            Neighbour::Contains => Command::Contains,
        }
    }
}

/// A query of the command line.
#[derive(Clone, Copy, Debug, PartialEq, Eq)]
pub enum Query {
    /// A run by the moment `at`, or whether one holds it, with a budget for each search.
    Near {
        side: Neighbour,
        at: Stamp,
        budget: u64,
    },
    /// The first `limit` items of the window from `from` to `to`, in the direction, with a budget
    /// for each search. Where an end isn't given, it is that of the calendar range.
    Walk {
        from: Option<Stamp>,
        to: Option<Stamp>,
        dir: Dir,
        limit: u64,
        budget: u64,
    },
    /// The next `limit` items of a walk that stands at the token, with a budget for each search.
    Resume {
        token: Token,
        limit: u64,
        budget: u64,
    },
    /// The printed form of the text.
    Show,
}

/// Why words are refused.
#[derive(Clone, Copy, Debug, PartialEq, Eq)]
pub enum WordsFault {
    /// The first word is a command that the program doesn't answer yet.
    Unbuilt,
    /// The number of the first bad word, from 0, or the number of words where a required key is
    /// missing.
    Bad(usize),
}
