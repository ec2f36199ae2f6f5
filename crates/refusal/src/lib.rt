// Why a call is turned away: the questions of documents 01 and 02, each by the number that a C caller gets.
#![tactic(auto)]

ghost use Rattle.std.specs.Prelude.{◌≡◌, ◌↔◌};
ghost use Rattle.refusal.specs.Numbers.{number, answer};

use std::error::Error;
use std::fmt;

/// The question that turned a call away. It changed nothing, but for `NoMap`, which ends a reader and zeroes what document 01 names.
#[derive(Clone, Copy, Debug, PartialEq, Eq)]
pub enum Refusal {
    BadState = 1,
    BadWidth,
    BadHeight,
    BadLevels,
    AreaShort,
    NoBandRow,
    OutOfRange,
    NotItsTurn,
    IsOver,
    RowsFull,
    RowOpen,
    OutShort,
    WrongLength,
    NoMap,
    BadInput,
    BadSample,
    BadLevel,
    BadFilter,
    BadRectangle,
    BadStep,
    BadReader,
    NoFile,
}

impl Refusal {
    /// Its number in documents 01 and 02.
    pub fn number(self) -> u8
        ensures { result ≡ number self }
    {
        self as u8
    }
}

/// What a C caller gets: 0 where the call passed, else the number of the question that turned it away.
pub fn code(outcome: Result<(), Refusal>) -> u8
    ensures { result ≡ answer outcome }
{
    match outcome {
        Ok(()) => 0,
        Err(why) => why.number(),
    }
}

impl fmt::Display for Refusal {
    fn fmt<W: fmt::Write>(&self, f: &mut fmt::Formatter<W>) -> fmt::Result {
        f.write_str(match self {
            Refusal::BadState => "a count of the state is out of its range",
            Refusal::BadWidth => "the width is out of its range",
            Refusal::BadHeight => "the height is out of its range",
            Refusal::BadLevels => "the number of levels is out of its range",
            Refusal::AreaShort => "a lent area is too short",
            Refusal::NoBandRow => "there is no such band row",
            Refusal::OutOfRange => "a coefficient is out of its level's range",
            Refusal::NotItsTurn => "no band row is wanted now",
            Refusal::IsOver => "it has ended",
            Refusal::RowsFull => "a band row waits to be drawn first",
            Refusal::RowOpen => "a row is unfinished",
            Refusal::OutShort => "the area for the answer is too short",
            Refusal::WrongLength => "the row has another length",
            Refusal::NoMap => "no map has these coefficients",
            Refusal::BadInput => "the input is not of its form",
            Refusal::BadSample => "a sample is out of its range",
            Refusal::BadLevel => "there is no such level",
            Refusal::BadFilter => "there is no such filter",
            Refusal::BadRectangle => "the rectangle is not in the map",
            Refusal::BadStep => "the step is out of its range",
            Refusal::BadReader => "there is no such reader",
            Refusal::NoFile => "no ground file has these bytes",
        })
    }
}

impl Error for Refusal {}
