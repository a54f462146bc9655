// What a call may refuse, each reason by name, with its number in every answer.
#![tactic(auto)]

ghost use Rattle.std.specs.Prelude.{◌≡◌, Some, decimal};
ghost use Rattle.told.specs.Told.{number_of};

use std::fmt;

// Why a call said no.
#[derive(Clone, Copy, Debug, PartialEq, Eq)]
pub enum Refusal {
    // A row without cells, or of more than 10, or lists of different lengths.
    Length,
    // Low above high, or high above 511.
    Limits,
    // A table of fewer than 5,632 entries.
    Table,
    // No such place in the row, or no such value.
    Place,
    // A fraction's total is 0.
    Fraction,
    // A file below 6 bytes or above 1,062.
    Size,
    // The mark is wrong.
    Mark,
    // No cells or more than 64, no rows or more than 32.
    Counts,
    // The start isn't four times the cells, or lies past the trailer.
    Start,
    // A row runs into the trailer, or bytes are left over.
    End,
    // A row names a cell that the board hasn't.
    Cell,
    // A row names a cell twice.
    Twice,
    // Domain room of fewer than 64 entries.
    Room,
    // The writer's room is shorter than the file.
    WriterRoom,
    // Stack room of fewer than 4,096 entries.
    Stack,
}

impl Refusal {
    // The number for it.
    pub fn number(self) -> u8
        ensures { result ≡ number_of self }
    {
        match self {
            Refusal::Length => 1,
            Refusal::Limits => 2,
            Refusal::Table => 3,
            Refusal::Place => 4,
            Refusal::Fraction => 5,
            Refusal::Size => 6,
            Refusal::Mark => 7,
            Refusal::Counts => 8,
            Refusal::Start => 9,
            Refusal::End => 10,
            Refusal::Cell => 11,
            Refusal::Twice => 12,
            Refusal::Room => 13,
            Refusal::WriterRoom => 14,
            Refusal::Stack => 15,
        }
    }
}

// Its number, as programs print it.
impl fmt::Display for Refusal {
    ghost output = { λ refusal. Some (decimal (number_of refusal)) };

    fn fmt<W: fmt::Write>(&self, f: &mut fmt::Formatter<W>) -> fmt::Result {
        let number = self.number();
        write!(f, "{number}")
    }
}
