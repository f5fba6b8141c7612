// Why a table, a query or a text is refused, as the error of a call; and the two faults that become a refusal further up: of a part of a
// query, and of lack of room.
#![tactic(auto)]

ghost use Rattle.std.specs.Prelude.{◌≡◌, ◌+◌, ◌^◌, ◌<◌};
ghost use Rattle.refusals.specs.declared.Refused.TheVariants.{QueryFault, NoRoom as LacksRoom};
ghost use Rattle.refusals.specs.Refusals.{refusal_of, moved};

// The place of the first fault of a part of a query, counted from the part's start.
#[derive(Clone, Copy, Debug, PartialEq, Eq)]
pub struct Fault(pub usize);

impl Fault {
    // The same counted from so many bytes before.
    pub fn behind(self, at: usize) -> Fault
        requires { at + self.0 < 2 ^ 64 }
        ensures { result.0 ≡ at + self.0 }
    {
        Fault(at + self.0)
    }
}

// Rows do not fit into the row space.
#[derive(Clone, Copy, Debug, PartialEq, Eq)]
pub struct NoRoom;

// A refusal with its place, where that is not always 0.
#[derive(Clone, Copy, Debug, PartialEq, Eq)]
pub enum Refused {
    // 1: the table's length is not one of whole records
    TableLength,
    // 2: more records than a table has
    TooManyRecords,
    // 3: the record is unsound
    UnsoundRecord(usize),
    // 4: the record is not above the one before it
    RecordOrder(usize),
    // 5: the query is over the call's limit
    QueryTooLong,
    // 6: the first fault of the query
    QueryFault(usize),
    // 7: the first project trust node whose variable clashes
    VariableClash(usize),
    // 8: the row space is too short
    NoRoom,
    // 9: the output is shorter than the rewriting, by the length needed
    RewritingTooLong(usize),
    // 10: there is no such variable
    NoSuchVariable,
    // 10: the output is shorter than the totals, by the length needed
    TotalsTooLong(usize),
    // 11: the first fault of a text
    TextFault(usize),
    // 12: the output is shorter than the query of a text, by the length needed
    QueryBytesTooLong(usize),
}

impl From<Fault> for Refused {
    ghost from_gives = { λ f r. r ≡ QueryFault f.0 };

    fn from(f: Fault) -> Refused {
        Refused::QueryFault(f.0)
    }
}

impl From<NoRoom> for Refused {
    ghost from_gives = { λ _ r. r ≡ LacksRoom };

    fn from(_none: NoRoom) -> Refused {
        Self::NoRoom
    }
}

impl Refused {
    // The number of document 01 and the requests.
    pub fn number(self) -> u32
        ensures { result ≡ (refusal_of self).number }
    {
        match self {
            Refused::TableLength => 1,
            Refused::TooManyRecords => 2,
            Refused::UnsoundRecord(_) => 3,
            Refused::RecordOrder(_) => 4,
            Refused::QueryTooLong => 5,
            Refused::QueryFault(_) => 6,
            Refused::VariableClash(_) => 7,
            Refused::NoRoom => 8,
            Refused::RewritingTooLong(_) => 9,
            Refused::NoSuchVariable => 10,
            Refused::TotalsTooLong(_) => 10,
            Refused::TextFault(_) => 11,
            Refused::QueryBytesTooLong(_) => 12,
        }
    }

    // The place beside it.
    pub fn place(self) -> usize
        ensures { result ≡ (refusal_of self).place }
    {
        match self {
            Refused::UnsoundRecord(p)
            | Refused::RecordOrder(p)
            | Refused::QueryFault(p)
            | Refused::VariableClash(p)
            | Refused::RewritingTooLong(p)
            | Refused::TotalsTooLong(p)
            | Refused::TextFault(p)
            | Refused::QueryBytesTooLong(p) => p,
            _ => 0,
        }
    }

    // The refusal of a part of a query, with the place of a fault counted from so many bytes before the part.
    pub fn behind(self, at: usize) -> Refused
        requires { at + (refusal_of self).place < 2 ^ 64 }
        ensures { result ≡ moved at self }
    {
        match self {
            Refused::QueryFault(p) => Refused::QueryFault(at + p),
            other => other,
        }
    }
}
