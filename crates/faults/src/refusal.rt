ghost use Rattle.std.specs.Prelude.{◌≡◌};
ghost use Rattle.faults.specs.Refusals.{number_of};

// Why a call is refused. The discriminant is the number that documents and programs show.
#[derive(Clone, Copy, Debug, PartialEq, Eq)]
pub enum Refusal {
    // A router number is not below the count.
    NoSuchRouter = 1,
    // Put or cut names one router twice.
    SameRouter = 2,
    // The cost rule does not read the number.
    NumberNotRead = 3,
    // The number is 0 or above the table's greatest.
    NumberOutOfRange = 4,
    // A handed memory is shorter than the call needs.
    MemoryTooShort = 5,
    // A walk was given fewer picks than hops it may make.
    TooFewPicks = 6,
    // A line breaks the file's form, or names another rule.
    BadLine = 7,
    // The count of routers is not 2 to 32, or not the table's.
    BadCount = 8,
    // There is no room for one pair, or one entry, more.
    Full = 11,
    // Cut of a pair that is not kept.
    NotKept = 12,
    // The page was not settled since the last put or cut.
    StalePage = 13,
    // There is no route to the router asked for.
    NoRoute = 14,
    // The walk made its last hop and has not arrived.
    NotArrived = 15,
}

impl Refusal {
    // The refusal's number.
    // kept: a `From<Refusal> for u8` would do this same cast, and `number` stays beside it.
    pub fn number(self) -> u8
        ensures { result ≡ number_of self }
    {
        self as u8
    }
}
