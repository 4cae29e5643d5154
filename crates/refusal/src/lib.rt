// What a call refuses, by document 01's numbers, and how a call went.
#![tactic(auto)]

ghost use Rattle.std.specs.Prelude.{◌≡◌, ◌&&◌, ◌||◌, get_or, Ok};
ghost use Rattle.refusal.specs.Refusal.{number_of, values_of};
ghost use Rattle.refusal.specs.Table.{or_else, and_then};

// A case for each number, named as the source's error where it has one.
#[derive(Clone, Copy)]
pub enum Refusal {
    NoData,
    UnknownAllocationMetric,
    DimensionMismatch,
    MissingExpectedReturnsForSharpe,
    UnknownReturns,
    InvalidNumClusters { requested: usize, assets: usize },
    UnknownDistance,
    UnknownLinkage,
    OverLimit,
    SliceLength,
    ShortBuffer,
    WeightOutOfRange,
    NoTree,
    MalformedText,
    MissingReturnsForTailRisk,
    ConfidenceOutOfRange,
    TotalOutOfReach,
    CeilingsTooLow,
}

impl Refusal {
    // The number that this refusal is told by.
    pub fn number(self) -> u8
        ensures { result ≡ number_of self }
    {
        match self {
            Refusal::NoData => 1,
            Refusal::UnknownAllocationMetric => 2,
            Refusal::DimensionMismatch => 3,
            Refusal::MissingExpectedReturnsForSharpe => 4,
            Refusal::UnknownReturns => 5,
            Refusal::InvalidNumClusters { .. } => 6,
            Refusal::UnknownDistance => 7,
            Refusal::UnknownLinkage => 8,
            Refusal::OverLimit => 9,
            Refusal::SliceLength => 10,
            Refusal::ShortBuffer => 11,
            Refusal::WeightOutOfRange => 13,
            Refusal::NoTree => 14,
            Refusal::MalformedText => 15,
            Refusal::MissingReturnsForTailRisk => 16,
            Refusal::ConfidenceOutOfRange => 17,
            Refusal::TotalOutOfReach => 18,
            Refusal::CeilingsTooLow => 20,
        }
    }

    // The cluster count that refusal 6 was given for, and 0 for every other refusal.
    pub fn requested(self) -> usize
        ensures { result ≡ get_or (values_of self) 0 0 }
    {
        match self {
            Refusal::InvalidNumClusters { requested, .. } => requested,
            _ => 0,
        }
    }

    // The number of assets beside it.
    pub fn assets(self) -> usize
        ensures { result ≡ get_or (values_of self) 1 0 }
    {
        match self {
            Refusal::InvalidNumClusters { assets, .. } => assets,
            _ => 0,
        }
    }
}

// One line of a table of refusals: `given` where the test is true.
#[tactic(auto, unfolding(crate::specs::Table::or_else))]
pub fn refuse(test: bool, given: Refusal) -> Result<(), Refusal>
    ensures { result ≡ or_else test given (Ok tt) }
{
    if test {
        return Err(given);
    }
    Ok(())
}

// Two stages: the second counts where the first is done.
#[tactic(auto, unfolding(crate::specs::Table::and_then))]
pub fn and_then(said: Result<(), Refusal>, rest: Result<(), Refusal>) -> Result<(), Refusal>
    ensures { result ≡ and_then said rest }
{
    said.and(rest)
}

// Tests of a line joined. As calls, these leave no branch where they stand.
pub fn both(x: bool, y: bool) -> bool
    ensures { result ≡ (x && y) }
{
    if x { y } else { false }
}

pub fn either(x: bool, y: bool) -> bool
    ensures { result ≡ (x || y) }
{
    if x { true } else { y }
}
