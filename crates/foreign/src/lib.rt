// What a call from C hands in, read and judged before the call behind it is made: numbers, flags, names, sizes.
#![tactic(auto)]

ghost use Rattle.std.specs.Prelude.{◌≡◌, length};
ghost use Rattle.refusal.specs.Table.{first, and_then};
ghost use Rattle.refusal.specs.Telling.{outcome_tells};
ghost use Rattle.inputs.specs.Inputs.{matrix_lines};
ghost use Rattle.linkage.specs.Names.{distance_named, linkage_named};
ghost use Rattle.rooms.specs.Rooms.{room_lines, parity_room_lines};
ghost use Rattle.listing.specs.Listing.{listed_tells};
ghost use Rattle.foreign.specs.Foreign.{distance_says, linkage_says, asked_lines, asked_laid, count_lines, merge_sizes, leaf_sizes, byte_lines};

use lent::Size;
use refusal::Refusal;

// The refusal's number, or 0.
pub fn number(said: Result<(), Refusal>) -> u8
    ensures { result ≡ (outcome_tells said).number }
{
    said.map_or_else(|r| r.number(), |_| 0)
}

// Whether a name is known: its refusal where not.
#[tactic(auto, unfolding(crate::specs::Foreign::distance_says))]
pub fn distance_said(name: &[u8]) -> Result<(), Refusal>
    ensures { result ≡ distance_says (distance_named name.now) }
{
    linkage::distance_named(name).map(|_| ())
}

#[tactic(auto, unfolding(crate::specs::Foreign::linkage_says))]
pub fn linkage_said(name: &[u8]) -> Result<(), Refusal>
    ensures { result ≡ linkage_says (linkage_named name.now) }
{
    linkage::linkage_named(name).map(|_| ())
}

// 9, 10 and 11 of hierarchical risk parity, then its distance's name.
#[tactic(auto, unfolding(refusal::specs::Table::and_then))]
pub fn judge_hrp(
    n: usize,
    prices: Option<Size>,
    prices_len: usize,
    returns: Option<Size>,
    returns_len: usize,
    covariance: Option<Size>,
    covariance_len: usize,
    rows: usize,
    order: usize,
    weights: usize,
    correlations: usize,
    distances: usize,
    scratch: usize,
    name: &[u8],
) -> Result<(), Refusal>
    ensures { result ≡
        and_then (first (matrix_lines n prices prices_len returns returns_len covariance covariance_len))
        (and_then (first (parity_room_lines n
        (record { rows = rows; order = order; weights = weights; correlations = correlations; distances = distances; scratch = scratch })))
        (distance_says (distance_named name.now))) }
{
    inputs::judge_matrices(
        n,
        prices,
        prices_len,
        returns,
        returns_len,
        covariance,
        covariance_len,
    )?;
    rooms::judge_with_matrices(n, rows, order, weights, correlations, distances, scratch)?;
    distance_said(name)
}

// The refusal's number, and the two beside it where there is room for them.
pub fn tell(said: Result<(), Refusal>, asked: &mut [usize]) -> u8
    ensures value { result ≡ (outcome_tells said).number }
    ensures asked_after { asked.new ≡ asked_laid said (length asked.old) }
{
    lent::clear(asked);
    let Err(r) = said else {
        return 0;
    };
    if asked.len() < 2 {
        return r.number();
    }
    asked[0] = r.requested();
    asked[1] = r.assets();
    r.number()
}

// 9, 10 and 11 of HCAA, then the names of its linkage and its distance.
#[tactic(auto, unfolding(refusal::specs::Table::and_then, refusal::specs::Table::first, refusal::specs::Table::or_else, crate::specs::Foreign::asked_lines))]
pub fn judge_hcaa(
    n: usize,
    prices: Option<Size>,
    prices_len: usize,
    returns: Option<Size>,
    returns_len: usize,
    covariance: Option<Size>,
    covariance_len: usize,
    rows: usize,
    order: usize,
    weights: usize,
    scratch: usize,
    asked: usize,
    link: &[u8],
    name: &[u8],
) -> Result<(), Refusal>
    ensures { result ≡
        and_then (first (matrix_lines n prices prices_len returns returns_len covariance covariance_len))
        (and_then (first (room_lines n (record { rows = rows; order = order; weights = weights; scratch = scratch })))
        (and_then (first (asked_lines asked))
        (and_then (linkage_says (linkage_named link.now)) (distance_says (distance_named name.now))))) }
{
    inputs::judge_matrices(
        n,
        prices,
        prices_len,
        returns,
        returns_len,
        covariance,
        covariance_len,
    )?;
    rooms::judge_rooms(n, rows, order, weights, scratch)?;
    refusal::refuse(asked < 2, Refusal::ShortBuffer)?;
    linkage_said(link)?;
    distance_said(name)
}

// 9, 10 and 11 of the merge step, 11 of the place for its number of pairs, then its linkage's name.
#[tactic(auto, using(refusal::proofs::Tables::first_append), unfolding(refusal::specs::Table::and_then, refusal::specs::Table::first, refusal::specs::Table::or_else, crate::specs::Foreign::merge_sizes, crate::specs::Foreign::count_lines))]
pub fn judge_merge(
    len: usize,
    rows: usize,
    columns: usize,
    room: usize,
    count: usize,
    name: &[u8],
) -> Result<(), Refusal>
    ensures { result ≡ and_then (first (merge_sizes len rows columns room)) (and_then (first (count_lines count)) (linkage_says (linkage_named name.now))) }
{
    lent::sized(len, rows, columns)?;
    refusal::refuse(lent::lacks_rows(room, columns), Refusal::ShortBuffer)?;
    refusal::refuse(count < 1, Refusal::ShortBuffer)?;
    linkage_said(name)
}

// 9 and 11 of the leaf order.
#[tactic(auto, unfolding(refusal::specs::Table::first, refusal::specs::Table::or_else, crate::specs::Foreign::leaf_sizes))]
pub fn judge_leaves(n: usize, order: usize, leaves: usize) -> Result<(), Refusal>
    ensures { result ≡ first (leaf_sizes n order leaves) }
{
    refusal::refuse(lent::MOST_ASSETS < n, Refusal::OverLimit)?;
    refusal::refuse(order < n, Refusal::ShortBuffer)?;
    refusal::refuse(leaves < 1, Refusal::ShortBuffer)
}

// What was told of a listing, as a number.
pub fn number_listed(listed: Result<usize, Refusal>) -> u8
    ensures { result ≡ (listed_tells listed).number }
{
    listed.map_or_else(|r| r.number(), |_| 0)
}

// 9, and 11 of the place for a listing's number of bytes.
#[tactic(auto, unfolding(refusal::specs::Table::first, refusal::specs::Table::or_else, crate::specs::Foreign::byte_lines))]
pub fn judge_bytes(len: usize, count: usize) -> Result<(), Refusal>
    ensures { result ≡ first (byte_lines len count) }
{
    refusal::refuse(reading::MOST_BYTES < len, Refusal::OverLimit)?;
    refusal::refuse(count < 1, Refusal::ShortBuffer)
}
