// The rooms of the buffers that an allocator is lent, and their zeros; and what a call of HRP must have.
#![tactic(auto)]

ghost use Rattle.std.specs.Prelude.{◌≡◌, length};
ghost use Rattle.refusal.specs.Table.{first};
ghost use Rattle.rooms.specs.Rooms.{room_lines, Cleared, parity_room_lines, ParityCleared, square_lines, parity_judge_table, shapes_judged, hrp_judge_table};

use lent::Size;
use refusal::Refusal;

// Every entry of every lent buffer is zero.
pub fn clear_all(rows: &mut [usize], order: &mut [usize], weights: &mut [f64], scratch: &mut [f64])
    ensures { Cleared
        (record {
          rows = length rows.old;
          order = length order.old;
          weights = length weights.old;
          scratch = length scratch.old;
        })
        rows.new order.new weights.new scratch.new }
{
    lent::clear(rows);
    lent::clear(order);
    lent::clear(weights);
    lent::clear(scratch); // nothing of an earlier account, and nothing that was worked out in it
}

// The same of HRP's, with its two matrices.
pub fn clear_with_matrices(
    rows: &mut [usize],
    order: &mut [usize],
    weights: &mut [f64],
    correlations: &mut [f64],
    distances: &mut [f64],
    scratch: &mut [f64],
)
    ensures { ParityCleared
        (record {
          rows = length rows.old;
          order = length order.old;
          weights = length weights.old;
          correlations = length correlations.old;
          distances = length distances.old;
          scratch = length scratch.old;
        })
        rows.new order.new weights.new correlations.new distances.new scratch.new }
{
    clear_all(rows, order, weights, scratch);
    lent::clear(correlations);
    lent::clear(distances);
}

// What the sizes of the lent buffers refuse.
#[tactic(auto, unfolding(crate::specs::Rooms::room_lines, refusal::specs::Table::first, refusal::specs::Table::or_else))]
pub fn judge_rooms(
    n: usize,
    rows: usize,
    order: usize,
    weights: usize,
    scratch: usize,
) -> Result<(), Refusal>
    ensures { result ≡ first (room_lines n (record { rows = rows; order = order; weights = weights; scratch = scratch })) }
{
    refusal::refuse(lent::lacks_rows(rows, n), Refusal::ShortBuffer)?;
    refusal::refuse(order < n, Refusal::ShortBuffer)?;
    refusal::refuse(weights < n, Refusal::ShortBuffer)?;
    refusal::refuse(scratch < lent::LEAST_SCRATCH, Refusal::ShortBuffer)
}

// The same of HRP's, with its two matrices.
#[tactic(auto, using(refusal::proofs::Tables::first_append), unfolding(crate::specs::Rooms::parity_room_lines, refusal::specs::Table::first, refusal::specs::Table::and_then, refusal::specs::Table::or_else))]
pub fn judge_with_matrices(
    n: usize,
    rows: usize,
    order: usize,
    weights: usize,
    correlations: usize,
    distances: usize,
    scratch: usize,
) -> Result<(), Refusal>
    ensures { result ≡ first (parity_room_lines n
        (record { rows = rows; order = order; weights = weights; correlations = correlations; distances = distances; scratch = scratch })) }
{
    judge_rooms(n, rows, order, weights, scratch)?;
    refusal::refuse(lent::lacks_cells(correlations, n), Refusal::ShortBuffer)?;
    refusal::refuse(lent::lacks_cells(distances, n), Refusal::ShortBuffer)
}

// No assets, then another size than theirs.
#[tactic(auto, unfolding(crate::specs::Rooms::square_lines, refusal::specs::Table::first, refusal::specs::Table::or_else))]
pub fn judge_square(rows_in: usize, columns: usize) -> Result<(), Refusal>
    ensures { result ≡ first (square_lines rows_in columns) }
{
    refusal::refuse(columns == 0, Refusal::NoData)?;
    refusal::refuse(rows_in != columns, Refusal::DimensionMismatch)
}

// What the sizes of all the slices refuse of a call on a covariance.
#[tactic(auto, using(crate::proofs::Judged::covariance_judged), unfolding(refusal::specs::Table::and_then))]
pub fn judge_covariance(
    len: usize,
    rows_in: usize,
    columns: usize,
    rows: usize,
    order: usize,
    weights: usize,
    correlations: usize,
    distances: usize,
    scratch: usize,
) -> Result<(), Refusal>
    ensures { result ≡ first (parity_judge_table len rows_in columns
        (record { rows = rows; order = order; weights = weights; correlations = correlations; distances = distances; scratch = scratch })) }
{
    lent::sized(len, rows_in, columns)?;
    judge_with_matrices(
        columns,
        rows,
        order,
        weights,
        correlations,
        distances,
        scratch,
    )?;
    judge_square(rows_in, columns)
}

// No matrix, no assets, and columns or a covariance that are not theirs.
#[tactic(auto, unfolding(crate::specs::Rooms::shapes_judged, refusal::specs::Table::first, refusal::specs::Table::or_else))]
fn judge_shapes(
    n: usize,
    prices: Option<Size>,
    returns: Option<Size>,
    covariance: Option<Size>,
) -> Result<(), Refusal>
    ensures { result ≡ first (shapes_judged n prices returns covariance) }
{
    let alone = inputs::is_absent(returns) && inputs::is_absent(covariance);
    refusal::refuse(inputs::is_absent(prices) && alone, Refusal::NoData)?;
    refusal::refuse(n == 0, Refusal::NoData)?;
    refusal::refuse(
        inputs::has_other_columns(returns, n),
        Refusal::DimensionMismatch,
    )?;
    refusal::refuse(
        alone && inputs::has_other_columns(prices, n),
        Refusal::DimensionMismatch,
    )?;
    refusal::refuse(
        inputs::has_other_size(covariance, n),
        Refusal::DimensionMismatch,
    )
}

// What the sizes and shapes alone refuse of a call on all that may be given.
#[tactic(auto, using(crate::proofs::Judged::all_judged), unfolding(refusal::specs::Table::and_then))]
pub fn judge(
    n: usize,
    prices: Option<Size>,
    prices_len: usize,
    returns: Option<Size>,
    returns_len: usize,
    covariance: Option<Size>,
    covariance_len: usize,
    rows: usize,
    order: usize,
    weights: usize,
    correlations: usize,
    distances: usize,
    scratch: usize,
) -> Result<(), Refusal>
    ensures { result ≡ first (hrp_judge_table n prices prices_len returns returns_len covariance covariance_len
        (record { rows = rows; order = order; weights = weights; correlations = correlations; distances = distances; scratch = scratch })) }
{
    inputs::judge_matrices(
        n,
        prices,
        prices_len,
        returns,
        returns_len,
        covariance,
        covariance_len,
    )?;
    judge_with_matrices(n, rows, order, weights, correlations, distances, scratch)?;
    judge_shapes(n, prices, returns, covariance)
}
