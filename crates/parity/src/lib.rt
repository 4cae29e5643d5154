// Hierarchical risk parity on a given covariance.
#![tactic(auto)]

ghost use Rattle.std.specs.Prelude.{length};
ghost use Rattle.refusal.specs.Table.{first};
ghost use Rattle.parity.specs.Parity.{parity_judge_table, ParityAnswered};
ghost use Rattle.parity.specs.Inner.{ParityWorked};

use distances::Measure;
use linkage::{Distance, Linkage};
use refusal::Refusal;

// All the steps: a variance is refused by the correlations, a side by the weights. After a refusal the buffers hold what was worked out before it.
fn work(
    distance: Distance,
    covariance: &[f64],
    rows_in: usize,
    n: usize,
    rows: &mut [usize],
    order: &mut [usize],
    weights: &mut [f64],
    correlations: &mut [f64],
    distances: &mut [f64],
    scratch: &mut [f64],
) -> Result<(), Refusal>
    ensures { ParityWorked
        (first (parity_judge_table (length covariance.now) rows_in n
        (record {
          rows = length rows.old;
          order = length order.old;
          weights = length weights.old;
          correlations = length correlations.old;
          distances = length distances.old;
          scratch = length scratch.old;
        })))
        distance covariance.now n
        (record {
          rows = length rows.old;
          order = length order.old;
          weights = length weights.old;
          correlations = length correlations.old;
          distances = length distances.old;
          scratch = length scratch.old;
        })
        result rows.new order.new weights.new correlations.new distances.new scratch.new }
{
    rooms::judge_covariance(
        covariance.len(),
        rows_in,
        n,
        rows.len(),
        order.len(),
        weights.len(),
        correlations.len(),
        distances.len(),
        scratch.len(),
    )?;
    // the correlations wait where the distances are laid at last
    stats::cov2corr(covariance, n, n, distances)?;
    let m = n * n;
    let alike = &distances[..m];
    arranging::arrange(
        Measure::Hrp,
        distance,
        Linkage::Single,
        alike,
        n,
        n,
        rows,
        order,
        &mut scratch[..m],
    )?;
    let leaves = &order[..n];
    let far = &scratch[..m];
    tree::seriate_matrix(alike, n, n, leaves, correlations)?;
    tree::seriate_matrix(far, n, n, leaves, distances)?;
    lent::clear(scratch); // the distances were in it
    bisection::recursive_bisection_min_var(covariance, n, n, leaves, weights)?;
    Ok(())
}

// The weights of a covariance of as many assets as it has columns, with their tree, its leaf order and both matrices in that order.
pub fn allocate_covariance(
    covariance: &[f64],
    rows_in: usize,
    columns: usize,
    distance: Distance,
    rows: &mut [usize],
    order: &mut [usize],
    weights: &mut [f64],
    seriated_correlations: &mut [f64],
    seriated_distances: &mut [f64],
    scratch: &mut [f64],
) -> Result<(), Refusal>
    ensures { ParityAnswered distance covariance.now rows_in columns
        (record {
          rows = length rows.old;
          order = length order.old;
          weights = length weights.old;
          correlations = length seriated_correlations.old;
          distances = length seriated_distances.old;
          scratch = length scratch.old;
        })
        result rows.new order.new weights.new seriated_correlations.new seriated_distances.new scratch.new }
{
    if let Err(refused) = work(
        distance,
        covariance,
        rows_in,
        columns,
        rows,
        order,
        weights,
        seriated_correlations,
        seriated_distances,
        scratch,
    ) {
        rooms::clear_with_matrices(
            rows,
            order,
            weights,
            seriated_correlations,
            seriated_distances,
            scratch,
        );
        return Err(refused);
    }
    Ok(())
}
