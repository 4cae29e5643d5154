// Hierarchical clustering asset allocation on a given covariance.
#![tactic(auto)]

ghost use Rattle.std.specs.Prelude.{◌≡◌, ◌≤◌, length, Ok};
ghost use Rattle.lent.specs.Lent.{laid};
ghost use Rattle.hierarchy.specs.Hierarchy.{HierarchyAnswered};
ghost use Rattle.hierarchy.specs.Inner.{Ground, Planted, HierarchyWorked};

use distances::Measure;
use linkage::{Distance, Linkage};
use refusal::Refusal;
use sharing::Metric;

// The tree of a covariance and its leaf order, at the fronts of two arrays; refuses a variance. Both matrices stand in the fronts of two rooms: the calls clear all that they are lent.
// The distances wait in the scratch: the sharing leaves it zero.
fn plant_in(
    covariance: &[f64],
    n: usize,
    distance: Distance,
    linkage: Linkage,
    corr: &mut [f64],
    scratch: &mut [f64],
    tree: &mut [usize],
    leaves: &mut [usize],
) -> Result<(), Refusal>
    requires { Ground (length covariance.now) n (length corr.old) (length scratch.old) (length tree.old) (length leaves.old) }
    ensures { Planted (Ok tt) distance linkage covariance.now n result tree.new leaves.new }
{
    let m = n * n;
    stats::cov2corr(covariance, n, n, &mut corr[..m])?;
    arranging::arrange(
        Measure::Hcaa,
        distance,
        linkage,
        &corr[..m],
        n,
        n,
        tree,
        leaves,
        &mut scratch[..m],
    )
}

// The same. Few assets have a room of their own: the zeros of a large one would take longer than they do.
fn plant(
    covariance: &[f64],
    n: usize,
    distance: Distance,
    linkage: Linkage,
    tree: &mut [usize],
    leaves: &mut [usize],
    scratch: &mut [f64],
) -> Result<(), Refusal>
    requires { Ground (length covariance.now) n 4096 (length scratch.old) (length tree.old) (length leaves.old) }
    ensures { Planted (Ok tt) distance linkage covariance.now n result tree.new leaves.new }
{
    if n <= 16 {
        let mut corr = [0.0; 256];
        return plant_in(
            covariance, n, distance, linkage, &mut corr, scratch, tree, leaves,
        );
    }
    let mut corr = [0.0; 4096];
    plant_in(
        covariance, n, distance, linkage, &mut corr, scratch, tree, leaves,
    )
}

// The numbers in the front of `to`, and zeros.
fn lay(from: &[usize], to: &mut [usize])
    requires { length from.now ≤ length to.old }
    ensures { to.new ≡ laid 0 (Ok tt) (length to.old) from.now }
{
    lent::clear(to);
    to[..from.len()].copy_from_slice(from);
}

// All the steps: the tree refuses a variance, the sharing a side or a cut cluster. After a refusal the buffers hold what was worked out before it.
fn work(
    covariance: &[f64],
    rows_in: usize,
    columns: usize,
    metric: Metric,
    expected: &[f64],
    expected_given: bool,
    returns: &[f64],
    return_rows: usize,
    return_columns: usize,
    confidence: f64,
    clusters: usize,
    distance: Distance,
    linkage: Linkage,
    rows: &mut [usize],
    order: &mut [usize],
    weights: &mut [f64],
    scratch: &mut [f64],
) -> Result<(), Refusal>
    ensures { HierarchyWorked
        (record {
          rule = record {
            metric = metric;
            inputs = record { expected = expected.now; returns = returns.now; return_rows = return_rows; confidence = confidence };
            clusters = clusters;
          };
          expected_given = expected_given;
          return_columns = return_columns;
        })
        distance linkage covariance.now rows_in columns
        (record {
          rows = length rows.old;
          order = length order.old;
          weights = length weights.old;
          scratch = length scratch.old;
        })
        result rows.new order.new weights.new scratch.new }
{
    admission::judge(
        covariance.len(),
        rows_in,
        columns,
        metric,
        expected,
        expected_given,
        returns,
        return_rows,
        return_columns,
        confidence,
        clusters,
        rows.len(),
        order.len(),
        weights.len(),
        scratch.len(),
    )?;
    let mut tree = [0; 126];
    let mut leaves = [0; 64];
    plant(
        covariance,
        columns,
        distance,
        linkage,
        &mut tree,
        &mut leaves,
        scratch,
    )?;
    let k = 2 * (columns - 1);
    let made = &tree[..k];
    // leaves the scratch zero
    sharing::allocate_down_tree(
        metric,
        expected,
        expected_given,
        returns,
        return_rows,
        return_columns,
        confidence,
        covariance,
        columns,
        columns,
        made,
        columns,
        clusters,
        weights,
        scratch,
    )?;
    lay(made, rows);
    lay(&leaves[..columns], order);
    Ok(())
}

// The weights of a covariance of as many assets as it has columns, with their tree and its leaf order.
pub fn allocate_covariance(
    covariance: &[f64],
    rows_in: usize,
    columns: usize,
    metric: Metric,
    expected: &[f64],
    expected_given: bool,
    returns: &[f64],
    return_rows: usize,
    return_columns: usize,
    confidence: f64,
    clusters: usize,
    distance: Distance,
    linkage: Linkage,
    rows: &mut [usize],
    order: &mut [usize],
    weights: &mut [f64],
    scratch: &mut [f64],
) -> Result<(), Refusal>
    ensures { HierarchyAnswered
        (record {
          rule = record {
            metric = metric;
            inputs = record { expected = expected.now; returns = returns.now; return_rows = return_rows; confidence = confidence };
            clusters = clusters;
          };
          expected_given = expected_given;
          return_columns = return_columns;
        })
        distance linkage covariance.now rows_in columns
        (record {
          rows = length rows.old;
          order = length order.old;
          weights = length weights.old;
          scratch = length scratch.old;
        })
        result rows.new order.new weights.new scratch.new }
{
    if let Err(refused) = work(
        covariance,
        rows_in,
        columns,
        metric,
        expected,
        expected_given,
        returns,
        return_rows,
        return_columns,
        confidence,
        clusters,
        distance,
        linkage,
        rows,
        order,
        weights,
        scratch,
    ) {
        rooms::clear_all(rows, order, weights, scratch);
        return Err(refused);
    }
    Ok(())
}
