// Sharing a weight out down a tree of merge rows, as HCAA does.
#![tactic(auto)]

ghost use Rattle.std.specs.Prelude.{◌≡◌, true, ◌+◌, ◌-◌, ◌*◌, ◌<◌, ◌≤◌, length, set, Err};
ghost use Rattle.refusal.specs.Table.{first};
ghost use Rattle.refusal.specs.declared.Refusal.TheVariants.{NoData};
ghost use Rattle.lent.specs.Grid.{zeros};
ghost use Rattle.metrics.specs.Split.{split_of};
ghost use Rattle.metrics.specs.Inner.{inputs, Fed};
ghost use Rattle.sharing.specs.Allot.{spread_of, equal_of, deal_to, if_done, varied_of, inside_of, allotted_at};
ghost use Rattle.sharing.specs.Down.{is_tail_risk, down_size_lines, down_rule_lines, down_answer, down_weights};
ghost use Rattle.sharing.specs.Inner.{Below, Summarized, Dealt, Blank, Down};

use lent::Size;
use metrics::Split;
pub use metrics::{Metric, is_sharpe, is_tail_risk, metric_named};
use refusal::Refusal;
use tree::{Asset, Node};

// The numbers that stay the same on the whole way down.
#[derive(Clone, Copy)]
struct Plan {
    periods: usize,
    confidence: f64,
    n: usize,
    clusters: usize,
}

// How much of the scratch a split needs: the series of a tail-risk metric, and its start.
fn series_room(metric: Metric, return_rows: usize) -> usize
    requires { is_tail_risk metric ≡ true → return_rows ≤ 4096 }
    ensures upper_bound { result ≤ 4097 }
    ensures value { is_tail_risk metric ≡ true → result ≡ return_rows + 1 }
{
    if metrics::is_tail_risk(metric) {
        return return_rows + 1;
    }
    0
}

// The split of two sides. The call clears all that it is lent: no more than it needs.
fn split_at(
    metric: Metric,
    expected: &[f64],
    returns: &[f64],
    return_rows: usize,
    confidence: f64,
    cov: &[f64],
    n: usize,
    left: &[usize],
    right: &[usize],
    scratch: &mut [f64],
) -> Result<Split, Refusal>
    requires fed { Fed metric (inputs expected.now returns.now return_rows confidence) n }
    requires blank { Blank scratch.old }
    ensures value { result ≡ split_of metric (inputs expected.now returns.now return_rows confidence)
        cov.now n left.now right.now }
    ensures scratch_unchanged { scratch.new ≡ scratch.old }
{
    let m = series_room(metric, return_rows);
    metrics::split_factor(
        metric,
        expected,
        returns,
        return_rows,
        confidence,
        cov,
        n,
        left,
        right,
        &mut scratch[..m],
    )
}

// The leaf order, and beside it each node's first place and size.
fn order_leaves(
    rows: &[usize],
    n: usize,
    order: &mut [usize],
    firsts: &mut [usize],
    sizes: &mut [usize],
)
    requires below { Below rows.now n (2 * n - 2) }
    requires order_len { length order.old ≡ 64 }
    requires firsts_len { length firsts.old ≡ 127 }
    requires sizes_len { length sizes.old ≡ 127 }
    ensures { Summarized rows.now n order.new firsts.new sizes.new }
{
    let _ = tree::quasi_diagonalization(rows, n, Node(2 * n - 2), order);
    let mut depths = [0usize; 127];
    let _ = branches::summarize(rows, n, firsts, sizes, &mut depths);
}

// Gives an asset its weight.
fn give(asset: Asset, w: f64, weights: &mut [f64])
    requires { asset.0 < length weights.old }
    ensures { weights.new ≡ set weights.old asset.0 w }
{
    weights[asset.0] = arithmetic::settled(w);
}

// The same weight to each of the assets listed.
fn spread(members: &[usize], w: f64, weights: &mut [f64])
    requires { Dealt members.now (length weights.old) }
    ensures { weights.new ≡ spread_of members.now w weights.old }
{
    for &a in members {
        give(Asset(a), w, weights);
    }
}

// To each of the assets listed its part of the weight.
fn deal(members: &[usize], parts: &[f64; 64], weight: f64, weights: &mut [f64])
    requires { Dealt members.now (length weights.old) }
    ensures { weights.new ≡ deal_to (length members.now) members.now parts.now weight weights.old }
{
    for (i, &a) in members.iter().enumerate() {
        give(Asset(a), weight * parts[i], weights);
    }
}

// By inverse variance; refused where the cluster's variances are.
fn deal_by_variance(
    cov: &[f64],
    n: usize,
    members: &[usize],
    weight: f64,
    weights: &mut [f64],
) -> Result<(), Refusal>
    requires { Dealt members.now (length weights.old) }
    ensures { if_done result weights.new ≡ varied_of cov.now n members.now weight weights.old }
{
    let mut parts = [0.0; 64];
    clusters::inverse_variance_weights(cov, n, n, members, &mut parts)?;
    deal(members, &parts, weight, weights);
    Ok(())
}

// In equal parts.
fn deal_equally(members: &[usize], weight: f64, weights: &mut [f64])
    requires { Dealt members.now (length weights.old) }
    ensures { weights.new ≡ equal_of members.now weight weights.old }
{
    spread(
        members,
        weight * arithmetic::one_over(members.len()),
        weights,
    );
}

// A cut cluster's weight goes to its assets, unless they are refused. Its list of weights is kept off the walk's stack.
#[inline(never)]
fn inside(
    metric: Metric,
    cov: &[f64],
    n: usize,
    members: &[usize],
    weight: f64,
    weights: &mut [f64],
) -> Result<(), Refusal>
    requires { Dealt members.now (length weights.old) }
    ensures { if_done result weights.new ≡ inside_of metric cov.now n members.now weight weights.old }
{
    match metric {
        Metric::EqualWeighting => {
            deal_equally(members, weight, weights);
            Ok(())
        }
        _ => deal_by_variance(cov, n, members, weight, weights),
    }
}

// Shares a weight out below a node, unless a side, or a cut cluster, is refused. A node's members are looked up in the order.
fn share(
    metric: Metric,
    plan: Plan,
    expected: &[f64],
    returns: &[f64],
    cov: &[f64],
    rows: &[usize],
    order: &[usize],
    firsts: &[usize],
    sizes: &[usize],
    node: Node,
    weight: f64,
    weights: &mut [f64],
    scratch: &mut [f64],
) -> Result<(), Refusal>
    requires down { Down metric (inputs expected.now returns.now plan.periods plan.confidence)
        rows.now plan.n plan.clusters node.0 order.now firsts.now sizes.now weights.old }
    requires blank { Blank scratch.old }
    ensures weights_after { if_done result weights.new
        ≡ allotted_at metric (inputs expected.now returns.now plan.periods plan.confidence)
        cov.now rows.now plan.n plan.clusters node.0 weight weights.old }
    ensures scratch_unchanged { scratch.new ≡ scratch.old }
{
    let at = node.0;
    let Plan {
        periods,
        confidence,
        n,
        clusters,
    } = plan;
    if at < n {
        give(Asset(at), weight, weights);
        return Ok(());
    }
    let k = at - n;
    if k + clusters < n {
        let members = branches::members(order, firsts, sizes, n, node);
        return inside(metric, cov, n, members, weight, weights);
    }
    let a = rows[2 * k];
    let b = rows[2 * k + 1];
    let left = branches::members(order, firsts, sizes, n, Node(a));
    let right = branches::members(order, firsts, sizes, n, Node(b));
    let split = split_at(
        metric, expected, returns, periods, confidence, cov, n, left, right, scratch,
    )?;
    let f = split.factor;
    share(
        metric,
        plan,
        expected,
        returns,
        cov,
        rows,
        order,
        firsts,
        sizes,
        Node(a),
        weight * f,
        weights,
        scratch,
    )?;
    share(
        metric,
        plan,
        expected,
        returns,
        cov,
        rows,
        order,
        firsts,
        sizes,
        Node(b),
        weight * (1.0 - f),
        weights,
        scratch,
    )
}

// What the sizes alone refuse.
#[tactic(auto, unfolding(crate::specs::Down::down_size_lines, refusal::specs::Table::first, refusal::specs::Table::or_else))]
fn judge_sizes(
    n: usize,
    cells: usize,
    height: usize,
    width: usize,
    return_cells: usize,
    return_rows: usize,
    return_columns: usize,
    room: usize,
    scratch: usize,
) -> Result<(), Refusal>
    ensures { result ≡ first (down_size_lines (record {
      assets = n;
      covariance_cells = cells;
      covariance_rows = height;
      covariance_columns = width;
      return_cells = return_cells;
      return_rows = return_rows;
      return_columns = return_columns;
      room = room;
      scratch = scratch;
    })) }
{
    refusal::refuse(lent::MOST_ASSETS < n, Refusal::OverLimit)?;
    refusal::refuse(lent::over_limit(height, width), Refusal::OverLimit)?;
    refusal::refuse(
        lent::over_limit(return_rows, return_columns),
        Refusal::OverLimit,
    )?;
    refusal::refuse(
        lent::has_other_length(cells, height, width),
        Refusal::SliceLength,
    )?;
    let ragged = lent::has_other_length(return_cells, return_rows, return_columns);
    refusal::refuse(ragged, Refusal::SliceLength)?;
    refusal::refuse(room < n, Refusal::ShortBuffer)?;
    refusal::refuse(scratch < lent::LEAST_SCRATCH, Refusal::ShortBuffer)?;
    refusal::refuse(height != n || width != n, Refusal::DimensionMismatch)
}

// What the metric, the tree and the cluster count refuse.
#[tactic(auto, unfolding(crate::specs::Down::down_rule_lines, crate::specs::Down::other_rows, crate::specs::Down::metric_tail_lines, refusal::specs::Table::first, refusal::specs::Table::or_else))]
fn judge_rules(
    metric: Metric,
    given: bool,
    expected: usize,
    return_rows: usize,
    return_columns: usize,
    confidence: f64,
    rows: &[usize],
    n: usize,
    clusters: usize,
) -> Result<(), Refusal>
    ensures { result ≡ first (down_rule_lines (record {
      metric = metric;
      expected_given = given;
      expected_length = expected;
      return_rows = return_rows;
      return_columns = return_columns;
      confidence = confidence;
      rows = rows.now;
      assets = n;
      clusters = clusters;
    })) }
{
    let sharpe = is_sharpe(metric);
    let tail = is_tail_risk(metric);
    refusal::refuse(sharpe && given && expected != n, Refusal::DimensionMismatch)?;
    let other_rows = tail && 0 < return_rows && return_columns != n;
    refusal::refuse(other_rows, Refusal::DimensionMismatch)?;
    refusal::refuse(n == 0, Refusal::NoData)?;
    refusal::refuse(!tree::is_tree(rows, n), Refusal::NoTree)?;
    refusal::refuse(sharpe && !given, Refusal::MissingExpectedReturnsForSharpe)?;
    refusal::refuse(tail && return_rows == 0, Refusal::MissingReturnsForTailRisk)?;
    refusal::refuse(
        tail && ordering::is_no_part(confidence),
        Refusal::ConfidenceOutOfRange,
    )?;
    let count = Refusal::InvalidNumClusters {
        requested: clusters,
        assets: n,
    };
    refusal::refuse(clusters == 0 || n < clusters, count)
}

// What the recursion refuses leaves nothing of the weights given out before it.
fn refused(weights: &mut [f64]) -> Result<Size, Refusal>
    ensures value { result ≡ Err NoData }
    ensures weights_after { weights.new ≡ zeros (length weights.old) }
{
    lent::clear(weights);
    Err(Refusal::NoData)
}

// The weights of n assets, shared out from the last merge row's node down. Scratch is left zero.
pub fn allocate_down_tree(
    metric: Metric,
    expected: &[f64],
    expected_given: bool,
    returns: &[f64],
    return_rows: usize,
    return_columns: usize,
    confidence: f64,
    covariance: &[f64],
    covariance_rows: usize,
    covariance_columns: usize,
    rows: &[usize],
    n: usize,
    clusters: usize,
    out: &mut [f64],
    scratch: &mut [f64],
) -> Result<Size, Refusal>
    ensures value { result ≡ down_answer
        (record {
          metric = metric;
          inputs = record { expected = expected.now; returns = returns.now; return_rows = return_rows; confidence = confidence };
          expected_given = expected_given;
          return_columns = return_columns;
          covariance = covariance.now;
          covariance_rows = covariance_rows;
          covariance_columns = covariance_columns;
          rows = rows.now;
          assets = n;
          clusters = clusters;
        })
        (length out.old) (length scratch.old) }
    ensures out_after { out.new ≡ down_weights
        (record {
          metric = metric;
          inputs = record { expected = expected.now; returns = returns.now; return_rows = return_rows; confidence = confidence };
          expected_given = expected_given;
          return_columns = return_columns;
          covariance = covariance.now;
          covariance_rows = covariance_rows;
          covariance_columns = covariance_columns;
          rows = rows.now;
          assets = n;
          clusters = clusters;
        })
        (length out.old) (length scratch.old) }
    ensures scratch_after { scratch.new ≡ zeros (length scratch.old) }
{
    let sizes = judge_sizes(
        n,
        covariance.len(),
        covariance_rows,
        covariance_columns,
        returns.len(),
        return_rows,
        return_columns,
        out.len(),
        scratch.len(),
    );
    lent::clear(out);
    lent::clear(scratch);
    sizes?;
    judge_rules(
        metric,
        expected_given,
        expected.len(),
        return_rows,
        return_columns,
        confidence,
        rows,
        n,
        clusters,
    )?;
    let root = Node(2 * n - 2);
    let mut order = [0usize; 64];
    let mut firsts = [0usize; 127];
    let mut node_sizes = [0usize; 127];
    order_leaves(rows, n, &mut order, &mut firsts, &mut node_sizes);
    let plan = Plan {
        periods: return_rows,
        confidence,
        n,
        clusters,
    };
    let shared = share(
        metric,
        plan,
        expected,
        returns,
        covariance,
        rows,
        &order,
        &firsts,
        &node_sizes,
        root,
        1.0,
        &mut out[..n],
        scratch,
    );
    if shared.is_err() {
        return refused(out);
    }
    Ok(Size {
        rows: 1,
        columns: n,
    })
}
