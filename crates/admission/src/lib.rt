// What a call of the allocation on a covariance must have.
#![tactic(auto)]

ghost use Rattle.std.specs.Prelude.{◌≡◌, Bool, List, ◌++◌, ℕ, Float};
ghost use Rattle.refusal.specs.Table.{first};
ghost use Rattle.sharing.specs.Down.{metric_tail_lines};
ghost use Rattle.metrics.specs.declared.Metric.{Metric};
ghost use Rattle.admission.specs.Admission.{hierarchy_size_lines, hierarchy_shape_lines, expected_lines, rule_lines, hierarchy_judge_table};

use refusal::Refusal;
use sharing::Metric;

// The sizes of the covariance and of the rows of returns, whatever else the rule says.
#[tactic(auto, unfolding(crate::specs::Admission::hierarchy_size_lines, lent::specs::Lent::sizes, refusal::specs::Table::first, refusal::specs::Table::or_else))]
fn judge_sizes(
    len: usize,
    rows_in: usize,
    columns: usize,
    returns: &[f64],
    return_rows: usize,
    return_columns: usize,
) -> Result<(), Refusal>
    ensures { (metric : Metric) (e : List Float) (q : Float) (given : Bool) (k : ℕ) → result ≡ first (hierarchy_size_lines
        (record {
          rule = record { metric = metric; inputs = record { expected = e; returns = returns.now; return_rows = return_rows; confidence = q }; clusters = k };
          expected_given = given;
          return_columns = return_columns;
        })
        len rows_in columns) }
{
    refusal::refuse(
        lent::over_limit(return_rows, return_columns),
        Refusal::OverLimit,
    )?;
    lent::sized(len, rows_in, columns)?;
    let other = lent::has_other_length(returns.len(), return_rows, return_columns);
    refusal::refuse(other, Refusal::SliceLength)
}

// No assets, then another size than theirs, then return rows of another width, whatever else the rule says.
#[tactic(auto, unfolding(crate::specs::Admission::hierarchy_shape_lines, rooms::specs::Rooms::square_lines, sharing::specs::Down::other_rows, refusal::specs::Table::first, refusal::specs::Table::or_else))]
fn judge_shape(
    metric: Metric,
    return_rows: usize,
    return_columns: usize,
    rows_in: usize,
    columns: usize,
) -> Result<(), Refusal>
    ensures { (e xs : List Float) (q : Float) (given : Bool) (k : ℕ) → result ≡ first (hierarchy_shape_lines
        (record {
          rule = record { metric = metric; inputs = record { expected = e; returns = xs; return_rows = return_rows; confidence = q }; clusters = k };
          expected_given = given;
          return_columns = return_columns;
        })
        rows_in columns) }
{
    rooms::judge_square(rows_in, columns)?;
    let tail = sharing::is_tail_risk(metric);
    let other = tail && 0 < return_rows && return_columns != columns;
    refusal::refuse(other, Refusal::DimensionMismatch)
}

// The rows and the confidence that a tail-risk metric asks for.
#[tactic(auto, unfolding(sharing::specs::Down::metric_tail_lines, refusal::specs::Table::first, refusal::specs::Table::or_else))]
fn judge_tail(metric: Metric, return_rows: usize, confidence: f64) -> Result<(), Refusal>
    ensures { result ≡ first (metric_tail_lines metric return_rows confidence) }
{
    let tail = sharing::is_tail_risk(metric);
    refusal::refuse(tail && return_rows == 0, Refusal::MissingReturnsForTailRisk)?;
    let unsure = tail && ordering::is_no_part(confidence);
    refusal::refuse(unsure, Refusal::ConfidenceOutOfRange)
}

// What Sharpe expects, what a tail-risk metric asks, then the count of clusters, whatever else the rule says.
#[tactic(auto, unfolding(crate::specs::Admission::expected_lines, crate::specs::Admission::rule_lines, sharing::specs::Down::metric_tail_lines, refusal::specs::Table::first, refusal::specs::Table::or_else))]
fn judge_rule(
    metric: Metric,
    expected: &[f64],
    given: bool,
    return_rows: usize,
    confidence: f64,
    clusters: usize,
    n: usize,
) -> Result<(), Refusal>
    ensures { (xs : List Float) (w : ℕ) → result ≡ first (expected_lines
        (record {
          rule = record {
            metric = metric;
            inputs = record { expected = expected.now; returns = xs; return_rows = return_rows; confidence = confidence };
            clusters = clusters;
          };
          expected_given = given;
          return_columns = w;
        })
        n
        ++ rule_lines
        (record {
          metric = metric;
          inputs = record { expected = expected.now; returns = xs; return_rows = return_rows; confidence = confidence };
          clusters = clusters;
        })
        n) }
{
    let sharpe = sharing::is_sharpe(metric);
    let unexpected = sharpe && given && expected.len() != n;
    refusal::refuse(unexpected, Refusal::DimensionMismatch)?;
    refusal::refuse(sharpe && !given, Refusal::MissingExpectedReturnsForSharpe)?;
    judge_tail(metric, return_rows, confidence)?;
    let count = Refusal::InvalidNumClusters {
        requested: clusters,
        assets: n,
    };
    refusal::refuse(clusters == 0 || n < clusters, count)
}

// What is refused before anything is worked out.
pub fn judge(
    len: usize,
    rows_in: usize,
    columns: usize,
    metric: Metric,
    expected: &[f64],
    given: bool,
    returns: &[f64],
    return_rows: usize,
    return_columns: usize,
    confidence: f64,
    clusters: usize,
    rows: usize,
    order: usize,
    weights: usize,
    scratch: usize,
) -> Result<(), Refusal>
    ensures { result ≡ first (hierarchy_judge_table
        (record {
          rule = record {
            metric = metric;
            inputs = record { expected = expected.now; returns = returns.now; return_rows = return_rows; confidence = confidence };
            clusters = clusters;
          };
          expected_given = given;
          return_columns = return_columns;
        })
        len rows_in columns
        (record { rows = rows; order = order; weights = weights; scratch = scratch })) }
{
    judge_sizes(len, rows_in, columns, returns, return_rows, return_columns)?;
    rooms::judge_rooms(columns, rows, order, weights, scratch)?;
    judge_shape(metric, return_rows, return_columns, rows_in, columns)?;
    judge_rule(
        metric,
        expected,
        given,
        return_rows,
        confidence,
        clusters,
        columns,
    )
}
