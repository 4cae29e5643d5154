// Hierarchical clustering-based asset allocation: what is given, the returns, covariance and expected returns made from it where they are not, and the allocation on those.
#![tactic(auto)]

ghost use Rattle.std.specs.Prelude.{◌≡◌, Bool, List, ℕ, ◌*◌, length, take, Ok};
ghost use Rattle.refusal.specs.Table.{first};
ghost use Rattle.lent.specs.Lent.{sizes};
ghost use Rattle.metrics.specs.declared.Metric.{Metric};
ghost use Rattle.hcaa.specs.Hcaa.{hcaa_covariance_by, metric_of, unnamed, cluster_count, names_judged, rows_judged, sharpe_judged, HcaaAllocated};
ghost use Rattle.hcaa.specs.Inner.{wanted_by, height_of, hcaa_judge_table, rest_outcome, Sources, Gathered, Coverable, Hopeful, hopes_of, hoped_for};

use lent::Size;
use linkage::{Distance, Linkage};
use refusal::Refusal;
use sharing::Metric;

// Which expected returns a call reads: Sharpe alone reads any, and estimates them by a method where none are given.
#[derive(Clone, Copy)]
enum Wanted {
    Nothing,
    Given,
    Mean,
    Exponential,
    Unknown,
}

#[tactic(auto, unfolding(crate::specs::Inner::wanted_by, crate::specs::Hcaa::is_mean, crate::specs::Hcaa::is_exponential))]
fn wanted_by(metric: Metric, given: bool, method: &[u8]) -> Wanted
    ensures { result ≡ wanted_by metric given method.now }
{
    let sharpe = sharing::is_sharpe(metric);
    if !sharpe {
        return Wanted::Nothing;
    }
    if given {
        return Wanted::Given;
    }
    if text::is_word(method, b"mean") {
        return Wanted::Mean;
    }
    if text::is_word(method, b"exponential") {
        return Wanted::Exponential;
    }
    Wanted::Unknown
}

// The metric of a name; of one that is refused, equal weighting, which is never used.
#[tactic(auto, unfolding(crate::specs::Hcaa::metric_of))]
fn metric_of(read: Result<Metric, Refusal>) -> Metric
    ensures { result ≡ metric_of read }
{
    read.unwrap_or(Metric::EqualWeighting)
}

#[tactic(auto, unfolding(crate::specs::Hcaa::cluster_count))]
fn count_of(clusters: Option<usize>, n: usize) -> usize
    ensures { result ≡ cluster_count clusters n }
{
    clusters.unwrap_or(n)
}

// The rows of a matrix that was made, 0 where it was refused.
#[tactic(auto, unfolding(crate::specs::Inner::height_of))]
fn height_of(answer: Result<Size, Refusal>) -> usize
    ensures { result ≡ height_of answer }
{
    answer.map_or(0, |s| s.rows)
}

// No matrix, the metric, no assets.
#[tactic(auto, using(std::proofs::lemmas::Bool::Decides::nat_tests), unfolding(crate::specs::Hcaa::names_judged, crate::specs::Hcaa::unnamed, refusal::specs::Table::first, refusal::specs::Table::or_else))]
fn judge_names(
    n: usize,
    prices: Option<Size>,
    returns: Option<Size>,
    covariance: Option<Size>,
    metric: Result<Metric, Refusal>,
) -> Result<(), Refusal>
    ensures { result ≡ first (names_judged n prices returns covariance metric) }
{
    let alone = inputs::is_absent(returns) && inputs::is_absent(covariance);
    refusal::refuse(inputs::is_absent(prices) && alone, Refusal::NoData)?;
    refusal::refuse(metric.is_err(), Refusal::UnknownAllocationMetric)?;
    refusal::refuse(n == 0, Refusal::NoData)
}

// What the sizes, the shapes and the metric's name alone refuse.
#[tactic(auto, using(refusal::proofs::Tables::first_append), unfolding(crate::specs::Inner::hcaa_judge_table, refusal::specs::Table::and_then))]
fn judge(
    n: usize,
    prices: Option<Size>,
    prices_len: usize,
    returns: Option<Size>,
    returns_len: usize,
    covariance: Option<Size>,
    covariance_len: usize,
    metric: Result<Metric, Refusal>,
    rows: usize,
    order: usize,
    weights: usize,
    scratch: usize,
) -> Result<(), Refusal>
    ensures { result ≡ first (hcaa_judge_table n prices prices_len returns returns_len covariance covariance_len metric
        (record { rows = rows; order = order; weights = weights; scratch = scratch })) }
{
    inputs::judge_matrices(
        n,
        prices,
        prices_len,
        returns,
        returns_len,
        covariance,
        covariance_len,
    )?;
    rooms::judge_rooms(n, rows, order, weights, scratch)?;
    judge_names(n, prices, returns, covariance, metric)
}

// The columns of `height` rows of returns, too few rows for a covariance, the size of a given one.
#[tactic(auto, using(std::proofs::lemmas::Bool::Decides::nat_tests), unfolding(crate::specs::Hcaa::rows_judged, tails::specs::Measures::other_width, refusal::specs::Table::first, refusal::specs::Table::or_else))]
fn judge_rows(
    n: usize,
    height: usize,
    columns: usize,
    covariance: Option<Size>,
) -> Result<(), Refusal>
    ensures { result ≡ first (rows_judged n height columns covariance) }
{
    refusal::refuse(0 < height && columns != n, Refusal::DimensionMismatch)?;
    refusal::refuse(inputs::is_absent(covariance) && height < 2, Refusal::NoData)?;
    refusal::refuse(
        inputs::has_other_size(covariance, n),
        Refusal::DimensionMismatch,
    )
}

// The wanted expected returns: given but not one for each asset, no rows to estimate them from, an unknown method.
#[tactic(auto, using(crate::proofs::Stages::expects), unfolding(crate::proofs::Stages::want_judged, refusal::specs::Table::or_else))]
fn judge_expected(n: usize, height: usize, expected: usize, wanted: Wanted) -> Result<(), Refusal>
    ensures { (m : Metric) (given : Bool) (method : List ℕ) → wanted ≡ wanted_by m given method
        → result ≡ first (sharpe_judged m given method expected n height) }
{
    let missing = Refusal::MissingExpectedReturnsForSharpe;
    match wanted {
        Wanted::Nothing => Ok(()),
        Wanted::Given => refusal::refuse(expected != n, Refusal::DimensionMismatch),
        Wanted::Mean => refusal::refuse(height == 0, missing),
        Wanted::Exponential => refusal::refuse(height == 0, missing),
        Wanted::Unknown => {
            refusal::refuse(height == 0, missing)?;
            Err(Refusal::UnknownReturns)
        }
    }
}

// What is refused once the returns are there, or were refused themselves.
#[tactic(auto, using(crate::proofs::Stages::rest_judged), unfolding(crate::specs::Inner::rest_outcome, refusal::specs::Table::and_then))]
fn judge_gathered(
    returns: Result<Size, Refusal>,
    n: usize,
    covariance: Option<Size>,
    expected: usize,
    wanted: Wanted,
) -> Result<(), Refusal>
    ensures { (m : Metric) (given : Bool) (method : List ℕ) → wanted ≡ wanted_by m given method
        → result ≡ rest_outcome returns n covariance expected m given method }
{
    let made = returns?;
    judge_rows(n, made.rows, made.columns, covariance)?;
    judge_expected(n, made.rows, expected, wanted)
}

// The returns of a call that is not refused so far, at the front of `out`: those that are given, else made from the prices, else none.
fn gather_returns(
    said: Result<(), Refusal>,
    prices: &[f64],
    prices_shape: Option<Size>,
    returns: &[f64],
    returns_shape: Option<Size>,
    step: usize,
    out: &mut [f64],
) -> Result<Size, Refusal>
    requires out_len { length out.old ≡ 4096 }
    requires sources { Sources said (length prices.now) prices_shape (length returns.now) returns_shape }
    ensures { Gathered said prices.now prices_shape returns.now returns_shape step result out.new }
{
    let Ok(()) = said else {
        return lent::answered(said, 0, 0);
    };
    if let Some(Size { rows, columns }) = returns_shape {
        lent::copy(returns, out);
        return Ok(Size { rows, columns });
    }
    let Some(Size { rows, columns }) = prices_shape else {
        return lent::answered(said, 0, 0);
    };
    inputs::sampled_returns(prices, rows, columns, step, out)
}

// The covariance of n assets, at the front of `out`: the given one, else that of the returns.
fn gather_covariance(
    covariance: &[f64],
    covariance_shape: Option<Size>,
    returns: &[f64],
    height: usize,
    n: usize,
    out: &mut [f64],
)
    requires out_len { length out.old ≡ 4096 }
    requires n_value { first (sizes (length returns.now) height n) ≡ Ok tt }
    requires coverable { Coverable covariance_shape (length covariance.now) height n }
    ensures { take (n * n) out.new ≡ hcaa_covariance_by covariance.now returns.now height n covariance_shape }
{
    if inputs::is_absent(covariance_shape) {
        let _ = stats::covariance(returns, height, n, out);
        return;
    }
    lent::copy(covariance, out);
}

// How many expected returns are read, and those at the front of `out`: the given or the estimated ones.
fn gather_expected(
    expected: &[f64],
    wanted: Wanted,
    returns: &[f64],
    height: usize,
    n: usize,
    out: &mut [f64],
) -> usize
    requires out_len { length out.old ≡ 64 }
    requires n_value { first (sizes (length returns.now) height n) ≡ Ok tt }
    requires hopeful { Hopeful (length expected.now) wanted n }
    ensures value { result ≡ hopes_of wanted n }
    ensures out_after { take result out.new ≡ hoped_for expected.now returns.now height n wanted }
{
    match wanted {
        Wanted::Nothing => 0,
        Wanted::Given => {
            lent::copy(expected, out);
            n
        }
        Wanted::Mean => {
            let _ = stats::mean_expected_returns(returns, height, n, out);
            n
        }
        Wanted::Exponential => {
            let _ = stats::exponential_expected_returns(returns, height, n, out);
            n
        }
        Wanted::Unknown => 0,
    }
}

// The weights of the assets, with their tree and its leaf order: of the covariance that is given, else of one made from returns, which are made from prices where none are given.
pub fn allocate(
    assets: usize,
    prices: &[f64],
    prices_shape: Option<Size>,
    returns: &[f64],
    returns_shape: Option<Size>,
    covariance: &[f64],
    covariance_shape: Option<Size>,
    expected: &[f64],
    expected_given: bool,
    metric: &[u8],
    method: &[u8],
    confidence: f64,
    clusters: Option<usize>,
    resample_by: &[u8],
    distance: Distance,
    linkage: Linkage,
    rows: &mut [usize],
    order: &mut [usize],
    weights: &mut [f64],
    scratch: &mut [f64],
) -> Result<(), Refusal>
    ensures { HcaaAllocated
        (record {
          assets = assets;
          prices = prices.now;
          prices_shape = prices_shape;
          returns = returns.now;
          returns_shape = returns_shape;
          covariance = covariance.now;
          covariance_shape = covariance_shape;
          expected = expected.now;
          expected_given = expected_given;
          metric = metric.now;
          method = method.now;
          confidence = confidence;
          clusters = clusters;
          resample_by = resample_by.now;
          distance = distance;
          linkage = linkage;
        })
        (record {
          rows = length rows.old;
          order = length order.old;
          weights = length weights.old;
          scratch = length scratch.old;
        })
        result rows.new order.new weights.new scratch.new }
{
    let read = sharing::metric_named(metric);
    let used = metric_of(read);
    let wanted = wanted_by(used, expected_given, method);
    let step = resample::freq_step(resample_by);
    let said = judge(
        assets,
        prices_shape,
        prices.len(),
        returns_shape,
        returns.len(),
        covariance_shape,
        covariance.len(),
        read,
        rows.len(),
        order.len(),
        weights.len(),
        scratch.len(),
    );
    let mut made = [0.0; 4096];
    let got = gather_returns(
        said,
        prices,
        prices_shape,
        returns,
        returns_shape,
        step,
        &mut made,
    );
    let said = judge_gathered(got, assets, covariance_shape, expected.len(), wanted);
    let Ok(()) = said else {
        rooms::clear_all(rows, order, weights, scratch);
        return said;
    };
    let height = height_of(got);
    let cells = height * assets;
    let held = &made[..cells];
    let mut cov = [0.0; 4096];
    gather_covariance(covariance, covariance_shape, held, height, assets, &mut cov);
    let mut hoped = [0.0; 64];
    let hopes = gather_expected(expected, wanted, held, height, assets, &mut hoped);
    let area = assets * assets;
    hierarchy::allocate_covariance(
        &cov[..area],
        assets,
        assets,
        used,
        &hoped[..hopes],
        true,
        held,
        height,
        assets,
        confidence,
        count_of(clusters, assets),
        distance,
        linkage,
        rows,
        order,
        weights,
        scratch,
    )
}
