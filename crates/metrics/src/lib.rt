// The metrics by which HCAA shares a weight between two sides: their names, and the factor of a split.
#![tactic(auto)]

ghost use Rattle.std.specs.Prelude.{◌≡◌, length};
ghost use Rattle.arithmetic.specs.Root.{root};
ghost use Rattle.lent.specs.Grid.{zeros};
ghost use Rattle.metrics.specs.Names.{metric_named, is_sharpe, is_tail_risk};
ghost use Rattle.metrics.specs.Split.{bounded, split_by, by_risk, by_ratio, scored_answer, split_answer};
ghost use Rattle.metrics.specs.Inner.{inputs};

use refusal::Refusal;

// How a node's weight is shared between its two children.
#[derive(Clone, Copy)]
pub enum Metric {
    MinimumVariance,
    MinimumStandardDeviation,
    SharpeRatio,
    EqualWeighting,
    ExpectedShortfall,
    ConditionalDrawdownRisk,
}

// A split keeps the two sides' risks and the left side's factor together.
#[derive(Clone, Copy)]
pub struct Split {
    pub left: f64,
    pub right: f64,
    pub factor: f64,
}

const EPSILON: f64 = 2.220446049250313e-16;

#[tactic(auto, unfolding(crate::specs::Names::metric_named))]
pub fn metric_named(name: &[u8]) -> Result<Metric, Refusal>
    ensures { result ≡ metric_named name.now }
{
    if text::same(name, b"minimum_variance") {
        return Ok(Metric::MinimumVariance);
    }
    if text::same(name, b"minimum_standard_deviation") {
        return Ok(Metric::MinimumStandardDeviation);
    }
    if text::same(name, b"sharpe_ratio") {
        return Ok(Metric::SharpeRatio);
    }
    if text::same(name, b"equal_weighting") {
        return Ok(Metric::EqualWeighting);
    }
    if text::same(name, b"expected_shortfall") {
        return Ok(Metric::ExpectedShortfall);
    }
    if text::same(name, b"conditional_drawdown_risk") {
        return Ok(Metric::ConditionalDrawdownRisk);
    }
    Err(Refusal::UnknownAllocationMetric)
}

#[tactic(auto, unfolding(crate::specs::Names::is_sharpe))]
pub fn is_sharpe(metric: Metric) -> bool
    ensures { result ≡ is_sharpe metric }
{
    matches!(metric, Metric::SharpeRatio)
}

#[tactic(auto, unfolding(crate::specs::Names::is_tail_risk))]
pub fn is_tail_risk(metric: Metric) -> bool
    ensures { result ≡ is_tail_risk metric }
{
    matches!(
        metric,
        Metric::ExpectedShortfall | Metric::ConditionalDrawdownRisk
    )
}

// A factor that is not finite is a half.
#[tactic(auto, unfolding(crate::specs::Split::bounded))]
fn bounded(f: f64) -> f64
    ensures { result ≡ bounded f }
{
    if arithmetic::is_finite(f) {
        arithmetic::clamp(f, 0.0, 1.0)
    } else {
        0.5
    }
}

#[tactic(auto, unfolding(crate::specs::Split::split_by))]
fn split_by(left: f64, right: f64, f: f64) -> Split
    ensures { result ≡ split_by left right f }
{
    let factor = bounded(f);
    Split {
        left,
        right,
        factor,
    }
}

#[tactic(auto, unfolding(crate::specs::Split::by_risk, clusters::specs::Shares::factor_of))]
fn by_risk(l: f64, r: f64) -> Split
    ensures { result ≡ by_risk l r }
{
    split_by(l, r, 1.0 - l / (l + r + EPSILON))
}

// The standard deviation of a side whose variance is v.
fn deviation(v: f64) -> f64
    ensures { result ≡ root v }
{
    arithmetic::sqrt(v)
}

// s and t are the ratios, l and r the variances.
#[tactic(auto, unfolding(crate::specs::Split::by_ratio, crate::specs::Split::fair))]
fn by_ratio(s: f64, t: f64, l: f64, r: f64) -> Split
    ensures { result ≡ by_ratio s t l r }
{
    let fair = refusal::both(refusal::both(0.0 <= s, 0.0 <= t), 0.0 < s + t);
    if fair {
        return split_by(s, t, s / (s + t));
    }
    by_risk(l, r)
}

// The split of two sides whose variances are l and r.
#[tactic(auto, unfolding(crate::specs::Split::scored_answer))]
fn score(
    metric: Metric,
    expected: &[f64],
    returns: &[f64],
    return_rows: usize,
    confidence: f64,
    cov: &[f64],
    n: usize,
    left: &[usize],
    right: &[usize],
    l: f64,
    r: f64,
    scratch: &mut [f64],
) -> Result<Split, Refusal>
    requires { scratch.old ≡ zeros (length scratch.old) }
    ensures value { result ≡ scored_answer metric (inputs expected.now returns.now return_rows confidence)
        cov.now n left.now right.now (length scratch.old) l r }
    ensures scratch_after { scratch.new ≡ zeros (length scratch.old) }
{
    match metric {
        Metric::MinimumVariance => Ok(by_risk(l, r)),
        Metric::MinimumStandardDeviation => Ok(by_risk(deviation(l), deviation(r))),
        Metric::SharpeRatio => {
            let s = clusters::cluster_sharpe(expected, cov, n, n, left)?;
            let t = clusters::cluster_sharpe(expected, cov, n, n, right)?;
            Ok(by_ratio(s, t, l, r))
        }
        Metric::EqualWeighting => Ok(split_by(l, r, 0.5)),
        Metric::ExpectedShortfall => {
            let s = tails::cluster_expected_shortfall(
                returns,
                return_rows,
                n,
                cov,
                n,
                n,
                left,
                confidence,
                scratch,
            )?;
            let t = tails::cluster_expected_shortfall(
                returns,
                return_rows,
                n,
                cov,
                n,
                n,
                right,
                confidence,
                scratch,
            )?;
            Ok(by_risk(s, t))
        }
        Metric::ConditionalDrawdownRisk => {
            let s = tails::cluster_conditional_drawdown(
                returns,
                return_rows,
                n,
                cov,
                n,
                n,
                left,
                confidence,
                scratch,
            )?;
            let t = tails::cluster_conditional_drawdown(
                returns,
                return_rows,
                n,
                cov,
                n,
                n,
                right,
                confidence,
                scratch,
            )?;
            Ok(by_risk(s, t))
        }
    }
}

// The split of two sides by a metric: both variances come first, whatever the metric. A tail-risk metric works in the scratch, which is left zero.
pub fn split_factor(
    metric: Metric,
    expected: &[f64],
    returns: &[f64],
    return_rows: usize,
    confidence: f64,
    cov: &[f64],
    n: usize,
    left: &[usize],
    right: &[usize],
    scratch: &mut [f64],
) -> Result<Split, Refusal>
    ensures value { result ≡ split_answer metric
        (record { expected = expected.now; returns = returns.now; return_rows = return_rows; confidence = confidence })
        cov.now n left.now right.now (length scratch.old) }
    ensures scratch_after { scratch.new ≡ zeros (length scratch.old) }
{
    lent::clear(scratch);
    let l = clusters::cluster_variance(cov, n, n, left)?;
    let r = clusters::cluster_variance(cov, n, n, right)?;
    score(
        metric,
        expected,
        returns,
        return_rows,
        confidence,
        cov,
        n,
        left,
        right,
        l,
        r,
        scratch,
    )
}
