// The two tail-risk measures of a list of assets, weighed by inverse variance: document 02, request 1.
#![tactic(auto)]

ghost use Rattle.std.specs.Prelude.{◌≡◌, true, ◌++◌, ◌+◌, ◌*◌, ◌<◌, ◌≤◌, length, take, Ok};
ghost use Rattle.std.specs.Float.Ieee.{le};
ghost use Rattle.refusal.specs.Table.{first};
ghost use Rattle.lent.specs.Grid.{cell, tab, zeros};
ghost use Rattle.clusters.specs.Clusters.{shares};
ghost use Rattle.ordering.specs.Nearest.{quantile};
ghost use Rattle.ordering.specs.Inner.{Part};
ghost use Rattle.tails.specs.Tail.{row_return, tail_sum, tail_count, mean, shortfall, higher, fall, drawdown, conditional_drawdown};
ghost use Rattle.tails.specs.Inner.{HeldRows, TailReady, measure_call, measure_number, measure_answer};
ghost use Rattle.tails.specs.Measures.{measure_size_lines, measure_shape_lines, tail_lines, measure_outcome, shortfall_answer, drawdown_answer};

use refusal::Refusal;

// A sum and the number of its terms.
#[derive(Clone, Copy)]
struct Tail {
    sum: f64,
    count: usize,
}

// Which of the two measures.
#[derive(Clone, Copy)]
enum Measure {
    Shortfall,
    Drawdown,
}

// Cell (r, c) of a matrix of w columns.
fn at(xs: &[f64], w: usize, r: usize, c: usize) -> f64
    requires { r * w + c < length xs.now }
    ensures { result ≡ cell xs.now w r c }
{
    xs[r * w + c]
}

// The entry at the part q of a list that is put in order.
fn limit_of(xs: &mut [f64], q: f64) -> f64
    requires part { Part q }
    requires xs_len_bound { length xs.old ≤ 4097 }
    ensures { result ≡ quantile q xs.old }
{
    ordering::quantile(xs, q).unwrap()
}

// Row r's return.
fn row_return(returns: &[f64], rows: usize, n: usize, assets: &[usize], w: &[f64], r: usize) -> f64
    requires held_rows { HeldRows returns.now rows n assets.now w.now }
    requires r_lt_rows { r < rows }
    ensures { result ≡ row_return returns.now n assets.now w.now r }
{
    let mut v = 0.0;
    for (k, &a) in assets.iter().enumerate() {
        v += at(returns, n, r, a) * w[k];
    }
    v
}

fn fill_returns(
    returns: &[f64],
    rows: usize,
    n: usize,
    assets: &[usize],
    w: &[f64],
    out: &mut [f64],
)
    requires held_rows { HeldRows returns.now rows n assets.now w.now }
    requires out_len { length out.old ≡ rows }
    ensures { out.new ≡ tab rows (row_return returns.now n assets.now w.now) }
{
    for r in 0..rows {
        out[r] = row_return(returns, rows, n, assets, w, r);
    }
}

// s over c, and 0 where c is 0.
#[tactic(auto, unfolding(crate::specs::Tail::mean, arithmetic::specs::Arithmetic::count_of))]
fn mean_of(s: f64, c: usize) -> f64
    requires { c ≤ 4097 }
    ensures { result ≡ mean s c }
{
    if c == 0 {
        return 0.0;
    }
    s / c as f64
}

// The returns at or below a limit.
fn tail_below(
    returns: &[f64],
    rows: usize,
    n: usize,
    assets: &[usize],
    w: &[f64],
    limit: f64,
) -> Tail
    requires { HeldRows returns.now rows n assets.now w.now }
    ensures sum_value { result.sum ≡ tail_sum (λ x. le x limit) rows (row_return returns.now n assets.now w.now) }
    ensures count_value { result.count ≡ tail_count (λ x. le x limit) rows (row_return returns.now n assets.now w.now) }
    ensures count_le_rows { result.count ≤ rows }
{
    let mut sum = 0.0;
    let mut count: usize = 0;
    for r in 0..rows {
        let v = row_return(returns, rows, n, assets, w, r);
        if v <= limit {
            sum += v;
            count += 1;
        }
    }
    Tail { sum, count }
}

// Minus the mean of the returns at or below their quantile at q.
fn expected_shortfall(
    returns: &[f64],
    rows: usize,
    n: usize,
    assets: &[usize],
    w: &[f64],
    q: f64,
    room: &mut [f64],
) -> f64
    requires held_rows { HeldRows returns.now rows n assets.now w.now }
    requires room_len { length room.old ≡ rows }
    requires part { Part q }
    ensures { result ≡ shortfall rows (row_return returns.now n assets.now w.now) q }
{
    fill_returns(returns, rows, n, assets, w, room);
    let limit = limit_of(room, q);
    let t = tail_below(returns, rows, n, assets, w, limit);
    mean_of(-t.sum, t.count)
}

#[tactic(auto, unfolding(crate::specs::Tail::higher))]
fn higher_of(p: f64, v: f64) -> f64
    ensures { result ≡ higher p v }
{
    if p < v {
        return v;
    }
    p
}

#[tactic(auto, unfolding(crate::specs::Tail::fall))]
fn fall_of(p: f64, v: f64) -> f64
    ensures { result ≡ fall p v }
{
    if 0.0 < p {
        return (p - v) / p;
    }
    0.0
}

fn fill_drawdowns(
    returns: &[f64],
    rows: usize,
    n: usize,
    assets: &[usize],
    w: &[f64],
    out: &mut [f64],
)
    requires held_rows { HeldRows returns.now rows n assets.now w.now }
    requires out_len { length out.old ≡ rows + 1 }
    ensures { out.new ≡ tab (rows + 1) (drawdown (row_return returns.now n assets.now w.now)) }
{
    let mut v = 1.0;
    let mut p = 1.0;
    for r in 0..rows {
        out[r] = fall_of(p, v);
        v *= 1.0 + row_return(returns, rows, n, assets, w, r);
        p = higher_of(p, v);
    }
    out[rows] = fall_of(p, v);
}

// The drawdowns at or above a limit: the start's, then one after each row.
fn tail_above(
    returns: &[f64],
    rows: usize,
    n: usize,
    assets: &[usize],
    w: &[f64],
    limit: f64,
) -> Tail
    requires { HeldRows returns.now rows n assets.now w.now }
    ensures sum_value { result.sum ≡ tail_sum (λ x. le limit x) (rows + 1) (drawdown (row_return returns.now n assets.now w.now)) }
    ensures count_value { result.count ≡ tail_count (λ x. le limit x) (rows + 1) (drawdown (row_return returns.now n assets.now w.now)) }
    ensures count_bound { result.count ≤ rows + 1 }
{
    let mut v = 1.0;
    let mut p = 1.0;
    let start = fall_of(p, v);
    let hit_start = limit <= start;
    let mut sum = 0.0;
    let mut count: usize = 0;
    if hit_start {
        sum += start;
        count += 1;
    }
    for r in 0..rows {
        v *= 1.0 + row_return(returns, rows, n, assets, w, r);
        p = higher_of(p, v);
        let d = fall_of(p, v);
        if limit <= d {
            sum += d;
            count += 1;
        }
    }
    Tail { sum, count }
}

// The mean of the drawdowns at or above their quantile at 1 − q, the start counted.
fn conditional_drawdown(
    returns: &[f64],
    rows: usize,
    n: usize,
    assets: &[usize],
    w: &[f64],
    q: f64,
    room: &mut [f64],
) -> f64
    requires held_rows { HeldRows returns.now rows n assets.now w.now }
    requires room_len { length room.old ≡ rows + 1 }
    requires part { Part q }
    ensures { result ≡ conditional_drawdown rows (row_return returns.now n assets.now w.now) q }
{
    fill_drawdowns(returns, rows, n, assets, w, room);
    let limit = limit_of(room, 1.0 - q);
    let t = tail_above(returns, rows, n, assets, w, limit);
    mean_of(t.sum, t.count)
}

// 9, 10 and 11: of both matrices, of the list of assets, of the buffer for the series. No cell is read before they are known.
#[tactic(auto, using(crate::proofs::Outcomes::short_series), unfolding(crate::specs::Measures::measure_size_lines, clusters::specs::Clusters::size_table, refusal::specs::Table::first, refusal::specs::Table::or_else))]
fn judge_sizes(
    returns: &[f64],
    return_rows: usize,
    return_columns: usize,
    covariance: &[f64],
    rows: usize,
    columns: usize,
    assets: &[usize],
    confidence: f64,
    room: usize,
) -> Result<(), Refusal>
    ensures { result ≡ first (measure_size_lines
        (measure_call returns.now return_rows return_columns
        covariance.now rows columns assets.now confidence room)) }
{
    refusal::refuse(
        lent::over_limit(return_rows, return_columns),
        Refusal::OverLimit,
    )?;
    refusal::refuse(lent::over_limit(rows, columns), Refusal::OverLimit)?;
    refusal::refuse(lent::MOST_ASSETS < assets.len(), Refusal::OverLimit)?;
    refusal::refuse(
        lent::has_other_length(covariance.len(), rows, columns),
        Refusal::SliceLength,
    )?;
    refusal::refuse(
        lent::has_other_length(returns.len(), return_rows, return_columns),
        Refusal::SliceLength,
    )?;
    // the same as room < return_rows + 1, which could overflow
    refusal::refuse(room <= return_rows, Refusal::ShortBuffer)
}

// 16, then 17.
#[tactic(auto, unfolding(refusal::specs::Table::first, refusal::specs::Table::or_else))]
fn judge_tail(return_rows: usize, confidence: f64) -> Result<(), Refusal>
    ensures { result ≡ first (tail_lines true return_rows confidence) }
{
    refusal::refuse(return_rows == 0, Refusal::MissingReturnsForTailRisk)?;
    refusal::refuse(
        ordering::is_no_part(confidence),
        Refusal::ConfidenceOutOfRange,
    )
}

// The 3s, 14, then what the tail needs.
#[tactic(auto, unfolding(crate::specs::Measures::measure_shape_lines, refusal::specs::Table::first, refusal::specs::Table::or_else))]
fn judge_shape(
    returns: &[f64],
    return_rows: usize,
    return_columns: usize,
    covariance: &[f64],
    rows: usize,
    columns: usize,
    assets: &[usize],
    confidence: f64,
    room: usize,
) -> Result<(), Refusal>
    ensures { result ≡ first (measure_shape_lines
        (measure_call returns.now return_rows return_columns
        covariance.now rows columns assets.now confidence room)
        ++ tail_lines true return_rows confidence) }
{
    refusal::refuse(rows != columns, Refusal::DimensionMismatch)?;
    refusal::refuse(
        refusal::both(0 < return_rows, return_columns != columns),
        Refusal::DimensionMismatch,
    )?;
    refusal::refuse(clusters::any_outside(columns, assets), Refusal::NoTree)?;
    judge_tail(return_rows, confidence)
}

// The refusal of the call, if there is one, and the weights at the front of w.
fn weigh(
    returns: &[f64],
    return_rows: usize,
    return_columns: usize,
    covariance: &[f64],
    rows: usize,
    columns: usize,
    assets: &[usize],
    confidence: f64,
    room: usize,
    w: &mut [f64],
) -> Result<(), Refusal>
    requires { length w.old ≡ 64 }
    ensures value { result ≡ measure_outcome (measure_call returns.now return_rows return_columns covariance.now rows columns assets.now confidence room) }
    ensures w_after { result ≡ Ok tt → take (length assets.now) w.new ≡ shares covariance.now columns assets.now }
{
    judge_sizes(
        returns,
        return_rows,
        return_columns,
        covariance,
        rows,
        columns,
        assets,
        confidence,
        room,
    )?;
    judge_shape(
        returns,
        return_rows,
        return_columns,
        covariance,
        rows,
        columns,
        assets,
        confidence,
        room,
    )?;
    clusters::inverse_variance_weights(covariance, rows, columns, assets, w)?;
    Ok(())
}

// The measure of the rows. The room has an entry for each row, and one for the start.
fn measure_of(
    measure: Measure,
    returns: &[f64],
    rows: usize,
    n: usize,
    assets: &[usize],
    w: &[f64],
    q: f64,
    room: &mut [f64],
) -> f64
    requires held_rows { HeldRows returns.now rows n assets.now w.now }
    requires room_len { length room.old ≡ rows + 1 }
    requires part { Part q }
    ensures { result ≡ measure_number measure rows (row_return returns.now n assets.now w.now) q }
{
    match measure {
        Measure::Shortfall => expected_shortfall(returns, rows, n, assets, w, q, &mut room[..rows]),
        Measure::Drawdown => conditional_drawdown(returns, rows, n, assets, w, q, room),
    }
}

// The measure of a call that was not refused, with the weights at the front of w.
fn measure_after(
    measure: Measure,
    returns: &[f64],
    rows: usize,
    n: usize,
    assets: &[usize],
    w: &[f64],
    q: f64,
    series: &mut [f64],
) -> f64
    requires { TailReady returns.now rows n assets.now w.now q (length series.old) }
    ensures { result ≡ measure_number measure rows (row_return returns.now n assets.now (take (length assets.now) w.now)) q }
{
    let k = assets.len();
    let m = rows + 1;
    let v = measure_of(
        measure,
        returns,
        rows,
        n,
        assets,
        &w[..k],
        q,
        &mut series[..m],
    );
    arithmetic::settled(v)
}

// Either measure of a call, or its refusal. It works in the series.
fn measure_in(
    measure: Measure,
    returns: &[f64],
    return_rows: usize,
    return_columns: usize,
    covariance: &[f64],
    rows: usize,
    columns: usize,
    assets: &[usize],
    confidence: f64,
    series: &mut [f64],
) -> Result<f64, Refusal>
    ensures { result ≡ measure_answer measure
        (measure_call returns.now return_rows return_columns
        covariance.now rows columns assets.now confidence (length series.old)) }
{
    let mut w = [0.0; 64];
    weigh(
        returns,
        return_rows,
        return_columns,
        covariance,
        rows,
        columns,
        assets,
        confidence,
        series.len(),
        &mut w,
    )?;
    Ok(measure_after(
        measure,
        returns,
        return_rows,
        columns,
        assets,
        &w,
        confidence,
        series,
    ))
}

// Either measure of a call, whichever way it goes. The series is left zero.
fn measured(
    measure: Measure,
    returns: &[f64],
    return_rows: usize,
    return_columns: usize,
    covariance: &[f64],
    rows: usize,
    columns: usize,
    assets: &[usize],
    confidence: f64,
    series: &mut [f64],
) -> Result<f64, Refusal>
    ensures value { result ≡ measure_answer measure
        (measure_call returns.now return_rows return_columns
        covariance.now rows columns assets.now confidence (length series.old)) }
    ensures series_after { series.new ≡ zeros (length series.old) }
{
    let risk = measure_in(
        measure,
        returns,
        return_rows,
        return_columns,
        covariance,
        rows,
        columns,
        assets,
        confidence,
        series,
    );
    lent::clear(series);
    risk
}

// Minus the mean of the portfolio's returns at or below their quantile at the confidence. The series is left zero.
pub fn cluster_expected_shortfall(
    returns: &[f64],
    return_rows: usize,
    return_columns: usize,
    covariance: &[f64],
    rows: usize,
    columns: usize,
    assets: &[usize],
    confidence: f64,
    series: &mut [f64],
) -> Result<f64, Refusal>
    ensures value { result ≡ shortfall_answer
        (record {
          returns = returns.now;
          return_rows = return_rows;
          return_columns = return_columns;
          covariance = covariance.now;
          covariance_rows = rows;
          covariance_columns = columns;
          assets = assets.now;
          confidence = confidence;
          room = length series.old;
        }) }
    ensures series_after { series.new ≡ zeros (length series.old) }
{
    measured(
        Measure::Shortfall,
        returns,
        return_rows,
        return_columns,
        covariance,
        rows,
        columns,
        assets,
        confidence,
        series,
    )
}

// The mean of the portfolio's drawdowns, the start counted, at or above their quantile at 1 − the confidence. The series is left zero.
pub fn cluster_conditional_drawdown(
    returns: &[f64],
    return_rows: usize,
    return_columns: usize,
    covariance: &[f64],
    rows: usize,
    columns: usize,
    assets: &[usize],
    confidence: f64,
    series: &mut [f64],
) -> Result<f64, Refusal>
    ensures value { result ≡ drawdown_answer
        (record {
          returns = returns.now;
          return_rows = return_rows;
          return_columns = return_columns;
          covariance = covariance.now;
          covariance_rows = rows;
          covariance_columns = columns;
          assets = assets.now;
          confidence = confidence;
          room = length series.old;
        }) }
    ensures series_after { series.new ≡ zeros (length series.old) }
{
    measured(
        Measure::Drawdown,
        returns,
        return_rows,
        return_columns,
        covariance,
        rows,
        columns,
        assets,
        confidence,
        series,
    )
}
