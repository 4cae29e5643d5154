// Replays recorded calls on clusters, their tail risks too, of the bisection, and of sharing down a tree. Reads them from standard input, makes each on buffers
// that hold junk, and writes the answers to standard output; both are lines of hex tokens, as oracle/README.md says. oracle/rust records them from the published Rust.
#![tactic(auto)]

ghost use Rattle.recorded.specs.Told.{Continues};

use lent::Size;
use recorded::{Calls, Expected, Tokens, Told};
use refusal::Refusal;
use sharing::Metric;

const METRICS: [Metric; 6] = [
    Metric::MinimumVariance,
    Metric::MinimumStandardDeviation,
    Metric::SharpeRatio,
    Metric::EqualWeighting,
    Metric::ExpectedShortfall,
    Metric::ConditionalDrawdownRisk,
];

// A matrix that was read, but for its cells.
#[derive(Clone, Copy)]
struct Table {
    rows: usize,
    columns: usize,
    len: usize,
}

// A matrix and a list of ids that were read.
#[derive(Clone, Copy)]
struct MatrixAndList {
    matrix: Table,
    count: usize,
}

// A confidence, and how many doubles are lent to work by it in.
#[derive(Clone, Copy)]
struct Level {
    confidence: f64,
    room: usize,
}

// What a weight is shared by.
#[derive(Clone, Copy)]
struct Asked {
    room: usize,
    metric: Metric,
    clusters: usize,
    assets: usize,
}

type Cells = [f64; 13312];

type Ids = [usize; 512];

// ---- reading

fn read_table(tokens: &mut Tokens, cells: &mut Cells, start: usize) -> Table {
    Table {
        rows: tokens.next(),
        columns: tokens.next(),
        len: tokens.fill_from(cells, start),
    }
}

fn matrix_and_list(tokens: &mut Tokens, cells: &mut Cells, list: &mut Ids) -> MatrixAndList {
    MatrixAndList {
        matrix: read_table(tokens, cells, 0),
        count: tokens.fill_from(list, 0),
    }
}

fn read_level(tokens: &mut Tokens) -> Level {
    Level {
        confidence: tokens.next(),
        room: tokens.next(),
    }
}

fn asked_sharing(tokens: &mut Tokens) -> Asked {
    Asked {
        room: tokens.next(),
        metric: recorded::choice(tokens.next(), &METRICS, Metric::ConditionalDrawdownRisk),
        clusters: tokens.next(),
        assets: tokens.next(),
    }
}

// ---- answers

// A lone number is one row of one cell. What it was worked out in may be left unclean.
#[tactic(auto, using(recorded::proofs::Laws::continues_none, recorded::proofs::Laws::continues_then))]
fn tell_risk(risk: Result<f64, Refusal>, left: usize, told: &mut Told)
    ensures { Continues told.old told.new }
{
    match risk {
        Ok(value) => {
            told.put_sizes(0, 1, 1);
            told.put(value, b' ');
        }
        Err(r) => told.put_sizes(r.number(), 0, 0),
    }
    told.put_last(left);
}

#[tactic(auto, using(recorded::proofs::Laws::continues_none, recorded::proofs::Laws::continues_then))]
fn tell_shares(answer: Result<Size, Refusal>, out: &[f64], left: usize, told: &mut Told)
    ensures { Continues told.old told.new }
{
    let n = recorded::columns_of(answer);
    told.put_outcome(lent::told(answer));
    told.put_front(out, n);
    told.put_last(recorded::plus(recorded::unclean(recorded::past(out, n)), left));
}

// ---- calls

// The call of opcode 1 or 4: a matrix and a list of assets to weights.
fn run(
    code: usize,
    m: MatrixAndList,
    cells: &[f64],
    list: &[usize],
    out: &mut [f64],
) -> Result<Size, Refusal> {
    let t = m.matrix;
    let matrix = recorded::front(cells, t.len);
    let assets = recorded::front(list, m.count);
    match code {
        1 => clusters::inverse_variance_weights(matrix, t.rows, t.columns, assets, out),
        _ => bisection::recursive_bisection_min_var(matrix, t.rows, t.columns, assets, out),
    }
}

#[tactic(auto, using(recorded::proofs::Laws::continues_none, recorded::proofs::Laws::continues_then))]
fn weights(code: usize, tokens: &mut Tokens, cells: &mut Cells, list: &mut Ids, told: &mut Told)
    ensures { Continues told.old told.new }
{
    let room = tokens.next();
    let m = matrix_and_list(tokens, cells, list);
    let mut out = [1.5; 4352];
    let answer = run(code, m, cells, list, recorded::front_mut(&mut out, room));
    told.put_answer(answer, recorded::front(&out, room));
}

#[tactic(auto, using(recorded::proofs::Laws::continues_none, recorded::proofs::Laws::continues_then))]
fn variance(tokens: &mut Tokens, cells: &mut Cells, list: &mut Ids, told: &mut Told)
    ensures { Continues told.old told.new }
{
    let m = matrix_and_list(tokens, cells, list);
    let t = m.matrix;
    let matrix = recorded::front(cells, t.len);
    let assets = recorded::front(list, m.count);
    let risk = clusters::cluster_variance(matrix, t.rows, t.columns, assets);
    tell_risk(risk, 0, told);
}

#[tactic(auto, using(recorded::proofs::Laws::continues_none, recorded::proofs::Laws::continues_then))]
fn sharpe(tokens: &mut Tokens, cells: &mut Cells, list: &mut Ids, told: &mut Told)
    ensures { Continues told.old told.new }
{
    let width = tokens.fill_from(cells, recorded::EXPECTED);
    let m = matrix_and_list(tokens, cells, list);
    let t = m.matrix;
    let cells = &cells[..];
    let expected = recorded::part(cells, recorded::EXPECTED, width);
    let matrix = recorded::front(cells, t.len);
    let assets = recorded::front(list, m.count);
    let risk = clusters::cluster_sharpe(expected, matrix, t.rows, t.columns, assets);
    tell_risk(risk, 0, told);
}

// The call of opcode 8 or 9: returns, a covariance and a list of assets to a risk.
fn risk_of(
    code: usize,
    r: Table,
    m: MatrixAndList,
    confidence: f64,
    cells: &[f64],
    list: &[usize],
    series: &mut [f64],
) -> Result<f64, Refusal> {
    let t = m.matrix;
    let returns = recorded::part(cells, recorded::RETURNS, r.len);
    let matrix = recorded::front(cells, t.len);
    let assets = recorded::front(list, m.count);
    match code {
        8 => tails::cluster_expected_shortfall(
            returns, r.rows, r.columns, matrix, t.rows, t.columns, assets, confidence, series,
        ),
        _ => tails::cluster_conditional_drawdown(
            returns, r.rows, r.columns, matrix, t.rows, t.columns, assets, confidence, series,
        ),
    }
}

#[tactic(auto, using(recorded::proofs::Laws::continues_none, recorded::proofs::Laws::continues_then))]
fn tail_risk(code: usize, tokens: &mut Tokens, cells: &mut Cells, list: &mut Ids, told: &mut Told)
    ensures { Continues told.old told.new }
{
    let r = read_table(tokens, cells, recorded::RETURNS);
    let m = matrix_and_list(tokens, cells, list);
    let l = read_level(tokens);
    let mut series = [1.5; 4352];
    let lent = recorded::front_mut(&mut series, l.room);
    let risk = risk_of(code, r, m, l.confidence, cells, list, lent);
    tell_risk(
        risk,
        recorded::unclean(recorded::front(&series, l.room)),
        told,
    );
}

fn share(
    h: Asked,
    e: Expected,
    r: Table,
    confidence: f64,
    m: MatrixAndList,
    cells: &[f64],
    list: &[usize],
    out: &mut [f64],
    scratch: &mut [f64],
) -> Result<Size, Refusal> {
    let metric = h.metric;
    let t = m.matrix;
    sharing::allocate_down_tree(
        metric,
        recorded::part(cells, recorded::EXPECTED, e.len),
        e.given,
        recorded::part(cells, recorded::RETURNS, r.len),
        r.rows,
        r.columns,
        confidence,
        recorded::front(cells, t.len),
        t.rows,
        t.columns,
        recorded::front(list, m.count),
        h.assets,
        h.clusters,
        out,
        scratch,
    )
}

#[tactic(auto, using(recorded::proofs::Laws::continues_none, recorded::proofs::Laws::continues_then))]
fn shares(tokens: &mut Tokens, cells: &mut Cells, list: &mut Ids, told: &mut Told)
    ensures { Continues told.old told.new }
{
    let h = asked_sharing(tokens);
    let e = tokens.expected(cells);
    let r = read_table(tokens, cells, recorded::RETURNS);
    let l = read_level(tokens);
    let m = matrix_and_list(tokens, cells, list);
    let mut out = [1.5; 4352];
    let mut scratch = [1.5; 8300];
    let answer = share(
        h,
        e,
        r,
        l.confidence,
        m,
        cells,
        list,
        recorded::front_mut(&mut out, h.room),
        recorded::front_mut(&mut scratch, l.room),
    );
    let left = recorded::unclean(recorded::front(&scratch, l.room));
    tell_shares(answer, recorded::front(&out, h.room), left, told);
}

// ---- every call

#[derive(Drop)]
struct Recorded;

impl Calls for Recorded {
    // In buffers of its own.
    fn call(&mut self, code: usize, tokens: &mut Tokens, told: &mut Told) {
        let mut cells = [1.5; 13312];
        let mut list = [7usize; 512];
        match code {
            2 => variance(tokens, &mut cells, &mut list, told),
            3 => sharpe(tokens, &mut cells, &mut list, told),
            7 => shares(tokens, &mut cells, &mut list, told),
            8 | 9 => tail_risk(code, tokens, &mut cells, &mut list, told),
            _ => weights(code, tokens, &mut cells, &mut list, told),
        }
    }
}

fn main(rt: HostRuntime) {
    let mut text = recorded::space();
    let Some(n) = channel::read_all(rt, &mut text) else {
        return;
    };
    let mut bytes = recorded::space();
    let mut told = Told::new(&mut bytes);
    recorded::replay(recorded::front(&text, n), &mut told, &mut Recorded);
    let end = told.end;
    channel::write(rt, recorded::front(&bytes, end));
}
