// Replays recorded calls. Reads them from standard input, makes each on buffers that hold junk, and writes the answers to standard output; both are lines
// of hex tokens, as oracle/README.md says. oracle/rust records them from the published Rust.
#![tactic(auto)]

ghost use Rattle.recorded.specs.Told.{Continues};

use distances::Measure;
use lent::Size;
use linkage::{Linkage, Merged};
use recorded::{Calls, Tokens, Told};
use refusal::Refusal;
use tree::Node;

const MEASURES: [Measure; 2] = [Measure::Hrp, Measure::Hcaa];

const LINKAGES: [Linkage; 4] = [
    Linkage::Single,
    Linkage::Complete,
    Linkage::Average,
    Linkage::Ward,
];

// What a call on a matrix begins with.
#[derive(Clone, Copy)]
struct Asked {
    room: usize,
    parameter: usize,
    rows: usize,
    columns: usize,
    len: usize,
}

// ---- calls

// The call of an opcode 1 to 9.
fn run(code: usize, h: Asked, cells: &[f64], out: &mut [f64]) -> Result<Size, Refusal> {
    let rows = h.rows;
    let columns = h.columns;
    match code {
        1 => resample::resample_prices(cells, rows, columns, h.parameter, out),
        2 => resample::returns_from_prices(cells, rows, columns, out),
        3 => stats::covariance(cells, rows, columns, out),
        4 => stats::shrink_covariance(cells, rows, columns, out),
        5 => stats::cov2corr(cells, rows, columns, out),
        6 => stats::mean_expected_returns(cells, rows, columns, out),
        7 => stats::exponential_expected_returns(cells, rows, columns, out),
        8 => {
            let measure = recorded::choice(h.parameter, &MEASURES, Measure::Hcaa);
            distances::corr_to_distances(measure, cells, rows, columns, out)
        }
        _ => distances::distance_of_distances(cells, rows, columns, out),
    }
}

// Only these calls have a number between the room and the rows.
fn has_parameter(code: usize) -> bool {
    matches!(code, 1 | 8 | 10)
}

fn head(code: usize, tokens: &mut Tokens) -> Asked {
    Asked {
        room: tokens.next(),
        parameter: if has_parameter(code) {
            tokens.next()
        } else {
            0
        },
        rows: tokens.next(),
        columns: tokens.next(),
        len: tokens.next(),
    }
}

// A matrix to doubles.
#[tactic(auto, using(recorded::proofs::Laws::continues_none, recorded::proofs::Laws::continues_then))]
fn matrix(code: usize, tokens: &mut Tokens, told: &mut Told)
    ensures { Continues told.old told.new }
{
    let mut cells = [1.5; 4352];
    let mut out = [1.5; 4352];
    let h = head(code, tokens);
    tokens.fill(&mut cells, h.len);
    let answer = run(
        code,
        h,
        recorded::front(&cells, h.len),
        recorded::front_mut(&mut out, h.room),
    );
    told.put_answer(answer, recorded::front(&out, h.room));
}

// The rows of a merge step as a matrix of two columns.
fn rows_of(answer: Result<Merged, Refusal>) -> Result<Size, Refusal> {
    match answer {
        Ok(Merged { rows, .. }) => Ok(Size { rows, columns: 2 }),
        Err(refusal) => Err(refusal),
    }
}

// A matrix to merge rows. The pairs looked at are not among the recorded answers.
#[tactic(auto, using(recorded::proofs::Laws::continues_none, recorded::proofs::Laws::continues_then))]
fn children(tokens: &mut Tokens, told: &mut Told)
    ensures { Continues told.old told.new }
{
    let mut cells = [1.5; 4352];
    let mut out = [7usize; 512];
    let h = head(10, tokens);
    tokens.fill(&mut cells, h.len);
    let answer = linkage::linkage_children(
        recorded::front(&cells, h.len),
        h.rows,
        h.columns,
        recorded::choice(h.parameter, &LINKAGES, Linkage::Ward),
        recorded::front_mut(&mut out, h.room),
    );
    told.put_answer(rows_of(answer), recorded::front(&out, h.room));
}

// Merge rows to a leaf order.
#[tactic(auto, using(recorded::proofs::Laws::continues_none, recorded::proofs::Laws::continues_then))]
fn leaves(tokens: &mut Tokens, told: &mut Told)
    ensures { Continues told.old told.new }
{
    let mut ids = [7usize; 512];
    let mut out = [7usize; 512];
    let room = tokens.next();
    let n = tokens.next();
    let node = tokens.next();
    let count = tokens.fill_from(&mut ids, 0);
    let answer = tree::quasi_diagonalization(
        recorded::front(&ids, count),
        n,
        Node(node),
        recorded::front_mut(&mut out, room),
    );
    told.put_answer(answer, recorded::front(&out, room));
}

// A matrix and a leaf order to a matrix.
#[tactic(auto, using(recorded::proofs::Laws::continues_none, recorded::proofs::Laws::continues_then))]
fn seriated(tokens: &mut Tokens, told: &mut Told)
    ensures { Continues told.old told.new }
{
    let mut cells = [1.5; 4352];
    let mut order = [7usize; 512];
    let mut out = [1.5; 4352];
    let h = head(12, tokens);
    tokens.fill(&mut cells, h.len);
    let count = tokens.fill_from(&mut order, 0);
    let answer = tree::seriate_matrix(
        recorded::front(&cells, h.len),
        h.rows,
        h.columns,
        recorded::front(&order, count),
        recorded::front_mut(&mut out, h.room),
    );
    told.put_answer(answer, recorded::front(&out, h.room));
}

// A name to a step.
#[tactic(auto, using(recorded::proofs::Laws::continues_none, recorded::proofs::Laws::continues_then))]
fn step(tokens: &mut Tokens, told: &mut Told)
    ensures { Continues told.old told.new }
{
    let mut name = [7u8; 512];
    let named = tokens.fill_from(&mut name, 0);
    let found = resample::freq_step(recorded::front(&name, named));
    told.put_sizes(0, 1, 1);
    told.put(found, b' ');
    told.put_last(0);
}

#[derive(Drop)]
struct Recorded;

impl Calls for Recorded {
    fn call(&mut self, code: usize, tokens: &mut Tokens, told: &mut Told) {
        match code {
            10 => children(tokens, told),
            11 => leaves(tokens, told),
            12 => seriated(tokens, told),
            13 => step(tokens, told),
            _ => matrix(code, tokens, told),
        }
    }
}

fn main(rt: HostRuntime) {
    let mut text = recorded::space();
    let Some(n) = channel::read_all(rt, &mut text) else {
        return;
    };
    let mut bytes = recorded::space();
    let mut told = Told::new(&mut bytes);
    recorded::replay(recorded::front(&text, n), &mut told, &mut Recorded);
    let end = told.end;
    channel::write(rt, recorded::front(&bytes, end));
}
