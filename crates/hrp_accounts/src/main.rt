// Replays recorded accounts of HRP. Reads them from standard input and writes the answers to standard output; both are lines of hex tokens, as
// oracle/README.md says. oracle/rust records them from the published Rust.
#![tactic(auto)]

ghost use Rattle.recorded.specs.Told.{Continues};

use linkage::Distance;
use recorded::{Buffer, Calls, Matrices, Tokens, Told};
use refusal::Refusal;

const DISTANCES: [Distance; 2] = [Distance::Correlation, Distance::DistanceOfDistances];

// What an account of HRP begins with.
#[derive(Clone, Copy)]
struct Start {
    distance: Distance,
    shrink: bool,
    named: usize,
    assets: usize,
}

// The buffers of accounts.
#[derive(Drop)]
struct Buffers {
    rows: Buffer<usize, 200>,
    order: Buffer<usize, 100>,
    weights: Buffer<f64, 100>,
    correlations: Buffer<f64, 4200>,
    distances: Buffer<f64, 4200>,
    scratch: Buffer<f64, 8300>,
}

type Cells = [f64; 13312];

// ---- reading

fn opening(tokens: &mut Tokens, name: &mut [u8; 64]) -> Start {
    let distance = recorded::choice(tokens.next(), &DISTANCES, Distance::DistanceOfDistances);
    let shrink: usize = tokens.next();
    let named = tokens.fill_from(name, 0);
    let assets = tokens.next();
    Start {
        distance,
        shrink: shrink != 0,
        named,
        assets,
    }
}

// How many entries of each buffer are lent.
fn read_rooms(tokens: &mut Tokens, b: &mut Buffers) {
    b.rows.room = tokens.next();
    b.order.room = tokens.next();
    b.weights.room = tokens.next();
    b.correlations.room = tokens.next();
    b.distances.room = tokens.next();
    b.scratch.room = tokens.next();
}

// ---- answers

// The buffers' answer for an account, and how many entries of what was lent are not zero past it, of scratch all.
#[tactic(auto, using(recorded::proofs::Laws::continues_none, recorded::proofs::Laws::continues_then))]
fn tell(outcome: Result<(), Refusal>, assets: usize, b: &Buffers, told: &mut Told)
    ensures { Continues told.old told.new }
{
    let n = recorded::answered(outcome, assets);
    let ids = recorded::ids_of(n);
    let cells = recorded::product(n, n);
    told.put_outcome(outcome);
    told.put_front(&b.rows.entries, ids);
    told.put_front(&b.order.entries, n);
    told.put_front(&b.weights.entries, n);
    told.put_front(&b.correlations.entries, cells);
    told.put_front(&b.distances.entries, cells);
    let unclean = [
        b.rows.unclean_past(ids),
        b.order.unclean_past(n),
        b.weights.unclean_past(n),
        b.correlations.unclean_past(cells),
        b.distances.unclean_past(cells),
        b.scratch.unclean_past(0),
    ];
    told.put_last(recorded::total(&unclean));
}

// ---- accounts

// The call itself, on what of each buffer is lent.
fn allot(
    h: Start,
    m: Matrices,
    name: &[u8; 64],
    cells: &Cells,
    b: &mut Buffers,
) -> Result<(), Refusal> {
    let prices = m.prices;
    let returns = m.returns;
    let covariance = m.covariance;
    hrp::allocate(
        h.assets,
        recorded::front(cells, prices.len),
        prices.shape,
        recorded::part(cells, recorded::RETURNS, returns.len),
        returns.shape,
        recorded::part(cells, recorded::COVARIANCE, covariance.len),
        covariance.shape,
        recorded::front(name, h.named),
        h.shrink,
        h.distance,
        b.rows.lend(),
        b.order.lend(),
        b.weights.lend(),
        b.correlations.lend(),
        b.distances.lend(),
        b.scratch.lend(),
    )
}

// One account, in what the ones before it left.
#[tactic(auto, using(recorded::proofs::Laws::continues_none, recorded::proofs::Laws::continues_then))]
fn account(tokens: &mut Tokens, b: &mut Buffers, told: &mut Told)
    ensures { Continues told.old told.new }
{
    let mut name = [7u8; 64];
    let mut cells = [1.5; 13312];
    let h = opening(tokens, &mut name);
    let m = tokens.matrices(&mut cells);
    read_rooms(tokens, b);
    let outcome = allot(h, m, &name, &cells, b);
    tell(outcome, h.assets, b, told);
}

// Junk, once: what a call finds in an account's buffers is then what the calls before it left.
fn junk() -> Buffers {
    Buffers {
        rows: Buffer::new(7),
        order: Buffer::new(7),
        weights: Buffer::new(1.5),
        correlations: Buffer::new(1.5),
        distances: Buffer::new(1.5),
        scratch: Buffer::new(1.5),
    }
}

impl Calls for Buffers {
    fn call(&mut self, _code: usize, tokens: &mut Tokens, told: &mut Told) {
        account(tokens, self, told);
    }
}

fn main(rt: HostRuntime) {
    let mut text = recorded::space();
    let Some(n) = channel::read_all(rt, &mut text) else {
        return;
    };
    let mut bytes = recorded::space();
    let mut told = Told::new(&mut bytes);
    recorded::replay(recorded::front(&text, n), &mut told, &mut junk());
    let end = told.end;
    channel::write(rt, recorded::front(&bytes, end));
}
