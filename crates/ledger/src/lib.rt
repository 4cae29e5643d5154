// What is kept of each asset name over many jobs, in a lent table of 256 positions, in byte order of the names.
#![tactic(auto)]

ghost use Rattle.std.specs.Prelude.{◌≡◌, false, ◌&&◌, [], ◌∷◌, ◌<◌, ◌≤◌, min, max, ltb, eqb, length, set, take};
ghost use Rattle.refusal.specs.Table.{first};
ghost use Rattle.refusal.specs.declared.Refusal.TheVariants.{OverLimit};
ghost use Rattle.lent.specs.Grid.{over};
ghost use Rattle.keys.specs.Keys.{key_same};
ghost use Rattle.ledger.specs.Ledger.{opened, jobs_after, added, entered, position_at, position_in, positions, first_ones, beyond, entered_lines, table_lines, enter_outcome, entered_as, cleared_past, LotEntered};
ghost use Rattle.ledger.specs.Inner.{key_place, insert_at, step_left, StepLeft};

use keys::Key;
use refusal::Refusal;

pub const MOST_NAMES: usize = 256;

// 256 positions of seven numbers.
pub const TABLE_CELLS: usize = 1792;

// The largest total, weight or count of jobs that is added to: 2^62.
pub const MOST_ADDED: usize = 4_611_686_018_427_387_904;

// What is kept of one name.
#[derive(Clone, Copy)]
pub struct Position {
    pub name: Key,
    pub jobs: usize,
    pub last: usize,
    pub smallest: usize,
    pub largest: usize,
    pub total: usize,
}

// A holding of a job: so many millionths of a name.
#[derive(Clone, Copy)]
pub struct Lot {
    pub name: Key,
    pub millionths: usize,
    pub job: usize,
}

// Position i of the table: seven numbers.
fn position_at(table: &[usize], i: usize) -> Position
    requires { (length table.now ≡ 1792) × (i < 256) }
    ensures { result ≡ position_at table.now i }
{
    let k = i * 7;
    Position {
        name: Key {
            high: table[k],
            low: table[k + 1],
        },
        jobs: table[k + 2],
        last: table[k + 3],
        smallest: table[k + 4],
        largest: table[k + 5],
        total: table[k + 6],
    }
}

// Position i, where the table is one and has it; else a blank one.
#[tactic(auto, unfolding(crate::specs::Ledger::position_in))]
pub fn position_in(table: &[usize], i: usize) -> Position
    ensures { result ≡ position_in table.now i }
{
    if table.len() == TABLE_CELLS && i < MOST_NAMES {
        return position_at(table, i);
    }
    Position {
        name: Key { high: 0, low: 0 },
        jobs: 0,
        last: 0,
        smallest: 0,
        largest: 0,
        total: 0,
    }
}

fn put_position(table: &mut [usize], i: usize, p: Position)
    requires { (length table.old ≡ 1792) × (i < 256) }
    ensures { positions table.new ≡ set (positions table.old) i p }
{
    let k = i * 7;
    table[k] = p.name.high;
    table[k + 1] = p.name.low;
    table[k + 2] = p.jobs;
    table[k + 3] = p.last;
    table[k + 4] = p.smallest;
    table[k + 5] = p.largest;
    table[k + 6] = p.total;
}

// The place of the first of n positions whose name is not before the given one, or n.
fn place_of(table: &[usize], n: usize, name: Key) -> usize
    requires { (length table.now ≡ 1792) × (n ≤ 256) }
    ensures value { result ≡ key_place (take n (positions table.now)) name }
    ensures upper_bound { result ≤ n }
{
    for i in 0..n {
        if !keys::is_before(position_at(table, i).name, name) {
            return i;
        }
    }
    n
}

// Whether the position at that place, if it is one of the n, is the name's.
fn is_there(table: &[usize], n: usize, at: usize, name: Key) -> bool
    requires { (length table.now ≡ 1792) × (n ≤ 256) }
    ensures { result ≡ (ltb at n && key_same (position_at table.now at).name name) }
{
    at < n && keys::is_same(position_at(table, at).name, name)
}

// The positions from a place on go one place up, and p stands there.
fn insert(table: &mut [usize], at: usize, n: usize, p: Position)
    requires { (length table.old ≡ 1792) × (at ≤ n) × (n < 256) }
    ensures { positions table.new ≡ over (insert_at at p (take n (positions table.old))) (positions table.old) }
{
    let mut hold = p;
    for i in at..n {
        let next = position_at(table, i);
        put_position(table, i, hold);
        hold = next;
    }
    put_position(table, n, hold);
}

#[tactic(auto, unfolding(crate::specs::Ledger::opened))]
fn opening(h: Lot) -> Position
    ensures { result ≡ opened h }
{
    let name = h.name;
    Position {
        name,
        jobs: 1,
        last: h.job,
        smallest: h.millionths,
        largest: h.millionths,
        total: h.millionths,
    }
}

// A number is past what can be added to.
#[tactic(auto, unfolding(crate::specs::Ledger::beyond))]
fn is_beyond(p: Position, h: Lot) -> bool
    ensures { result ≡ beyond p h }
{
    MOST_ADDED < p.total || MOST_ADDED < h.millionths || MOST_ADDED < p.jobs
}

// A name counts once in a job, however often it is met there.
fn jobs_after(p: Position, h: Lot) -> usize
    requires { beyond p h ≡ false }
    ensures { result ≡ jobs_after p h }
{
    if p.last == h.job {
        return p.jobs;
    }
    p.jobs + 1
}

fn join(p: Position, h: Lot) -> Position
    requires { beyond p h ≡ false }
    ensures { result ≡ added p h }
{
    let name = p.name;
    Position {
        name,
        jobs: jobs_after(p, h),
        last: h.job,
        smallest: p.smallest.min(h.millionths),
        largest: p.largest.max(h.millionths),
        total: p.total + h.millionths,
    }
}

// A name that is not there yet is put in at its place, if there is room for it.
#[tactic(auto, unfolding(crate::specs::Ledger::entered_as, crate::specs::Inner::step_left, refusal::specs::Table::first, refusal::specs::Table::or_else))]
fn add(table: &mut [usize], n: usize, at: usize, h: Lot) -> Result<usize, Refusal>
    requires { (length table.old ≡ 1792) × (at ≤ n) × (n ≤ 256) }
    ensures value { result ≡ entered_as (first ((eqb n 256, OverLimit) ∷ [])) (insert_at at (opened h) (take n (positions table.old))) }
    ensures table_after { positions table.new ≡ step_left (first ((eqb n 256, OverLimit) ∷ [])) (insert_at at (opened h) (take n (positions table.old))) (positions table.old) }
{
    refusal::refuse(n == MOST_NAMES, Refusal::OverLimit)?;
    insert(table, at, n, opening(h));
    Ok(n + 1)
}

// A name that is there: the holding joins its position, if the numbers can be added.
#[tactic(auto, unfolding(crate::specs::Ledger::entered_as, crate::specs::Inner::step_left, refusal::specs::Table::first, refusal::specs::Table::or_else))]
fn update(table: &mut [usize], n: usize, at: usize, h: Lot) -> Result<usize, Refusal>
    requires { (length table.old ≡ 1792) × (at < n) × (n ≤ 256) }
    ensures value { result ≡ entered_as (first ((beyond (position_at table.old at) h, OverLimit) ∷ [])) (set (take n (positions table.old)) at (added (position_at table.old at) h)) }
    ensures table_after { positions table.new ≡ step_left (first ((beyond (position_at table.old at) h, OverLimit) ∷ [])) (set (take n (positions table.old)) at (added (position_at table.old at) h)) (positions table.old) }
{
    let p = position_at(table, at);
    refusal::refuse(is_beyond(p, h), Refusal::OverLimit)?;
    put_position(table, at, join(p, h));
    Ok(n)
}

// One holding of a job, entered among the first `names` positions of a table of the right length.
fn put_in(table: &mut [usize], names: usize, h: Lot) -> Result<usize, Refusal>
    requires { (length table.old ≡ 1792) × (names ≤ 256) }
    ensures value { result ≡ entered_as (first (entered_lines (first_ones names table.old) h)) (entered (first_ones names table.old) h) }
    ensures table_after { positions table.new ≡ step_left (first (entered_lines (first_ones names table.old) h)) (entered (first_ones names table.old) h) (positions table.old) }
{
    let name = h.name;
    let at = place_of(table, names, name);
    if is_there(table, names, at, name) {
        return update(table, names, at, h);
    }
    add(table, names, at, h)
}

// 9 and 10 of a table of so many numbers with so many names in it.
#[tactic(auto, unfolding(crate::specs::Ledger::table_lines, refusal::specs::Table::first, refusal::specs::Table::or_else))]
pub fn judge_table(cells: usize, names: usize) -> Result<(), Refusal>
    ensures { result ≡ first (table_lines cells names) }
{
    refusal::refuse(MOST_NAMES < names, Refusal::OverLimit)?;
    refusal::refuse(cells != TABLE_CELLS, Refusal::SliceLength)
}

// The holding among the first `names` positions, where the table can have them.
fn enter_judged(table: &mut [usize], names: usize, h: Lot) -> Result<usize, Refusal>
    ensures value { result ≡ entered_as (enter_outcome table.old names h) (entered (first_ones names table.old) h) }
    ensures step_left { StepLeft (enter_outcome table.old names h) (entered (first_ones names table.old) h) table.old table.new }
{
    judge_table(table.len(), names)?;
    put_in(table, names, h)
}

// What stands past the first `names` positions of a table is zero.
pub fn clear_past(table: &mut [usize], names: usize)
    ensures { table.new ≡ cleared_past names table.old }
{
    if names <= MOST_NAMES {
        lent::clear_from(table, names * 7);
    }
}

// One holding of a job, entered among the first `names` positions of the table, zeros after them. A refusal leaves zeros throughout.
pub fn enter(table: &mut [usize], names: usize, h: Lot) -> Result<usize, Refusal>
    ensures { LotEntered table.old names h result table.new }
{
    let said = enter_judged(table, names, h);
    clear_past(table, said.unwrap_or(0));
    said
}
