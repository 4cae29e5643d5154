// A job text read into a job, in one walk over its lines and fields, and one to its ceilings.
#![tactic(auto)]

ghost use Rattle.std.specs.Prelude.{◌≡◌, cond, true, ◌+◌, ◌≤◌, length};
ghost use Rattle.fields.specs.Split.{split};
ghost use Rattle.lent.specs.Grid.{zeros, noughts};
ghost use Rattle.refusal.specs.Table.{first};
ghost use Rattle.reading.specs.Reading.{start_of, is_over, job_of, JobRead};
ghost use Rattle.reading.specs.Inner.{text_size_lines, limited, RowRead, LineRead, LinesAsked, LinesRead, NamesRead, BlockAsked, DaysAsked, BlockRead, LastRead, CeilingsAsked, CeilingsRead, TextRead};

use heading::Task;
use linkage::{Distance, Linkage};
use refusal::Refusal;

pub const MOST_BYTES: usize = 65536;

// What stands after a first line: rows of prices or of a covariance, a cell for each asset, with ceilings or without.
#[derive(Clone, Copy)]
pub struct Block {
    pub assets: usize,
    pub rows: usize,
    pub priced: bool,
    pub ceiled: bool,
}

// What a job text is; its cells, where its assets' names begin, and their ceilings are in the lent buffers.
#[derive(Clone, Copy)]
pub enum Job {
    Hrp {
        block: Block,
        distance: Distance,
    },
    Hcaa {
        block: Block,
        linkage: Linkage,
        distance: Distance,
    },
}

// The size of a block.
#[derive(Clone, Copy)]
struct Extent {
    assets: usize,
    rows: usize,
}

// The cells of a line, n of them, into a row, as far as it reaches. Each is looked at as it is read.
fn read_row(line: &[u8], n: usize, row: &mut [f64]) -> bool
    requires line_len_bound { length line.now ≤ 65536 }
    requires row_len_bound { length row.old ≤ n }
    ensures { RowRead n line.now result row.new }
{
    let mut at = 0;
    let mut j = 0;
    while at <= line.len() {
        let e = fields::end_of(line, b'\t', at);
        let cell = decimals::read_cell(&line[at..e]);
        let Some(v) = cell else {
            return false;
        };
        if j < row.len() {
            row[j] = v;
        }
        at = e + 1;
        j += 1;
    }
    j == n
}

// A line with n cells: of an asset, its name looked at, or of a day.
fn read_line(line: &[u8], named: bool, n: usize, row: &mut [f64]) -> bool
    requires line_len_bound { length line.now ≤ 65536 }
    requires row_len_bound { length row.old ≤ n }
    ensures { LineRead named n line.now result row.new }
{
    if !named {
        return read_row(line, n, row);
    }
    let e = fields::end_of(line, b'\t', 0);
    if !names::is_name(&line[..e]) {
        return false;
    }
    if e == line.len() {
        return n == 0;
    }
    let after = e + 1;
    read_row(&line[after..], n, row)
}

// The lines with cells, after `before` others, each from where the one before it ended; w cells of each are held. Nothing stands after the last.
fn read_lines(
    text: &[u8],
    from: usize,
    before: usize,
    rows: usize,
    n: usize,
    w: usize,
    cells: &mut [f64],
    starts: &mut [usize],
) -> bool
    requires { LinesAsked text.now from before rows n w (length cells.old) (length starts.old) }
    ensures { LinesRead text.now before rows n w result cells.old starts.old cells.new starts.new }
{
    let mut at = from;
    for i in 0..rows {
        if i < starts.len() {
            starts[i] = at;
        }
        let e = fields::end_of(text, b'\n', at);
        let a = i * w;
        let b = a + w;
        if !read_line(&text[at..e], before == 1, n, &mut cells[a..b]) {
            return false;
        }
        at = e + 1;
    }
    at == text.len()
}

// The names on a line that begins at a place, and where they begin.
fn read_names(line: &[u8], from: usize, starts: &mut [usize]) -> bool
    requires line_bound { from + length line.now ≤ 65536 }
    requires starts_in_bounds { length starts.old ≤ length (split 9 line.now) }
    ensures { NamesRead line.now from result starts.new }
{
    let mut at = 0;
    let mut i = 0;
    while at <= line.len() {
        if i < starts.len() {
            starts[i] = from + at;
        }
        let e = fields::end_of(line, b'\t', at);
        if !names::is_name(&line[at..e]) {
            return false;
        }
        at = e + 1;
        i += 1;
    }
    true
}

// Whether so many rows of n cells are over the limits of an allocator.
#[tactic(auto, using(std::proofs::lemmas::Bool::Decides::nat_tests), unfolding(crate::specs::Reading::is_over))]
fn is_over(rows: usize, n: usize) -> bool
    requires { rows ≤ 65536 }
    ensures { result ≡ is_over rows n }
{
    lent::MOST_ASSETS < n || lent::MOST_CELLS < rows * n
}

// How many cells of a row are held: none of a block over the limits, which is only looked at.
fn held(rows: usize, n: usize) -> usize
    requires { rows ≤ 65536 }
    ensures { result ≡ cond (is_over rows n) 0 n }
{
    if is_over(rows, n) { 0 } else { n }
}

// Where the days begin: here, or after one line of ceilings.
fn days_from(text: &[u8], at: usize, more: usize) -> usize
    requires { DaysAsked text.now at more }
    ensures { result ≡ start_of 10 text.now (2 + more) }
{
    if more == 0 {
        return at;
    }
    fields::end_of(text, b'\n', at) + 1
}

// Prices: a line of names, and after the ceilings, where there are any, a line for each day. `ends` lines end in the text.
fn read_prices(
    text: &[u8],
    from: usize,
    ends: usize,
    more: usize,
    cells: &mut [f64],
    starts: &mut [usize],
) -> Option<Extent>
    requires { BlockAsked text.now from ends true more (length cells.old) (length starts.old) }
    ensures { BlockRead text.now result cells.old starts.old cells.new starts.new }
{
    let before = 2 + more;
    if ends < before {
        return None;
    }
    let rows = ends - before;
    let e = fields::end_of(text, b'\n', from);
    let line = &text[from..e];
    let n = fields::count(line, b'\t') + 1;
    let w = held(rows, n);
    if !read_names(line, from, &mut starts[..w]) {
        return None;
    }
    let at = days_from(text, e + 1, more);
    let good = read_lines(text, at, before, rows, n, w, cells, &mut starts[..0]);
    good.then_some(Extent { assets: n, rows })
}

// The names and the cells after the first line: prices, or a covariance, a line for each asset.
fn read_block(
    text: &[u8],
    from: usize,
    ends: usize,
    daily: bool,
    more: usize,
    cells: &mut [f64],
    starts: &mut [usize],
) -> Option<Extent>
    requires { BlockAsked text.now from ends daily more (length cells.old) (length starts.old) }
    ensures { BlockRead text.now result cells.old starts.old cells.new starts.new }
{
    if daily {
        return read_prices(text, from, ends, more, cells, starts);
    }
    let n = ends - 1;
    let w = held(n, n);
    // a ceiling has the form of a cell: it is looked at as one more, which is not held
    let good = read_lines(text, from, 1, n, n + more, w, cells, &mut starts[..w]);
    good.then_some(Extent { assets: n, rows: n })
}

// The ceilings that end n pieces.
fn read_last(s: &[u8], d: u8, n: usize, ceilings: &mut [usize]) -> bool
    requires s_len_bound { length s.now ≤ 65536 }
    requires n_in_bounds { n ≤ length (split d s.now) }
    requires ceilings_len_bound { length ceilings.old ≤ n }
    ensures { LastRead d s.now n result ceilings.new }
{
    let mut at = 0;
    for i in 0..n {
        let e = fields::end_of(s, d, at);
        let read = ceilings::read_ceiling(fields::last_piece(&s[at..e], b'\t'));
        let Some(c) = read else {
            return false;
        };
        if i < ceilings.len() {
            ceilings[i] = c;
        }
        at = e + 1;
    }
    true
}

// The ceilings of n assets, where there are any: on the line after the names, whose fields end with themselves, or at the ends of the assets' lines.
fn read_ceilings(
    text: &[u8],
    from: usize,
    daily: bool,
    limited: bool,
    n: usize,
    ceilings: &mut [usize],
) -> bool
    requires { CeilingsAsked text.now from daily limited n (length ceilings.old) }
    ensures { CeilingsRead text.now result ceilings.old ceilings.new }
{
    if !limited {
        return true;
    }
    if !daily {
        return read_last(&text[from..], b'\n', n, ceilings);
    }
    let at = fields::end_of(text, b'\n', from) + 1;
    let e = fields::end_of(text, b'\n', at);
    let line = &text[at..e];
    if fields::count(line, b'\t') + 1 != n {
        return false;
    }
    read_last(line, b'\t', n, ceilings)
}

// The job that a first line asks for, of a block.
fn job_of(asked: Result<Task, Refusal>, block: Block) -> Result<Job, Refusal>
    ensures { result ≡ job_of block asked }
{
    match asked? {
        Task::Hrp { distance } => Ok(Job::Hrp { block, distance }),
        Task::Hcaa { linkage, distance } => Ok(Job::Hcaa {
            block,
            linkage,
            distance,
        }),
    }
}

// The same, or what refuses it: 8 and 7, then 9 for a block over the limits.
#[tactic(auto, unfolding(refusal::specs::Table::or_else))]
fn judged(asked: Result<Task, Refusal>, block: Block) -> Result<Job, Refusal>
    requires { block.rows ≤ 65536 }
    ensures { result ≡ limited (is_over block.rows block.assets) (job_of block asked) }
{
    let job = job_of(asked, block)?;
    refusal::refuse(is_over(block.rows, block.assets), Refusal::OverLimit)?;
    Ok(job)
}

// A text within its limit, its newlines counted once.
fn read_text(
    text: &[u8],
    cells: &mut [f64],
    starts: &mut [usize],
    ceilings: &mut [usize],
) -> Result<Job, Refusal>
    requires text_len_bound { length text.now ≤ 65536 }
    requires in_bounds { 4096 ≤ length cells.old }
    requires in_bounds_2 { 64 ≤ length starts.old }
    requires in_bounds_3 { 64 ≤ length ceilings.old }
    ensures { TextRead text.now result cells.old starts.old ceilings.old cells.new starts.new ceilings.new }
{
    let ends = fields::count(text, b'\n');
    refusal::refuse(ends < 1, Refusal::MalformedText)?;
    let e = fields::end_of(text, b'\n', 0);
    let line = &text[..e];
    let asked = heading::head(line);
    let priced = heading::is_priced(line);
    let ceiled = heading::is_ceiled(line);
    let from = e + 1;
    let found = read_block(text, from, ends, priced, usize::from(ceiled), cells, starts);
    let Extent { assets, rows } = found.ok_or(Refusal::MalformedText)?;
    let w = held(rows, assets);
    let good = read_ceilings(text, from, priced, ceiled, assets, &mut ceilings[..w]);
    refusal::refuse(!good, Refusal::MalformedText)?;
    judged(
        asked,
        Block {
            assets,
            rows,
            priced,
            ceiled,
        },
    )
}

// What the sizes refuse: 9, then 11 for any of the buffers.
#[tactic(auto, unfolding(crate::specs::Inner::text_size_lines, refusal::specs::Table::first, refusal::specs::Table::or_else))]
fn judge(bytes: usize, cells: usize, starts: usize, ceilings: usize) -> Result<(), Refusal>
    ensures { result ≡ first (text_size_lines bytes (record { cells = cells; starts = starts; ceilings = ceilings })) }
{
    refusal::refuse(MOST_BYTES < bytes, Refusal::OverLimit)?;
    refusal::refuse(cells < lent::MOST_CELLS, Refusal::ShortBuffer)?;
    refusal::refuse(starts < lent::MOST_ASSETS, Refusal::ShortBuffer)?;
    refusal::refuse(ceilings < lent::MOST_ASSETS, Refusal::ShortBuffer)
}

// Zeros in the three buffers.
fn blank(cells: &mut [f64], starts: &mut [usize], ceilings: &mut [usize])
    ensures cells_after { cells.new ≡ zeros (length cells.old) }
    ensures starts_after { starts.new ≡ noughts (length starts.old) }
    ensures ceilings_after { ceilings.new ≡ noughts (length ceilings.old) }
{
    lent::clear(cells);
    lent::clear(starts);
    lent::clear(ceilings);
}

// Reads a job text: what it is, its cells, where its assets' names begin, and their ceilings. A text refused half-way leaves zeros.
pub fn read_job(
    text: &[u8],
    cells: &mut [f64],
    starts: &mut [usize],
    ceilings: &mut [usize],
) -> Result<Job, Refusal>
    ensures { JobRead text.now (record { cells = length cells.old; starts = length starts.old; ceilings = length ceilings.old })
        result cells.new starts.new ceilings.new }
{
    let said = judge(text.len(), cells.len(), starts.len(), ceilings.len());
    blank(cells, starts, ceilings);
    said?;
    let read = read_text(text, cells, starts, ceilings);
    if read.is_err() {
        blank(cells, starts, ceilings);
    }
    read
}
