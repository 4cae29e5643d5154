// The month-end report, line by line: the listings of jobs in, positions in a lent table and the counts beside it.
#![tactic(auto)]

ghost use Rattle.std.specs.Prelude.{◌≡◌, List, ℕ, ◌≤◌, ltb};
ghost use Rattle.refusal.specs.Table.{first};
ghost use Rattle.month.specs.Month.{most_jobs, job_number, over_counted, slip_lines, line_taken};
ghost use Rattle.month.specs.Calls.{at_line, names_held, books_of, standing, progress_of, Begun, TookLine};
ghost use Rattle.slips.specs.declared.Slip.TheVariants.{Held, Order, Refused};
ghost use Rattle.month.specs.Inner.{limit_lines, book_slip, Stepped, Fits, SmallSlip};

use ledger::Lot;
use refusal::Refusal;
use slips::Slip;

const MOST_JOBS: usize = 200;

// A job's millionths.
const MILLION: usize = 1_000_000;

// Where the report stands between two lines, beside its table: the names in it, the jobs begun and accepted, the open job's lines and millionths, and the number
// of the line to come.
#[derive(Clone, Copy)]
pub struct Tally {
    pub names: usize,
    pub jobs: usize,
    pub accepted: usize,
    pub lines: usize,
    pub sum: usize,
    pub line: usize,
}

// A refusal, and the number of the line at fault.
#[derive(Clone, Copy)]
pub struct Fault {
    pub refusal: Refusal,
    pub line: usize,
}

// What was said of a line, with the line's number where it was refused.
pub fn at_line<T: Drop>(said: Result<T, Refusal>, line: usize) -> Result<T, Fault>
    ensures { result ≡ at_line said line }
{
    said.map_err(|refusal| Fault { refusal, line })
}

// An empty table, and the counts of a report on nothing.
pub fn begin_report(table: &mut [usize]) -> Result<Tally, Fault>
    ensures { Begun table.old result table.new }
{
    lent::clear(table);
    Ok(Tally {
        names: 0,
        jobs: 0,
        accepted: 0,
        lines: 0,
        sum: 0,
        line: 1,
    })
}

#[tactic(auto, unfolding(crate::specs::Month::over_counted, crate::specs::Calls::books_of))]
fn is_over_counted(y: Tally) -> bool
    ensures { (t : List ℕ) → result ≡ over_counted (books_of y t) }
{
    ledger::MOST_ADDED < y.accepted
        || ledger::MOST_ADDED < y.lines
        || ledger::MOST_ADDED < y.sum
        || ledger::MOST_ADDED < y.line
}

// Whether the job that a holding belongs to is one too many: the open one, or the next.
fn is_job_over(y: Tally) -> bool
    ensures { (t : List ℕ) → result ≡ ltb most_jobs (job_number (books_of y t)) }
{
    if y.lines == 0 {
        MOST_JOBS <= y.jobs
    } else {
        MOST_JOBS < y.jobs
    }
}

// The number of that job.
fn job_number(y: Tally) -> usize
    requires { y.jobs ≤ 200 }
    ensures { (t : List ℕ) → result ≡ job_number (books_of y t) }
{
    if y.lines == 0 { y.jobs + 1 } else { y.jobs }
}

// 9 of a holding's line, but for its name.
#[tactic(auto, unfolding(crate::specs::Inner::limit_lines, refusal::specs::Table::first, refusal::specs::Table::or_else))]
fn judge_held(y: Tally) -> Result<(), Refusal>
    ensures { (t : List ℕ) → result ≡ first (limit_lines (books_of y t)) }
{
    refusal::refuse(is_job_over(y), Refusal::OverLimit)?;
    refusal::refuse(is_over_counted(y), Refusal::OverLimit)
}

// A holding is entered in the table.
fn take_held(table: &mut [usize], y: Tally, w: &[u8], m: usize) -> Result<Tally, Fault>
    requires fits { Fits table.old y }
    requires m_bound { m ≤ 1000000 }
    ensures { Stepped (book_slip (books_of y table.old) w.now (Held m)) table.old result table.new }
{
    at_line(judge_held(y), y.line)?;
    let job = job_number(y);
    let name = keys::key_of(w);
    let lot = Lot {
        name,
        millionths: m,
        job,
    };
    let names = at_line(ledger::enter(table, y.names, lot), y.line)?;
    Ok(Tally {
        names,
        jobs: job,
        lines: y.lines + 1,
        sum: y.sum + m,
        line: y.line + 1,
        ..y
    })
}

// 15 and 9 of an `order` line of k names.
#[tactic(auto, unfolding(crate::specs::Month::slip_lines, crate::specs::Calls::books_of, refusal::specs::Table::first, refusal::specs::Table::or_else))]
fn judge_order(y: Tally, k: usize) -> Result<(), Refusal>
    ensures { (t w : List ℕ) → result ≡ first (slip_lines (books_of y t) w (Order k)) }
{
    refusal::refuse(k != y.lines, Refusal::MalformedText)?;
    refusal::refuse(y.sum != MILLION, Refusal::MalformedText)?;
    refusal::refuse(is_over_counted(y), Refusal::OverLimit)
}

// The open job's `order` line ends it.
fn take_order(y: Tally, k: usize) -> Result<Tally, Fault>
    requires { y.names ≤ 256 }
    ensures { (t w : List ℕ) → result ≡ progress_of (book_slip (books_of y t) w (Order k)) }
{
    at_line(judge_order(y, k), y.line)?;
    Ok(Tally {
        accepted: y.accepted + 1,
        lines: 0,
        sum: 0,
        line: y.line + 1,
        ..y
    })
}

// 15 and 9 of a `refused` line.
#[tactic(auto, using(crate::proofs::Steps::one_more), unfolding(crate::specs::Month::slip_lines, crate::specs::Calls::books_of, refusal::specs::Table::first, refusal::specs::Table::or_else))]
fn judge_refused(y: Tally) -> Result<(), Refusal>
    ensures { (t w : List ℕ) → result ≡ first (slip_lines (books_of y t) w Refused) }
{
    refusal::refuse(y.lines != 0, Refusal::MalformedText)?;
    refusal::refuse(MOST_JOBS <= y.jobs, Refusal::OverLimit)?;
    refusal::refuse(is_over_counted(y), Refusal::OverLimit)
}

// A refused job.
fn take_refused(y: Tally) -> Result<Tally, Fault>
    requires { y.names ≤ 256 }
    ensures { (t w : List ℕ) → result ≡ progress_of (book_slip (books_of y t) w Refused) }
{
    at_line(judge_refused(y), y.line)?;
    Ok(Tally {
        jobs: y.jobs + 1,
        line: y.line + 1,
        ..y
    })
}

// A line that was read, whose name is w where it is a holding.
fn take_slip(table: &mut [usize], y: Tally, w: &[u8], slip: Slip) -> Result<Tally, Fault>
    requires fits { Fits table.old y }
    requires small_slip { SmallSlip slip }
    ensures { Stepped (book_slip (books_of y table.old) w.now slip) table.old result table.new }
{
    match slip {
        Slip::Other => at_line(Err(Refusal::MalformedText), y.line),
        Slip::Held(m) => take_held(table, y, w, m),
        Slip::Order(k) => take_order(y, k),
        Slip::Refused => take_refused(y),
    }
}

// The next line, but for the zeros that stand past the names.
fn take_next(
    table: &mut [usize],
    progress: Result<Tally, Fault>,
    line: &[u8],
) -> Result<Tally, Fault>
    ensures { Stepped (line_taken (standing progress table.old) line.now) table.old result table.new }
{
    let y = progress?;
    at_line(ledger::judge_table(table.len(), y.names), y.line)?;
    take_slip(
        table,
        y,
        fields::piece(line, b'\t', 0),
        slips::read_slip(line),
    )
}

// How many names the counts say that there are; a refusal none.
pub fn names_held(progress: Result<Tally, Fault>) -> usize
    ensures { result ≡ names_held progress }
{
    progress.map_or(0, |y| y.names)
}

// One line, without its newline. What was refused stays so. Zeros stand past the names; a refusal leaves zeros throughout.
pub fn take_line(
    table: &mut [usize],
    progress: Result<Tally, Fault>,
    line: &[u8],
) -> Result<Tally, Fault>
    ensures { TookLine table.old progress line.now result table.new }
{
    let said = take_next(table, progress, line);
    ledger::clear_past(table, names_held(said));
    said
}
