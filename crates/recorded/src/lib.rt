// Recorded calls, for the programs that play them: hex tokens read and written, parts of lists, how an answer is told, and the loop over
// the calls of a text. Every function is total.
#![tactic(auto)]

ghost use Rattle.std.specs.Prelude.{◌≡◌, ◌++◌, ◌+◌, ◌%◌, ◌-◌, ◌<◌, ◌≤◌, ℕ, List, [], ◌∷◌, min, fold, length, get_or, take, drop, replicate};
ghost use Rattle.std.specs.Float.{binary64};
ghost use Rattle.std.specs.Float.Ieee.{of_bits, to_bits};
ghost use Rattle.lent.specs.Grid.{tab, over};
ghost use Rattle.lent.specs.Lent.{is_set, shape_of, answer_tells};
ghost use Rattle.recorded.specs.Tokens.{worth_of, token_start, token_end, token_value, next_value, next_place, place_after, token_at, part_place, matrix_place, matrices_place};
ghost use Rattle.recorded.specs.Told.{Onward, Continues, table_size, answered_rows, answered_columns, answered_assets, unclean_in, unclean_numbers_in};
ghost use Rattle.recorded.specs.Entries.{no_double, one_double, no_number, one_number};

use lent::Size;
use refusal::Refusal;

// What a token stands for: a double by its bits, a number, or a byte.
pub trait Entry: Copy {
    ghost of_token: { ℕ → Self };

    ghost token: { Self → ℕ };

    // How many entries of a list are not zero.
    ghost unclean: { List Self → ℕ };

    // How many digits are written at least.
    const WIDTH: usize;

    fn from_token(number: u64) -> Self
        ensures { result ≡ of_token number };

    fn token(self) -> u64
        ensures { result ≡ token self };

    ghost unclean_none: { unclean [] ≡ 0 };

    ghost unclean_one: { (x : Self) (xs : List Self) → unclean (x ∷ xs) ≡ min (token x) 1 + unclean xs };
}

impl Entry for f64 {
    ghost of_token = { of_bits binary64 };

    ghost token = { to_bits binary64 };

    ghost unclean = { unclean_in };

    const WIDTH: usize = 16;

    fn from_token(number: u64) -> f64 {
        arithmetic::from_bits(number)
    }

    fn token(self) -> u64 {
        arithmetic::to_bits(self)
    }

    ghost unclean_none = { no_double };

    ghost unclean_one = { one_double };
}

impl Entry for usize {
    ghost of_token = { λ n. n };

    ghost token = { λ n. n };

    ghost unclean = { unclean_numbers_in };

    const WIDTH: usize = 1;

    fn from_token(number: u64) -> usize {
        number as usize
    }

    fn token(self) -> u64 {
        self as u64
    }

    ghost unclean_none = { no_number };

    ghost unclean_one = { one_number };
}

impl Entry for u8 {
    ghost of_token = { λ n. n % 256 };

    ghost token = { λ n. n };

    ghost unclean = { unclean_numbers_in };

    const WIDTH: usize = 1;

    fn from_token(number: u64) -> u8 {
        (number % 256) as u8
    }

    fn token(self) -> u64 {
        self as u64
    }

    ghost unclean_none = { no_number };

    ghost unclean_one = { one_number };
}

// A matrix of an account that was read, but for its cells.
#[derive(Clone, Copy)]
pub struct Given {
    pub shape: Option<Size>,
    pub len: usize,
}

// The three matrices of an account.
#[derive(Clone, Copy)]
pub struct Matrices {
    pub prices: Given,
    pub returns: Given,
    pub covariance: Given,
}

// Expected returns that were read, but for their doubles.
#[derive(Clone, Copy)]
pub struct Expected {
    pub given: bool,
    pub len: usize,
}

// The doubles of a call stand in one list, each part from a place of its own on, the first matrix from 0. None is longer than its part.
pub const RETURNS: usize = 4352;

pub const COVARIANCE: usize = 8704;

pub const EXPECTED: usize = 13056;

// ---- parts of lists

// Everything from `start` on.
pub fn past<T>(list: &[T], start: usize) -> &[T]
    ensures { result.now ≡ drop start list.now }
{
    &list[start.min(list.len())..]
}

// The first `len` entries, as many as there are.
pub fn front<T>(list: &[T], len: usize) -> &[T]
    ensures { result.now ≡ take len list.now }
{
    &list[..len.min(list.len())]
}

// The part of a buffer that is lent.
pub fn front_mut<T>(list: &mut [T], len: usize) -> &mut [T]
    ensures { result.now ≡ take len list.old }
{
    let to = len.min(list.len());
    &mut list[..to]
}

// The `len` entries from `start` on, as many as there are.
pub fn part<T>(list: &[T], start: usize, len: usize) -> &[T]
    ensures { result.now ≡ take len (drop start list.now) }
{
    front(past(list, start), len)
}

// ---- reading

// What a hex digit is worth; any other byte is worth something below 16 too.
#[tactic(auto, using(crate::proofs::Laws::worth_low, crate::proofs::Laws::worth_high))]
fn worth(c: u8) -> u64
    ensures upper_bound { result < 16 }
    ensures value { result ≡ worth_of c }
{
    if c < b'a' {
        c as u64 % 16
    } else {
        (c as u64 - 87) % 16
    }
}

// Hex tokens, parted by spaces and newlines, and the place up to which they were read.
#[derive(Drop)]
pub struct Tokens<'a> {
    pub text: &'a [u8],
    pub at: usize,
}

impl<'a> Tokens<'a> {
    pub fn new(text: &'a [u8]) -> Tokens<'a>
        ensures text_value { result.text.now ≡ text.now }
        ensures at_value { result.at ≡ 0 }
    {
        Tokens { text, at: 0 }
    }

    // To the first byte that is neither space nor newline.
    fn skip(&mut self)
        ensures same_text { self.new.text.now ≡ self.old.text.now }
        ensures at_after { self.new.at ≡ token_start (drop self.old.at self.old.text.now) self.old.at }
    {
        while self.at < self.text.len() && self.text[self.at] <= b' ' {
            self.at += 1;
        }
    }

    // The number whose digits begin here.
    fn number(&mut self) -> u64
        ensures value { result ≡ token_value (drop self.old.at self.old.text.now) 0 }
        ensures same_text { self.new.text.now ≡ self.old.text.now }
        ensures at_after { self.new.at ≡ token_end (drop self.old.at self.old.text.now) self.old.at }
    {
        let mut w = 0;
        while self.at < self.text.len() && b' ' < self.text[self.at] {
            w = w % 0x1000_0000_0000_0000 * 16 + worth(self.text[self.at]);
            self.at += 1;
        }
        w
    }

    // The next token.
    pub fn next<T: Entry>(&mut self) -> T
        ensures value { result ≡ T.of_token (next_value self.old.text.now self.old.at) }
        ensures same_text { self.new.text.now ≡ self.old.text.now }
        ensures at_after { self.new.at ≡ next_place self.old.text.now self.old.at }
    {
        self.skip();
        T::from_token(self.number())
    }

    // The next `len` tokens, as many as there is room for.
    pub fn fill<T: Entry>(&mut self, list: &mut [T], len: usize)
        ensures same_text { self.new.text.now ≡ self.old.text.now }
        ensures at_after { self.new.at ≡ place_after self.old.text.now self.old.at (min len (length list.old)) }
        ensures list_after { list.new
            ≡ over (tab (min len (length list.old)) (λ k. T.of_token (token_at self.old.text.now self.old.at k))) list.old }
    {
        for i in 0..len.min(list.len()) {
            list[i] = self.next();
        }
    }

    // Entries to the place `start` on, after how many they are. Answers that.
    pub fn fill_from<T: Entry>(&mut self, list: &mut [T], start: usize) -> usize
        ensures value { result ≡ next_value self.old.text.now self.old.at }
        ensures same_text { self.new.text.now ≡ self.old.text.now }
        ensures at_after { self.new.at ≡ part_place self.old.text.now self.old.at (length list.old - start) }
    {
        let count = self.next();
        let from = start.min(list.len());
        self.fill(&mut list[from..], count);
        count
    }

    // A matrix of an account, its cells to the place `start` on.
    pub fn matrix(&mut self, cells: &mut [f64], start: usize) -> Given
        ensures shape_value { result.shape ≡ shape_of (is_set (token_at self.old.text.now self.old.at 0))
            (token_at self.old.text.now self.old.at 1) (token_at self.old.text.now self.old.at 2) }
        ensures len_value { result.len ≡ token_at self.old.text.now self.old.at 3 }
        ensures same_text { self.new.text.now ≡ self.old.text.now }
        ensures at_after { self.new.at ≡ matrix_place self.old.text.now self.old.at (length cells.old - start) }
    {
        let given: usize = self.next();
        let rows = self.next();
        let columns = self.next();
        let len = self.fill_from(cells, start);
        let shape = lent::shape_if(given != 0, rows, columns);
        Given { shape, len }
    }

    // Prices, returns and covariance, one after the other.
    pub fn matrices(&mut self, cells: &mut [f64]) -> Matrices
        ensures same_text { self.new.text.now ≡ self.old.text.now }
        ensures at_after { self.new.at ≡ matrices_place self.old.text.now self.old.at (length cells.old) }
    {
        let prices = self.matrix(cells, 0);
        let returns = self.matrix(cells, RETURNS);
        let covariance = self.matrix(cells, COVARIANCE);
        Matrices {
            prices,
            returns,
            covariance,
        }
    }

    // Whether expected returns are given, and their doubles to the place EXPECTED on.
    pub fn expected(&mut self, cells: &mut [f64]) -> Expected
        ensures given_value { result.given ≡ is_set (token_at self.old.text.now self.old.at 0) }
        ensures len_value { result.len ≡ token_at self.old.text.now self.old.at 1 }
        ensures same_text { self.new.text.now ≡ self.old.text.now }
        ensures at_after { self.new.at
            ≡ part_place self.old.text.now (next_place self.old.text.now self.old.at) (length cells.old - 13056) }
    {
        let given: usize = self.next();
        let len = self.fill_from(cells, EXPECTED);
        Expected {
            given: given != 0,
            len,
        }
    }
}

// ---- writing

// What was told so far: the first `end` bytes of a buffer.
#[derive(Drop)]
pub struct Told<'a> {
    pub bytes: &'a mut [u8],
    pub end: usize,
}

#[tactic(auto, using(crate::proofs::Laws::continues_none, crate::proofs::Laws::continues_then))]
impl<'a> Told<'a> {
    pub fn new(bytes: &'a mut [u8]) -> Told<'a>
        ensures same_buffer { result.bytes.ghost_name ≡ bytes.entry.ghost_name }
        ensures bytes_value { result.bytes.now ≡ bytes.old }
        ensures end_value { result.end ≡ 0 }
    {
        Told { bytes, end: 0 }
    }

    // One byte, where there is room.
    fn put_byte(&mut self, byte: u8)
        ensures { Continues self.old self.new }
    {
        if self.end < self.bytes.len() {
            self.bytes[self.end] = byte;
            self.end += 1;
        }
    }

    fn put_bytes(&mut self, bytes: &[u8])
        ensures { Continues self.old self.new }
    {
        for byte in bytes {
            self.put_byte(*byte);
        }
    }

    // An entry's hex digits, and the byte `after`.
    pub fn put<T: Entry>(&mut self, x: T, after: u8)
        ensures { Continues self.old self.new }
    {
        let mut digits = [0u8; 16];
        let k = io::hex(x.token(), T::WIDTH, &mut digits);
        self.put_bytes(&digits[..k]);
        self.put_byte(after);
    }

    pub fn put_list<T: Entry>(&mut self, list: &[T])
        ensures { Continues self.old self.new }
    {
        for x in list {
            self.put(*x, b' ');
        }
    }

    // The first `count` entries, after how many they are.
    pub fn put_front<T: Entry>(&mut self, list: &[T], count: usize)
        ensures { Continues self.old self.new }
    {
        let first = front(list, count);
        self.put(first.len(), b' ');
        self.put_list(first);
    }

    // A refusal's number or 0, and an answer's rows and columns.
    pub fn put_sizes(&mut self, refusal: u8, rows: usize, columns: usize)
        ensures { Continues self.old self.new }
    {
        self.put(refusal, b' ');
        self.put(rows, b' ');
        self.put(columns, b' ');
    }

    // A refusal's number, and after 6 the count that was asked for and the assets.
    fn put_refusal(&mut self, r: Refusal)
        ensures { Continues self.old self.new }
    {
        self.put(r.number(), b' ');
        if let Refusal::InvalidNumClusters { requested, assets } = r {
            self.put(requested, b' ');
            self.put(assets, b' ');
        }
    }

    pub fn put_outcome(&mut self, outcome: Result<(), Refusal>)
        ensures { Continues self.old self.new }
    {
        match outcome {
            Ok(()) => self.put(0usize, b' '),
            Err(r) => self.put_refusal(r),
        }
    }

    // The last token of an answer, how many entries are not zero that should be.
    pub fn put_last(&mut self, unclean: usize)
        ensures { Continues self.old self.new }
    {
        self.put(unclean, b'\n');
    }

    // An answer's line: its sizes, its cells, and how many entries past them are not zero.
    pub fn put_answer<T: Entry>(&mut self, answer: Result<Size, Refusal>, out: &[T])
        ensures { Continues self.old self.new }
    {
        let rows = rows_of(answer);
        let columns = columns_of(answer);
        let count = product(rows, columns);
        self.put_sizes(refusal_of(answer), rows, columns);
        self.put_list(front(out, count));
        self.put_last(unclean(past(out, count)));
    }
}

// ---- answers

// Rows times columns; 0 for sizes that no answer has.
#[tactic(auto, unfolding(crate::specs::Told::table_size))]
pub fn product(rows: usize, columns: usize) -> usize
    ensures { result ≡ table_size rows columns }
{
    if 4096 < rows || 64 < columns {
        0
    } else {
        rows * columns
    }
}

#[tactic(auto, unfolding(crate::specs::Told::answered_rows))]
pub fn rows_of(answer: Result<Size, Refusal>) -> usize
    ensures { result ≡ answered_rows answer }
{
    answer.map_or(0, |s| s.rows)
}

#[tactic(auto, unfolding(crate::specs::Told::answered_columns))]
pub fn columns_of(answer: Result<Size, Refusal>) -> usize
    ensures { result ≡ answered_columns answer }
{
    answer.map_or(0, |s| s.columns)
}

#[tactic(auto, unfolding(lent::specs::Lent::answer_tells))]
fn refusal_of(answer: Result<Size, Refusal>) -> u8
    ensures { result ≡ (answer_tells answer).number }
{
    match answer {
        Ok(_) => 0,
        Err(r) => r.number(),
    }
}

// The assets of an account that was not refused.
#[tactic(auto, unfolding(crate::specs::Told::answered_assets))]
pub fn answered(outcome: Result<(), Refusal>, assets: usize) -> usize
    ensures { result ≡ answered_assets outcome assets }
{
    outcome.map_or(0, |()| assets)
}

// How many ids the rows of n assets have.
pub fn ids_of(n: usize) -> usize
    ensures { result ≡ table_size 2 (n - 1) }
{
    product(2, n.saturating_sub(1))
}

// Two counts together, each far below the limit here.
pub fn plus(a: usize, b: usize) -> usize
    ensures { result ≡ a % 268435456 + b % 268435456 }
{
    a % 0x1000_0000 + b % 0x1000_0000
}

// Many counts together, by `plus` from the first to the last.
pub fn total(counts: &[usize]) -> usize
    ensures { result ≡ fold (λ sum count. sum % 268435456 + count % 268435456) 0 counts.now }
{
    counts.iter().fold(0, |sum, count| plus(sum, *count))
}

// How many entries are not zero.
pub fn unclean<T: Entry>(rest: &[T]) -> usize
    ensures { result ≡ T.unclean rest.now }
{
    let mut n = 0;
    for x in rest {
        if x.token() != 0 {
            n += 1;
        }
    }
    n
}

// ---- buffers

// A buffer of which the first `room` entries are lent.
#[derive(Drop)]
pub struct Buffer<T, const N: usize> {
    pub entries: [T; N],
    pub room: usize,
}

impl<T: Entry, const N: usize> Buffer<T, N> {
    // Junk throughout, of which nothing is lent yet.
    pub fn new(junk: T) -> Buffer<T, N>
        ensures entries_value { result.entries ≡ replicate N junk }
        ensures room_value { result.room ≡ 0 }
    {
        Buffer {
            entries: [junk; N],
            room: 0,
        }
    }

    pub fn lend(&mut self) -> &mut [T]
        ensures { result.now ≡ take self.old.room self.old.entries }
    {
        let entries = &mut self.entries;
        front_mut(&mut entries[..], self.room)
    }

    // How many entries of what is lent are not zero, past the first `count`.
    pub fn unclean_past(&self, count: usize) -> usize
        ensures { result ≡ T.unclean (drop count (take self.now.room self.now.entries)) }
    {
        unclean(past(front(&self.entries, self.room), count))
    }
}

// ---- programs

// The choice that a code stands for, and the other one for any larger code.
pub fn choice<T: Copy>(code: usize, choices: &[T], other: T) -> T
    ensures { result ≡ get_or choices.now code other }
{
    if code < choices.len() {
        choices[code]
    } else {
        other
    }
}

// A mebibyte and a half of zeros. Its contract gives the length alone, so that no proof looks into it.
pub fn space() -> [u8; 1572864]
    ensures { 1572864 ≡ length result }
{
    [0; 1572864]
}

// What a program does at each call of a text.
pub trait Calls {
    // The call of an opcode that was read.
    fn call(&mut self, code: usize, tokens: &mut Tokens, told: &mut Told)
        ensures { Continues told.old told.new };
}

// Every call of a text, each given its opcode.
#[tactic(auto, using(crate::proofs::Laws::continues_none, crate::proofs::Laws::continues_then))]
pub fn replay<C: Calls>(text: &[u8], told: &mut Told, calls: &mut C)
    ensures { Continues told.old told.new }
{
    let mut tokens = Tokens::new(text);
    while tokens.at < text.len() {
        let at = tokens.at;
        let code = tokens.next();
        // No opcode is 0: nothing but spaces was left.
        if code == 0 {
            return;
        }
        calls.call(code, &mut tokens, told);
        if tokens.at <= at {
            return;
        }
    }
}
