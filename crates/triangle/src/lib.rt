// Where the distance between two assets stands in the merge step's working array: every cell, or those above the diagonal alone, row by row.
#![tactic(auto)]

ghost use Rattle.std.specs.Prelude.{◌&&◌, cond, ◌≡◌, ◌*◌, ◌<◌, ◌≤◌, eqb, leb, length};
ghost use Rattle.std.specs.Float.{binary64};
ghost use Rattle.std.specs.Float.Ieee.{to_bits};
ghost use Rattle.lent.specs.Grid.{cell};
ghost use Rattle.lent.specs.Range.{range};
ghost use Rattle.triangle.specs.Triangle.{met, row_of, shifted, mirror_row, mirrored, has_room, upper_row, upper_of};

// How the distances are held. A triangle has one place for a cell and its mirror.
#[derive(Clone, Copy)]
pub enum Form {
    Square,
    Triangle,
}

// Where the cell right of the diagonal stands in row r.
fn row_start(form: Form, n: usize, r: usize) -> usize
    requires { (n ≤ 64) × (r < n) }
    ensures { result ≡ row_of form n r }
{
    match form {
        Form::Square => r * n + r + 1,
        Form::Triangle => r * (2 * n - r - 1) / 2,
    }
}

// Of each row of n, by how much its cells right of the diagonal stand shifted: that of column c is at c - 1 and so much more. What is behind the rows stays, and all where there are more than 64.
pub fn shifts(form: Form, n: usize, out: &mut [usize; 64])
    ensures { out.new ≡ cond (leb n 64) (range (shifted form n) 0 n out.old) out.old }
{
    if n > 64 {
        return;
    }
    for r in 0..n {
        out[r] = row_start(form, n, r) - r;
    }
}

fn at(xs: &[f64], n: usize, r: usize, c: usize) -> f64
    requires { (n ≤ 64) × (r < n) × (c < n) × (length xs.now ≡ n * n) }
    ensures { result ≡ cell xs.now n r c }
{
    xs[r * n + c]
}

// The same bits: every NaN has the same, +0 and -0 have not. Equal doubles are no NaN, so that their bits are compared as they stand.
fn agrees(before: bool, x: f64, y: f64) -> bool
    ensures { result ≡ (before && eqb (to_bits binary64 x) (to_bits binary64 y)) }
{
    if x == y {
        return before && x.to_bits() == y.to_bits();
    }
    before && x != x && y != y
}

// Row r above the diagonal, copied, and each of its cells held to its mirror.
fn fill_row(xs: &[f64], d: &mut [f64], n: usize, r: usize, before: bool) -> bool
    requires { (n ≤ 64) × (r < n) × (length xs.now ≡ n * n) × (met n n ≤ length d.old) }
    ensures { (result ≡ mirror_row n xs.now r before) × (d.new ≡ upper_row n xs.now r d.old) }
{
    let base = row_start(Form::Triangle, n, r);
    let mut same = before;
    for c in r + 1..n {
        let x = at(xs, n, r, c);
        same = agrees(same, x, at(xs, n, c, r));
        d[base + (c - r - 1)] = x;
    }
    same
}

// The cells of an n by n matrix above the diagonal, copied row by row to the front of d. The answer is whether each cell is its mirror, and no where there is no such matrix of at most 64, or no room.
pub fn above(xs: &[f64], n: usize, d: &mut [f64]) -> bool
    ensures value { result ≡ (has_room n xs.now d.old && mirrored n xs.now) }
    ensures d_after { d.new ≡ cond (has_room n xs.now d.old) (upper_of n xs.now d.old) d.old }
{
    if n > 64 || xs.len() != n * n || d.len() < (n * n - n) / 2 {
        return false;
    }
    let mut same = true;
    for r in 0..n {
        same = fill_row(xs, d, n, r, same);
    }
    same
}
