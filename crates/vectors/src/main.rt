// Reads lines of three doubles x y z, each 16 lower-case hex digits, parted by a space, and writes for each line sqrt(x), max(x, y), min(x, y) and
// clamp(x, y, z) in the same form. oracle/vectors.py makes the lines that it is run on, and the answers.
#![tactic(auto)]

use recorded::{Tokens, Told};

// Answers one line of three doubles by one of four.
fn answer(tokens: &mut Tokens, told: &mut Told) {
    let x = tokens.next();
    let y = tokens.next();
    let z = tokens.next();
    told.put(arithmetic::sqrt(x), b' ');
    told.put(arithmetic::max(x, y), b' ');
    told.put(arithmetic::min(x, y), b' ');
    told.put(arithmetic::clamp(x, y, z), b'\n');
}

// Every line. A line has 51 bytes with its newline.
fn answers(text: &[u8], told: &mut Told) {
    let mut tokens = Tokens::new(text);
    for _ in 0..text.len() / 51 {
        answer(&mut tokens, told);
    }
}

fn main(rt: HostRuntime) {
    let mut text = recorded::space();
    let Some(n) = channel::read_all(rt, &mut text) else {
        return;
    };
    let mut bytes = recorded::space();
    let mut told = Told::new(&mut bytes);
    answers(recorded::front(&text, n), &mut told);
    let end = told.end;
    channel::write(rt, recorded::front(&bytes, end));
}
