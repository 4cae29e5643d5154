// Reads a cell from each line, and writes for it 0 and the bits of its double, or the number of its refusal, as hex digits.
// oracle/decimals.py makes the lines that it is run on, and the answers.
#![tactic(auto)]

use recorded::Told;
use refusal::Refusal;

// One cell's line.
fn tell(cell: Option<f64>, told: &mut Told) {
    match cell {
        None => told.put(Refusal::MalformedText.number(), b'\n'),
        Some(x) => {
            told.put(0usize, b' ');
            told.put(x, b'\n');
        }
    }
}

// Every line that a newline ends.
fn answers(text: &[u8], told: &mut Told) {
    for line in text.split_inclusive(|byte| *byte == b'\n') {
        if let Some((b'\n', cell)) = line.split_last() {
            tell(decimals::read_cell(cell), told);
        }
    }
}

fn main(rt: HostRuntime) {
    let mut text = recorded::space();
    let Some(n) = channel::read_all(rt, &mut text) else {
        return;
    };
    let mut bytes = recorded::space();
    let mut told = Told::new(&mut bytes);
    answers(recorded::front(&text, n), &mut told);
    let end = told.end;
    channel::write(rt, recorded::front(&bytes, end));
}
