// Standard input and output for the programs. A read that fails is not the end of the text, and a write that fails does not go unnoticed: a line on standard
// error says what happened. What was read or written no contract can say.
#![tactic(auto)]

ghost use Rattle.std.specs.Prelude.{◌≡◌, true, length};
ghost use Rattle.channel.specs.Channel.{IsRead, IsWhole};

use std::io::{Read, Write};

// A line for standard error. Answers whether all was taken; nothing to write always is. Where it was not, nobody else is told.
pub fn warn(rt: HostRuntime, line: &[u8]) -> bool
    ensures { length line.now ≡ 0 → result ≡ true }
{
    if line.len() == 0 {
        return true;
    }
    rt.stderr().write_all(line).is_ok()
}

// One read of standard input: the bytes that came, none at its end. A buffer of no bytes reads none.
pub fn read_piece(rt: HostRuntime, piece: &mut [u8]) -> Option<usize>
    ensures { IsRead result piece.new }
{
    match rt.stdin().read(piece) {
        Ok(n) => Some(n),
        Err(_) => {
            warn(
                rt,
                b"standard input could not be read to its end: nothing is printed\n",
            );
            None
        }
    }
}

// Reads standard input until it ends or the buffer is full.
pub fn read(rt: HostRuntime, text: &mut [u8]) -> Option<usize>
    ensures { IsRead result text.new }
{
    let mut done = 0;
    while done < text.len() {
        let more = read_piece(rt, &mut text[done..])?;
        if more == 0 {
            return Some(done);
        }
        done += more;
    }
    Some(done)
}

// The same, for a text whose end has to be seen: one that fills the buffer may go on.
pub fn read_all(rt: HostRuntime, text: &mut [u8]) -> Option<usize>
    ensures { IsWhole result text.new }
{
    let n = read(rt, text)?;
    if n < text.len() {
        return Some(n);
    }
    warn(
        rt,
        b"standard input is longer than the program takes: nothing is printed\n",
    );
    None
}

// Writes to standard output. Answers whether all was taken; nothing to write always is.
pub fn write(rt: HostRuntime, told: &[u8]) -> bool
    ensures { length told.now ≡ 0 → result ≡ true }
{
    if told.len() == 0 {
        return true;
    }
    let taken = rt.stdout().write_all(told).is_ok();
    if !taken {
        warn(
            rt,
            b"standard output could not be written: what was printed is not whole\n",
        );
    }
    taken
}
