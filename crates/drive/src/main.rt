// A script of calls, read from standard input, played on one state of the engine; each answer and the state are written.
#![tactic(auto)]

use crate::script::Script;

mod calls;
mod commands;
mod edits;
mod lines;
mod script;
mod show;
mod stretch;

// 'The state is all-zero before the first command'; 'At the script's end the state is written once more'.
fn play(script: &[u8]) {
    let mut s = state::all_zero();
    let mut script = Script { rest: script };
    while let Some(command) = commands::next(&mut script) {
        s = calls::obey(s, command);
    }
    show::state(&s);
}

// 'its first 65,536 bytes are read'
fn main() {
    let mut bytes = io::large_buffer();
    let n = io::read_full(0, &mut bytes);
    play(&bytes[..n]);
}
