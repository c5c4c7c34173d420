// A test program: a batch of runs on standard input, in bytes, to its sheet on standard output (docs/SHEET.md).
#![tactic(auto)]

ghost use Rattle.std.specs.Prelude.{◌<◌, ◌≤◌, IfOk};

use sheet::{Refused, Run, Sheet};
use std::io::{self, ErrorKind, Read};

// The bytes that there is room for.
const ROOM: usize = 65_536;

// The number in four bytes from an offset on, little-endian.
fn four(input: &[u8; 65536], at: usize) -> u32
    requires { at ≤ 8192 }
{
    u32::from_le_bytes([input[at], input[at + 1], input[at + 2], input[at + 3]])
}

// 'admitted, sent, lost, waiting, turned away, longest wait, four bytes each', from an offset on
fn run(input: &[u8; 65536], at: usize) -> Run
    requires { at ≤ 8000 }
{
    Run {
        admitted: four(input, at),
        sent: four(input, at + 4),
        lost: four(input, at + 8),
        waiting: four(input, at + 12),
        turned: four(input, at + 16),
        wait: four(input, at + 20),
    }
}

// 'then come the runs, 24 bytes each'; 'Up to 256 runs are read.'
fn runs(input: &[u8; 65536]) -> [Run; 256] {
    let mut runs = [sheet::NO_RUN; 256];
    for (i, place) in runs.iter_mut().enumerate() {
        *place = run(input, 8 + 24 * i);
    }
    runs
}

// 'The input's first eight bytes are the number of runs'
fn count(input: &[u8; 65536]) -> usize {
    let mut bytes = [0; 8];
    bytes.copy_from_slice(&input[..8]);
    u64::from_le_bytes(bytes) as usize
}

// 'REFUSED number place'
fn refuse(rt: &impl Print, refused: Refused) -> io::Result<()> {
    let place = refused.place();
    let number = u32::from(refused);
    println!(rt; "REFUSED {number} {place}")
}

// Writes the text of a sheet.
fn write(rt: &impl Print, sheet: Sheet) -> io::Result<()> {
    let mut room = [0u8; 65536];
    let length = page::write(sheet, &mut room);
    rt.write_all(&room[..length])
}

// Draws the batch in the input. 'Where the input ends early, the bytes that are missing are zero.'
fn draw(rt: &impl Print, input: &[u8; 65536]) -> io::Result<()> {
    match sheet::draw(runs(input), count(input)) {
        Ok(sheet) => write(rt, sheet),
        Err(refused) => refuse(rt, refused),
    }
}

// Reads until the room is full or the input ends, and hands out how many bytes there are. A read that a signal interrupts is made again, so
// that what is left of the room is no measure of a `while`.
fn read_full(input: &mut impl Read, room: &mut [u8; 65536]) -> io::Result<usize>
    ensures { IfOk result (λ n. n ≤ 65_536) }
{
    let mut got = 0;
    for _ in 0..u64::MAX {
        if ROOM <= got {
            break;
        }
        match input.read(&mut room[got..]) {
            Ok(0) => break,
            Ok(n) => got += n,
            Err(e) => {
                if e.kind() != ErrorKind::Interrupted {
                    return Err(e);
                }
            }
        }
    }
    Ok(got)
}

fn main(rt: HostRuntime) -> io::Result<()> {
    let mut room = [0u8; 65536];
    let got = read_full(&mut rt.stdin(), &mut room)?;
    room[got..].fill(0);
    draw(&rt, &room)
}
