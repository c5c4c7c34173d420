// How a stretch is written.
use crate::lines;
use bus::{Answer, Report};

// 'refusal drops slot phase start size event address number length wait ended'. `settled` has the same for its own lines: one program does not
// stand on another.
pub fn answered(a: &Answer) -> [u64; 12] {
    [
        u64::from(a.refusal),
        a.drops,
        u64::from(a.slot.0),
        u64::from(u32::from(a.phase)),
        a.start,
        a.size,
        u64::from(u32::from(a.event)),
        u64::from(a.address.0),
        u64::from(a.number),
        u64::from(a.length),
        u64::from(a.wait),
        u64::from(a.ended),
    ]
}

// 'admission clock address refusal number', and the answer to a step. What a report does not tell is zero.
fn told(r: &Report) -> ([u64; 5], [u64; 12]) {
    match r {
        Report::Arrival {
            clock,
            address,
            admitted,
        } => {
            let call = [
                1,
                u64::from(clock.0),
                u64::from(address.0),
                u64::from(admitted.refusal),
                u64::from(admitted.number),
            ];
            (call, [0; 12])
        }
        Report::Step { clock, answer } => ([0, u64::from(clock.0), 0, 0, 0], answered(answer)),
    }
}

// 'call i admission clock address refusal number refusal drops slot phase start size event address number length wait ended'
fn report(i: usize, r: &Report) {
    let (call, answer) = told(r);
    let mut numbers = [0; 18];
    numbers[0] = i as u64;
    numbers[1..6].copy_from_slice(&call);
    numbers[6..].copy_from_slice(&answer);
    lines::write_place(b"call", &numbers);
}

// 'a line for each of the 512 places, in rising order'; then 'R made taken left'.
pub fn write(reports: &[Report; 512], made: usize, taken: usize, left: u32) {
    for (i, r) in reports.iter().enumerate() {
        report(i, r);
    }
    lines::write(b"R", &[made as u64, taken as u64, u64::from(left)]);
}
