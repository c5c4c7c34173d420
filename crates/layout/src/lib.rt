// A layout, a scenario as lines of words, to the bytes of its scenario, or to the line that is wrong and its fault. Every exported function takes
// any bytes.
#![tactic(auto)]

ghost use Rattle.std.specs.Prelude.{◌≤◌, ◌≡◌, length, IfOk};
ghost use Rattle.text.specs.Room.{room_bytes, stored};
ghost use Rattle.scenario.specs.Writing.{written};
ghost use Rattle.layout.specs.Layout.{label_bytes, request_in, ended, layout_says};
ghost use Rattle.layout.specs.Answers.{answer_of, room_after};
ghost use Rattle.layout.specs.Parts.{plan_of, saying_of};

use plan::Plan;

mod arrivals;
mod faults;
mod fields;
mod labels;
mod plan;
mod stages;
mod taking;

// What is wrong with a layout: a line, counted from 1, and the number of its fault.
// The fault is a number, as docs/LAYOUT.md and the definition `wrong` have it, since by that number the contract of `read` says which it is
// (`read_determined`): a case of the private `Fault` is not determined by it, a set-up's refusal and the engine's having one number.
#[derive(Clone, Copy)]
pub struct WrongLine {
    pub line: usize,
    pub fault: u32,
}

// At the end of the text, after so many lines.
fn at_end(plan: Plan, line: usize) -> Result<Plan, WrongLine>
    ensures { saying_of result ≡ ended line (plan_of plan) }
{
    match plan.end() {
        Ok(()) => Ok(plan),
        Err(fault) => Err(WrongLine {
            line,
            fault: u32::from(fault),
        }),
    }
}

// The lines of a text, one after the other: all that they say, or what is wrong with them.
fn read_lines(text: &[u8]) -> Result<Plan, WrongLine>
    ensures { saying_of result ≡ layout_says text.now }
{
    let mut plan = Plan::start();
    let mut rest = text;
    let mut line = 0;
    loop {
        let end = words::line_end(rest, 0);
        line += 1;
        if let Err(fault) = plan.take(&rest[..end]) {
            return Err(WrongLine {
                line,
                fault: u32::from(fault),
            });
        }
        if end >= rest.len() {
            return at_end(plan, line);
        }
        rest = &rest[end + 1..];
    }
}

// Stores the scenario that a plan says from the start of the room on; how many bytes it takes.
fn write(plan: &Plan, room: &mut [u8; 65536]) -> usize
    ensures value { result ≡ length (written (request_in (plan_of plan.now)) (plan_of plan.now).arrivals plan.now.steps) }
    ensures room_after { room.new ≡ stored room.old 0 (written (request_in (plan_of plan.now)) (plan_of plan.now).arrivals plan.now.steps) }
    ensures upper_bound { result ≤ room_bytes }
{
    let settings = plan.settings;
    let after = packing::set_up(room, 0, settings);
    let past = packing::stations(room, after, plan.stations, settings.n);
    packing::ending(room, past, plan.arrivals, plan.count, plan.steps)
}

// The scenario that a layout says, as bytes from the start of the room on, and how many they are; or what is wrong with it, and the room as it
// was lent.
pub fn read(text: &[u8], room: &mut [u8; 65536]) -> Result<usize, WrongLine>
    ensures value { result ≡ answer_of (layout_says text.now) }
    ensures room_after { room.new ≡ room_after (layout_says text.now) room.old }
    ensures length_le_room_bytes { IfOk result (λ length. length ≤ room_bytes) }
{
    let plan = read_lines(text)?;
    Ok(write(&plan, room))
}

// The word with this number that stands before a number; none is empty.
// It takes a number, and any: the definition `label_bytes` does, and callers have a fault's number (100 + w, 200 + w: docs/LAYOUT.md).
pub fn word_of(code: u32) -> &'static [u8]
    ensures { result.now ≡ label_bytes code }
{
    labels::word_of(code)
}
