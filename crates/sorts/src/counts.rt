// The count of packets turned away (P4).
ghost use Rattle.std.specs.Prelude.{◌≡◌};
ghost use Rattle.rules.specs.Admission.{one_higher, turned_after};

// 'The count stops at 4,294,967,295.'
pub const MOST_TURNED: u64 = 4_294_967_295;

// 'refused as late', 'for want of a place': by the numbers that answers have, since any number may come (`turned_after` of the rules).
const LATE: u32 = 14;

const FILLED: u32 = 15;

// The count with one packet more, up to its stop. One past the stop stays as it is, which no minimum does.
pub fn one_more(count: u64) -> u64
    ensures { result ≡ one_higher count }
{
    if count < MOST_TURNED {
        count + 1
    } else {
        count
    }
}

// The count after an admission: 'raised by exactly the admissions refused with 14 or 15'.
pub fn turned_after(refusal: u32, count: u64) -> u64
    ensures { result ≡ turned_after refusal count }
{
    match refusal {
        LATE | FILLED => one_more(count),
        _ => count,
    }
}
