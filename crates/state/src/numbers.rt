// 'none twice over all queues': each number is sought among those before it, and hung where its way ends. A way begins at one of 2,048
// links, by the number's remainder, and goes on at one of the two links of each number on it, by the next bit of the quotient. A full
// state, 64 queues of 16 packets, takes 1,024 ways: no comparison where its numbers are less than 2,048 apart, some 240 where they
// are scattered, and at most 22 on one way, since a number has 32 bits.
ghost use Rattle.std.specs.Prelude.{◌≤◌, ◌≡◌, length};
ghost use Rattle.rules.specs.Lists.{distinct};

// Whether no number stands twice among these, at most 1,024. A link is to a number, as one more than its place, and 0 is a free one: an
// Option for each would take twice the room. The first 2,048 are where ways begin, and then each place has two.
pub fn none_twice(numbers: &[u32]) -> bool
    requires { length numbers.now ≤ 1024 }
    ensures { result ≡ distinct numbers.now }
{
    let mut links = [0u16; 4096];
    for (k, number) in numbers.iter().enumerate() {
        let mut at = (number % 2048) as usize;
        let mut rest = number / 2048;
        // A way ends at a free link: no list is gone over.
        loop {
            let link = usize::from(links[at]);
            if link == 0 {
                break;
            }
            if numbers[link - 1] == *number {
                return false;
            }
            at = 2046 + 2 * link + (rest % 2) as usize;
            rest /= 2;
        }
        links[at] = (k + 1) as u16;
    }
    true
}
