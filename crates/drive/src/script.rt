// A script: what is left of its bytes, read number by number.
ghost use Rattle.std.specs.Prelude.{ℕ, ◌<◌, ◌≤◌, ◌≡◌, Some, length};
ghost use Rattle.std.specs.Option.{IsSome};

// What is left of a script.
#[derive(Drop)]
pub struct Script<'a> {
    pub rest: &'a [u8],
}

// A number with one digit more; 'of 18,446,744,073,709,551,610 or more reads as 18,446,744,073,709,551,615'.
fn with_digit(n: u64, digit: u64) -> u64
    requires { digit < 10 }
{
    if 1_844_674_407_370_955_160 < n {
        u64::MAX
    } else {
        n * 10 + digit
    }
}

impl<'a> Script<'a> {
    // The next byte.
    pub fn byte(&mut self) -> Option<u8>
        ensures left { length self.new.rest.now ≤ length self.old.rest.now }
        ensures taken { IsSome result → length self.new.rest.now < length self.old.rest.now }
    {
        let (byte, rest) = self.rest.split_first()?;
        self.rest = rest;
        Some(*byte)
    }

    // '`#` passes over the rest of its line'
    pub fn pass_line(&mut self)
        ensures { length self.new.rest.now ≤ length self.old.rest.now }
    {
        while let Some(byte) = self.byte() {
            if byte == b'\n' {
                return;
            }
        }
    }

    // The value of the next byte, where that is a digit.
    fn digit(&mut self) -> Option<u64>
        ensures left { length self.new.rest.now ≤ length self.old.rest.now }
        ensures taken { IsSome result → length self.new.rest.now < length self.old.rest.now }
        ensures digit { (digit : ℕ) → result ≡ Some digit → digit < 10 }
    {
        let (byte, rest) = self.rest.split_first()?;
        if !byte.is_ascii_digit() {
            return None;
        }
        self.rest = rest;
        Some(u64::from(*byte - b'0'))
    }

    // 'bytes that are no digit are passed over, then its digits are read, decimal'; 'past the script's end every number is 0'.
    pub fn number(&mut self) -> u64
        ensures { length self.new.rest.now ≤ length self.old.rest.now }
    {
        self.rest = match self.rest.iter().position(|byte| byte.is_ascii_digit()) {
            Some(at) => &self.rest[at..],
            None => &[],
        };
        let mut value = 0;
        while let Some(digit) = self.digit() {
            value = with_digit(value, digit);
        }
        value
    }

    // A number 'modulo 2^32 where that has 32 bits'.
    pub fn low(&mut self) -> u32
        ensures { length self.new.rest.now ≤ length self.old.rest.now }
    {
        low(self.number())
    }
}

// 'modulo 2^32 where that has 32 bits'
pub fn low(n: u64) -> u32 {
    (n % 4_294_967_296) as u32
}
