// Numbers of a case: decimal, each ended by one byte, which is left to the reader of the line.
ghost use Rattle.std.specs.Prelude.{◌+◌, ◌*◌, ◌^◌, ◌<◌, ◌≤◌, ◌-ℤ◌, pos, length, SomeIff, IfSome};

// The number that a text begins with, and what follows it: it has a digit, and fits 64 bits.
pub fn number(s: &[u8]) -> Option<(u64, &[u8])>
    ensures { IfSome result (λ r. length r.1.now < length s.now) }
{
    let long = s
        .iter()
        .position(|b| !b.is_ascii_digit())
        .unwrap_or(s.len());
    let (digits, rest) = s.split_at(long);
    if digits.is_empty() {
        return None;
    }
    // Each digit is looked at once more, and no text is made of them: the tables of a case are thousands of numbers.
    let mut n = 0u64;
    for b in digits {
        n = n
            .checked_mul(10)?
            .checked_add(u64::from(b.wrapping_sub(b'0')))?;
    }
    Some((n, rest))
}

// The number so far below zero, where it fits.
fn below_zero(n: u64) -> Option<i64>
    ensures { SomeIff result (n ≤ 2 ^ 63) (pos 0 -ℤ pos n) }
{
    0i64.checked_sub_unsigned(n)
}

// With a sign where it is below zero: zero has none.
fn time(s: &[u8]) -> Option<(i64, &[u8])>
    ensures { IfSome result (λ r. length r.1.now < length s.now) }
{
    let Some(below) = s.strip_prefix(b"-") else {
        let (n, rest) = number(s)?;
        return Some((i64::try_from(n).ok()?, rest));
    };
    let (n, rest) = number(below)?;
    if n == 0 {
        return None;
    }
    Some((below_zero(n)?, rest))
}

// What stands in a table: a word of types or rows, or a time.
pub trait Entry: Sized {
    // The number that a text begins with, and what follows it.
    fn read(s: &[u8]) -> Option<(Self, &[u8])>
        ensures { IfSome result (λ r. length r.1.now < length s.now) };
}

impl Entry for u32 {
    fn read(s: &[u8]) -> Option<(u32, &[u8])> {
        let (n, rest) = number(s)?;
        Some((u32::try_from(n).ok()?, rest))
    }
}

impl Entry for i64 {
    fn read(s: &[u8]) -> Option<(i64, &[u8])> {
        time(s)
    }
}

// The first `count` places of an area are the numbers that a text begins with, each ended by one byte; the others are zero. What follows.
pub fn fill<'a, T: Entry + Copy + From<u16>>(
    s: &'a [u8],
    area: &mut [T],
    count: usize,
) -> Option<&'a [u8]>
    ensures { IfSome result (λ rest. length rest.now + 2 * count ≤ length s.now) }
{
    let (first, others) = area.split_at_mut_checked(count)?;
    // The bounds do not say that a clone of a T cannot fail, which `fill` asks.
    for x in others {
        *x = T::from(0);
    }
    let mut rest = s;
    for x in first {
        let (n, after) = T::read(rest)?;
        let (_, next) = after.split_first()?;
        *x = n;
        rest = next;
    }
    Some(rest)
}
