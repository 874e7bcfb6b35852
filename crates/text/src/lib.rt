// The bytes of a text: where a stretch ends, the field at a place of a line as its own stretch of the text, and the number that a
// field states. Numbers of any length are read: past every range of the paper they stop growing, so they never overflow and
// are still out of range.
#![tactic(auto)]

ghost use Rattle.std.specs.Prelude.{◌≡◌, ◌+◌, ◌<◌, ◌≤◌, length, drop};
ghost use Rattle.rules.specs.Text.{more_digits, number, signed};
ghost use Rattle.text.specs.Stretches.{tab, lead, stretch};
ghost use Rattle.text.specs.Fields.{NumberAt, TimeAt};
ghost use Rattle.text.specs.Numbers.{cap, grown, field_of, time_of};

const TAB: u8 = b'\t';

const ZERO: u8 = b'0';

const MINUS: u8 = b'-';

// Above every range, and far below what ten times it would overflow.
const CAP: u64 = 10_000_000_000_000;

// What a field reads as, a number or a required time, with where the next field would start. It is no `Option`: each reader of a line
// names its cases, as the paper does.
#[derive(Clone, Copy)]
pub enum Field<N> {
    Number(N, usize),
    Bad,
}

// Where the stretch that starts at `from` ends: at the next such byte, or at the end of the text.
pub fn stretch_end(s: &[u8], from: usize, by: u8) -> usize
    requires { from ≤ length s.now }
    ensures { result ≡ from + lead by (drop from s.now) }
{
    match s[from..].iter().position(|b| *b == by) {
        Some(long) => from + long,
        None => s.len(),
    }
}

// The field that starts at a place of a line, as its own stretch of the text; past the line there is none, and it is empty.
pub fn field_at(line: &[u8], at: usize) -> &[u8]
    ensures { result.now ≡ stretch tab (drop at line.now) }
{
    if line.len() < at {
        return &line[..0];
    }
    let end = stretch_end(line, at, TAB);
    &line[at..end]
}

// A number with one digit more, or the cap.
fn grow(n: u64, b: u8) -> u64
    requires { (n ≤ cap) × ((48 ≤ b) × (b ≤ 57)) }
    ensures { result ≡ grown n b }
{
    (10 * n + u64::from(b - ZERO)).min(CAP)
}

// The number that a part's digits state, zeros in front let through.
fn digits_of(part: &[u8], next: usize) -> Field<u64>
    ensures { result ≡ field_of (more_digits 0 part.now) next }
{
    let mut n = 0;
    for b in part {
        if !b.is_ascii_digit() {
            return Field::Bad;
        }
        n = grow(n, *b);
    }
    Field::Number(n, next)
}

// The number that a part states: decimal, without leading zeros or sign.
#[tactic(auto, using(crate::proofs::Numbers::leading))]
pub fn number_of(part: &[u8], next: usize) -> Field<u64>
    ensures { result ≡ field_of (number part.now) next }
{
    let [first, others @ ..] = part else {
        return Field::Bad;
    };
    if *first == ZERO && !others.is_empty() {
        return Field::Bad;
    }
    digits_of(part, next)
}

// The time that a part states: a number, or a minus and a number that is not 0.
#[tactic(auto, using(crate::proofs::Numbers::signs))]
pub fn signed_of(part: &[u8], next: usize) -> Field<i64>
    ensures { result ≡ time_of (signed part.now) next }
{
    let [first, others @ ..] = part else {
        return Field::Bad;
    };
    if *first != MINUS {
        let Field::Number(n, next) = number_of(part, next) else {
            return Field::Bad;
        };
        return Field::Number(n as i64, next);
    }
    let Field::Number(n, next) = number_of(others, next) else {
        return Field::Bad;
    };
    if n == 0 {
        return Field::Bad;
    }
    Field::Number(-(n as i64), next)
}

// The number, and the time, of the field that starts at a place of a line. Each hands the field to its own reader: one function for both
// would need a trait with a clause and a law for what is two lines.
pub fn number_at(line: &[u8], at: usize) -> Field<u64>
    requires { at ≤ length line.now + 2 }
    ensures { NumberAt line.now at result }
{
    let part = field_at(line, at);
    number_of(part, at + part.len() + 1)
}

pub fn signed_at(line: &[u8], at: usize) -> Field<i64>
    requires { at ≤ length line.now + 2 }
    ensures { TimeAt line.now at result }
{
    let part = field_at(line, at);
    signed_of(part, at + part.len() + 1)
}
