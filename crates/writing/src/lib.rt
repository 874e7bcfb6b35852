// What the programs write, laid out: text with values in it, refusals, figures and marks. It is handed to a function of the program, which
// writes it: the contract of writing is assumed in programs alone.
#![tactic(auto)]

ghost use Rattle.std.specs.Prelude.{◌≡◌, ◌≤◌, [], take, Some, IsOk};
ghost use Rattle.std.specs.Fmt.{signed_decimal};
ghost use Rattle.writing.specs.Waiting.{waits_after};

use rooms::PLACEMENT_ROOM;
use rules::{Refusal, Timed};
use std::fmt;
use std::fmt::Write;

// The room of a line: text that fits it is handed on at once.
const LINE_ROOM: usize = 256;

// Text on its way to the function of a program that takes bytes to write: what is laid out waits in a line for what follows.
#[derive(Drop)]
struct Line {
    put: fn(&[u8]),
    bytes: [u8; LINE_ROOM],
    long: usize,
    ghost callable: { IsAlwaysCallable put },
    ghost within: { long ≤ 256 },
}

impl Line {
    // What waits, handed on.
    fn hand_on(&mut self)
        ensures { take self.new.long self.new.bytes ≡ [] }
    {
        (self.put)(&self.bytes[..self.long]);
        self.long = 0;
    }
}

impl Write for Line {
    // Every piece is taken: what has no room beside what waits comes after it. So what a value lays out is whole, also where the value
    // looks at no answer, and a value is asked once. Kept out of its callers, which then need less stack.
    #[inline(never)]
    fn write_str(&mut self, s: &str) -> fmt::Result
        ensures taken { IsOk result }
        ensures waits { take self.new.long self.new.bytes ≡ waits_after (take self.old.long self.old.bytes) s.now }
    {
        if LINE_ROOM - self.long < s.len() {
            self.hand_on();
        }
        if LINE_ROOM < s.len() {
            (self.put)(s.as_bytes());
        } else {
            let end = self.long + s.len();
            self.bytes[self.long..end].copy_from_slice(s.as_bytes());
            self.long = end;
        }
        Ok(())
    }
}

// Text handed on: at once, or in parts where it is longer than a line.
pub fn text(put: fn(&[u8]), text: impl fmt::Display + Drop)
    requires { IsAlwaysCallable put }
{
    let mut line = Line {
        put,
        bytes: [0; LINE_ROOM],
        long: 0,
    };
    let _ = write!(line, "{text}");
    line.hand_on();
}

// Text with values in it, to the program's function `stdout`.
#[macro_export]
macro_rules! say {
    ($($words:tt)*) => {
        $crate::text(crate::stdout, format_args!($($words)*))
    };
}

// A number that may be negative: its sign, and how far it is from zero.
#[derive(Clone, Copy)]
pub struct Signed(pub i64);

impl fmt::Display for Signed {
    ghost output = { λ s. Some (signed_decimal s.0) };

    fn fmt<W: Write>(&self, f: &mut fmt::Formatter<W>) -> fmt::Result {
        let far = signs::magnitude(self.0);
        if self.0 < 0 {
            write!(f, "-{far}")
        } else {
            write!(f, "{far}")
        }
    }
}

// The first pairs of a list, load and time of each.
pub fn pairs(put: fn(&[u8]), loads: &[u32], times: &[i64], length: u32)
    requires { IsAlwaysCallable put }
{
    for (load, time) in loads.iter().zip(times.iter()).take(length as usize) {
        text(put, format_args!(" {load} {}", Signed(*time)));
    }
}

// A refusal by its number and its place.
#[derive(Clone, Copy)]
pub struct Refused(pub Refusal);

impl fmt::Display for Refused {
    fn fmt<W: Write>(&self, f: &mut fmt::Formatter<W>) -> fmt::Result {
        let number = refusals::number_of(self.0);
        let place = refusals::place_of(self.0);
        write!(f, "refused {number} {place}")
    }
}

// A slack, and the load on the driver.
#[derive(Clone, Copy)]
pub struct Figures(pub Timed);

impl fmt::Display for Figures {
    fn fmt<W: Write>(&self, f: &mut fmt::Formatter<W>) -> fmt::Result {
        let slack = Signed(self.0.slack.0);
        let load = self.0.load.0;
        write!(f, "slack {slack} load {load}")
    }
}

// The words of a placement: a mark is one digit, the last of a word that of its first site.
#[derive(Clone, Copy)]
pub struct Marks(pub [u64; PLACEMENT_ROOM]);

impl fmt::Display for Marks {
    fn fmt<W: Write>(&self, f: &mut fmt::Formatter<W>) -> fmt::Result {
        let [a, b, c, d] = self.0;
        write!(f, "{a:016x} {b:016x} {c:016x} {d:016x}")
    }
}
