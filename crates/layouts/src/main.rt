// What `writing` is handed by no other program: texts about as long as a line and longer, values that pass over whether their pieces were
// taken, values that lay out but once, and values that give up. All that each lays out must come, and once.
#![tactic(auto)]

use std::cell::Cell;
use std::fmt;
use std::fmt::Write;
use writing::say;

// Standard output, as the system numbers it.
const STDOUT: i32 = 1;

// Longer than a line by itself.
const LONG: &str =
    "a piece that no line has room for, since it is longer by itself than two hundred and fifty-six bytes: it must come \
after all that waits when it is laid out, and before all that is laid out after it; so this text goes on and on, and says nothing that \
matters, until at last it ends here";

// A write that fails is passed over: what comes after it is tried all the same.
fn stdout(bytes: &[u8]) {
    io::write_all(STDOUT, bytes);
}

// So many pieces of ten bytes.
#[derive(Clone, Copy)]
struct Careless(u32);

// Whether a piece was taken is passed over.
impl fmt::Display for Careless {
    fn fmt<W: Write>(&self, f: &mut fmt::Formatter<W>) -> fmt::Result {
        for _ in 0..self.0 {
            let _ = f.write_str("0123456789");
        }
        Ok(())
    }
}

// So many pieces of ten bytes, the first time that they are laid out, and then none.
#[derive(Drop)]
struct Once(Cell<u32>);

impl fmt::Display for Once {
    fn fmt<W: Write>(&self, f: &mut fmt::Formatter<W>) -> fmt::Result {
        for _ in 0..self.0.replace(0) {
            f.write_str("abcdefghij")?;
        }
        Ok(())
    }
}

// So many pieces of ten bytes, and then no more, as where a value cannot be laid out.
#[derive(Clone, Copy)]
struct GivesUp(u32);

impl fmt::Display for GivesUp {
    fn fmt<W: Write>(&self, f: &mut fmt::Formatter<W>) -> fmt::Result {
        for _ in 0..self.0 {
            f.write_str("ABCDEFGHIJ")?;
        }
        Err(fmt::Error)
    }
}

fn main() {
    for n in [0, 1, 25, 26, 51, 52, 100] {
        let once = Once(Cell::new(n));
        say!("{n}: {} {once}{once}\n", Careless(n));
        say!("{n}: {} and no more", GivesUp(n));
        say!("\n");
    }
    // One byte less than a line, a line, and one more.
    say!("{}|234\n", Careless(25));
    say!("{}|2345\n", Careless(25));
    say!("{}|23456\n", Careless(25));
    say!("{}{LONG}{}\n", Careless(1), Careless(1));
    say!("{LONG}{LONG}\n");
    say!("");
    writing::pairs(
        stdout,
        &[0, 1, 4_294_967_295, 7],
        &[-9_223_372_036_854_775_808, 0, 9_223_372_036_854_775_807],
        9,
    );
    writing::pairs(stdout, &[5, 6], &[-5, -6], 1);
    writing::pairs(stdout, &[], &[], 1);
    say!("\n");
}
