// The net texts of the input.
ghost use Rattle.std.specs.Prelude.{◌≤◌, length};
ghost use Rattle.std.specs.Iterator.{at_most};

const LINE_FEED: u8 = b'\n';

// The place of the line feed that is a line by itself, or the end.
pub fn text_end(s: &[u8], from: usize) -> usize
    requires { from ≤ length s.now }
    ensures { (from ≤ result) × (result ≤ length s.now) }
{
    let mut fresh = true;
    for i in from..s.len() {
        let feed = s[i] == LINE_FEED;
        if fresh && feed {
            return i;
        }
        fresh = feed;
    }
    s.len()
}

// The texts one after another: what of the input is left.
#[derive(Drop)]
pub struct Texts<'a>(pub &'a [u8]);

impl<'a> Iterator for Texts<'a> {
    type Item = &'a [u8];

    ghost remaining = { λ t. at_most (length t.0.now) };

    fn next(&mut self) -> Option<&'a [u8]> {
        let input = self.0;
        if input.is_empty() {
            return None;
        }
        let end = text_end(input, 0);
        let (text, rest) = input.split_at(end);
        self.0 = rest.get(1..).unwrap_or(rest);
        Some(text)
    }
}
