// The request that the input begins with: a word, then numbers parted by one blank, up to the line feed.
ghost use Rattle.std.specs.Prelude.{◌≡◌, ◌+◌, ◌<◌, ◌≤◌, length, IfSome};

use crate::numbers;
use lending::work;

// A request that sets something up.
#[derive(Clone, Copy)]
pub enum Setting {
    Text,
    Bytes { times: u64, length: usize },
    Types(usize),
    Rows(usize),
    Due(usize),
    Areas(lending::tables::Lent),
    Counts { types: usize, rows: usize },
}

// A request that asks: for a list, of which row, and how much of each area is lent.
#[derive(Clone, Copy)]
pub enum Question {
    Read,
    Check,
    Slack {
        lent: usize,
        placement: [u64; 4],
    },
    Plan {
        placement: usize,
        work: work::Lent,
    },
    Marks,
    Planned,
    List {
        row: usize,
        loads: usize,
        times: usize,
        work: work::Lent,
    },
    Loads {
        row: usize,
        loads: usize,
        work: work::Lent,
    },
}

// A question has its line with it.
#[derive(Clone, Copy)]
pub enum Request<'a> {
    Case(&'a [u8]),
    Set(Setting),
    Ask(Question, &'a [u8]),
}

// What stands before the next blank, line feed or the end, and what follows from there on.
fn word(s: &[u8]) -> (&[u8], &[u8])
    ensures { length result.0.now + length result.1.now ≡ length s.now }
{
    let end = s
        .iter()
        .position(|b| matches!(*b, b' ' | b'\n'))
        .unwrap_or(s.len());
    s.split_at(end)
}

// Zero bytes before a word count for nothing.
fn bare(word: &[u8]) -> &[u8] {
    let zeros = word.iter().position(|b| *b != 0).unwrap_or(word.len());
    &word[zeros..]
}

// The numbers after a word, at most six, how many, and what follows the line.
fn numbers(s: &[u8]) -> Option<([u64; 6], usize, &[u8])>
    ensures { IfSome result (λ r. (r.1 ≤ 6) × (length r.2.now < length s.now)) }
{
    let mut n = [0u64; 6];
    let mut rest = s;
    for i in 0..6 {
        let Some(next) = rest.strip_prefix(b" ") else {
            return Some((n, i, rest.strip_prefix(b"\n")?));
        };
        let (m, after) = numbers::number(next)?;
        n[i] = m;
        rest = after;
    }
    Some((n, 6, rest.strip_prefix(b"\n")?))
}

fn setting_of(word: &[u8], n: &[u64]) -> Option<Setting> {
    let setting = match (word, n) {
        (b"text", []) => Setting::Text,
        (b"bytes", [times, length]) => Setting::Bytes {
            times: *times,
            length: *length as usize,
        },
        (b"types", [count]) => Setting::Types(*count as usize),
        (b"rows", [count]) => Setting::Rows(*count as usize),
        (b"due", [count]) => Setting::Due(*count as usize),
        (b"areas", [types, rows, due]) => Setting::Areas(lending::tables::Lent {
            types: *types as usize,
            rows: *rows as usize,
            due: *due as usize,
        }),
        (b"counts", [types, rows]) => Setting::Counts {
            types: *types as usize,
            rows: *rows as usize,
        },
        _ => return None,
    };
    Some(setting)
}

fn lent(loads: u64, times: u64, words: u64) -> work::Lent {
    work::Lent {
        loads: loads as usize,
        times: times as usize,
        words: words as usize,
    }
}

fn question_of(word: &[u8], n: &[u64]) -> Option<Question> {
    let question = match (word, n) {
        (b"read", []) => Question::Read,
        (b"check", []) => Question::Check,
        (b"slack", [lent, a, b, c, d]) => Question::Slack {
            lent: *lent as usize,
            placement: [*a, *b, *c, *d],
        },
        (b"plan", [placement, l, t, w]) => Question::Plan {
            placement: *placement as usize,
            work: lent(*l, *t, *w),
        },
        (b"marks", []) => Question::Marks,
        (b"planned", []) => Question::Planned,
        (b"list", [row, loads, times, l, t, w]) => Question::List {
            row: *row as usize,
            loads: *loads as usize,
            times: *times as usize,
            work: lent(*l, *t, *w),
        },
        (b"loads", [row, loads, l, t, w]) => Question::Loads {
            row: *row as usize,
            loads: *loads as usize,
            work: lent(*l, *t, *w),
        },
        _ => return None,
    };
    Some(question)
}

// The name of a case is the next word, and ends its line.
fn name(s: &[u8]) -> Option<(&[u8], &[u8])>
    ensures { IfSome result (λ r. length r.1.now < length s.now) }
{
    let (_, named) = s.split_first()?;
    let (name, after) = word(named);
    Some((name, after.strip_prefix(b"\n")?))
}

// What the line of a request says, without its line feed: all of s but what follows the line.
fn line<'a>(s: &'a [u8], rest: &[u8]) -> &'a [u8] {
    let long = s.len().saturating_sub(rest.len()).saturating_sub(1);
    &s[..long]
}

// The request that a text begins with, and what follows its line.
pub fn next_request(s: &[u8]) -> Option<(Request<'_>, &[u8])>
    ensures { IfSome result (λ r. length r.1.now < length s.now) }
{
    let (first, after) = word(s);
    let asked = bare(first);
    if let b"case" = asked {
        let (name, rest) = name(after)?;
        return Some((Request::Case(name), rest));
    }
    let (n, count, rest) = numbers(after)?;
    if let Some(q) = question_of(asked, &n[..count]) {
        return Some((Request::Ask(q, line(s, rest)), rest));
    }
    let set = setting_of(asked, &n[..count])?;
    Some((Request::Set(set), rest))
}
