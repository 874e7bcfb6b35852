// How many have passed, with one more.
ghost use Rattle.std.specs.Prelude.{◌≡◌};
ghost use Rattle.entries.specs.Held.{with_row, counted_with};
ghost use Rattle.checks.specs.Checks.{FewPassed};

use checks::{Line, Passed};
use rules::Refusal;

// With a row, by its site word.
pub fn with_row(n: Passed, site: u32) -> Passed
    requires { FewPassed n }
    ensures { result ≡ with_row n site }
{
    Passed {
        rows: n.rows + 1,
        sites: n.sites + usize::from(site == 1),
        ..n
    }
}

// With the line; one that is refused is not counted.
pub fn passed_with(n: Passed, line: Result<Line, Refusal>) -> Passed
    requires { FewPassed n }
    ensures { result ≡ counted_with n line }
{
    match line {
        Ok(Line::Repeater(_)) => Passed {
            types: n.types + 1,
            ..n
        },
        Ok(Line::Driver(_)) => with_row(n, 0),
        Ok(Line::Point(w) | Line::Sink(w, _)) => with_row(n, w.site),
        Err(_) => n,
    }
}
