// Each entry asked once, and its answer said.
use asked::listing::{Listed, Loaded};
use asked::planning::Planned;
use cases::requests::Question;
use cases::setup::Setup;
use lending::work::Left;
use rooms::PLACEMENT_ROOM;
use rules::{Counted, Refusal, Timed};
use writing::{Figures, Marks, Refused, Signed, say};

fn kept(good: bool) -> &'static str {
    if good { "kept" } else { "changed" }
}

fn cleared(good: bool) -> &'static str {
    if good { "cleared" } else { "left" }
}

// What a call left of its areas.
fn say_left(left: Left) {
    say!(" {} {}", kept(left.kept), cleared(left.cleared));
}

fn say_refused(r: Refusal, left: bool) {
    say!(" {} {}", Refused(r), kept(left));
}

// A text that was read: its counts, which the tables have from now on, and the sum over the words in use, which goes below zero where it
// reaches the upper half. Kept out of `ask`, or what it needs of the stack would be held for every other question too.
#[inline(never)]
fn read(setup: &mut Setup) {
    let answer = asked::tables::read(setup.text.as_slice(), &mut setup.tables);
    let tables = &mut setup.tables;
    let counted = answer.unwrap_or(Counted { types: 0, rows: 0 });
    tables.type_count = counted.types as usize;
    tables.row_count = counted.rows as usize;
    let kept_past = tables.kept(counted);
    match answer {
        Err(r) => say_refused(r, kept_past),
        Ok(Counted { types, rows }) => {
            let sum = Signed(tables.sum(counted).cast_signed());
            say!(" accepted {types} {rows} sum {sum} {}", kept(kept_past));
        }
    }
}

fn say_checked(answer: Result<(), Refusal>) {
    match answer {
        Err(r) => say!(" {}", Refused(r)),
        Ok(()) => say!(" accepted"),
    }
}

fn say_slack(answer: Result<Timed, Refusal>) {
    match answer {
        Err(r) => say!(" {}", Refused(r)),
        Ok(timed) => say!(" {}", Figures(timed)),
    }
}

fn say_planned(planned: Planned) {
    let left = planned.left;
    match planned.answer {
        Err(r) => say_refused(r, left.kept),
        Ok(timed) => {
            say!(" {}", Figures(timed));
            say_left(left);
        }
    }
}

// The pairs of a list, load and time of each.
fn say_listed(listed: Listed) {
    let left = listed.left;
    match listed.answer {
        Err(r) => say_refused(r, left.kept),
        Ok(length) => {
            say!(" length {length} pairs");
            writing::pairs(crate::stdout, &listed.loads, &listed.times, length);
            say_left(left);
        }
    }
}

// The loads of a list.
fn say_loaded(loaded: Loaded) {
    let left = loaded.left;
    match loaded.answer {
        Err(r) => say_refused(r, left.kept),
        Ok(length) => {
            say!(" length {length} loads");
            for load in loaded.loads.iter().take(length as usize) {
                say!(" {load}");
            }
            say_left(left);
        }
    }
}

// A question asked: all but `read` take the tables as they are, at the lengths lent.
pub fn ask(question: Question, setup: &mut Setup, best: &mut [u64; PLACEMENT_ROOM]) {
    match question {
        Question::Read => read(setup),
        Question::Check => say_checked(net::check_net(&setup.tables.net())),
        Question::Slack { lent, placement } => {
            say_slack(asked::tables::slack(&setup.tables.net(), lent, placement));
        }
        Question::Plan { placement, work } => {
            say_planned(asked::planning::plan(&setup.tables.net(), placement, work, best));
        }
        Question::Marks => say!(" {}", Marks(*best)),
        Question::Planned => say_slack(slack::slack_of(&setup.tables.net(), best)),
        Question::List {
            row,
            loads,
            times,
            work,
        } => {
            say_listed(asked::listing::list(&setup.tables.net(), row, loads, times, work));
        }
        Question::Loads { row, loads, work } => {
            say_loaded(asked::listing::loads_alone(&setup.tables.net(), row, loads, work));
        }
    }
}
