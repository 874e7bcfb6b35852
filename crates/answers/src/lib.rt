// How an answer crosses to a caller that has numbers and areas only: the number of a refusal is returned, 0 where there is none, and
// its place and the entry's two values stand in the answer's area.
#![tactic(auto)]

ghost use Rattle.std.specs.Prelude.{◌≡◌, [], ◌∷◌, ◌≤◌, pos, length};
ghost use Rattle.rules.specs.Lists.{written};
ghost use Rattle.rules.specs.Refusals.{number_of, place_of};
ghost use Rattle.rules.specs.Answers.{read_figures, check_figures, slack_figures, plan_figures, list_figures};
ghost use Rattle.rules.specs.Calls.{answer_room, count_words, no_words, timing_words, length_words, Crossed};

use rooms::ANSWER_ROOM;
use rules::{Counted, Refusal, Timed};

// How many words the area of an answer has at least.
pub fn room() -> usize
    ensures { result ≡ answer_room }
{
    ANSWER_ROOM
}

// What is returned where it has fewer: the one refusal that is told by its number alone.
pub fn short() -> u32
    ensures { result ≡ number_of Refusal.Short }
{
    refusals::number_of(Refusal::Short)
}

fn put(answer: &mut [i64], place: i64, first: i64, second: i64)
    requires { answer_room ≤ length answer.old }
    ensures { answer.new ≡ written (place ∷ first ∷ second ∷ []) answer.old }
{
    answer[0] = place;
    answer[1] = first;
    answer[2] = second;
}

fn tell(answer: &mut [i64], first: i64, second: i64) -> u32
    requires { answer_room ≤ length answer.old }
    ensures { (result ≡ 0) × (answer.new ≡ written (pos 0 ∷ first ∷ second ∷ []) answer.old) }
{
    put(answer, 0, first, second);
    0
}

pub fn tell_refusal(answer: &mut [i64], r: Refusal) -> u32
    requires { answer_room ≤ length answer.old }
    ensures { (result ≡ number_of r) × (answer.new ≡ written (pos (place_of r) ∷ pos 0 ∷ pos 0 ∷ []) answer.old) }
{
    put(answer, i64::from(refusals::place_of(r)), 0, 0);
    refusals::number_of(r)
}

// A match for each answer: they differ in the two words that they tell, and a closure for those would be no shorter.
pub fn tell_reading(answer: &mut [i64], a: Result<Counted, Refusal>) -> u32
    requires { answer_room ≤ length answer.old }
    ensures { Crossed count_words (read_figures a) answer.old answer.new result }
{
    match a {
        Ok(n) => tell(answer, i64::from(n.types), i64::from(n.rows)),
        Err(r) => tell_refusal(answer, r),
    }
}

pub fn tell_checking(answer: &mut [i64], a: Result<(), Refusal>) -> u32
    requires { answer_room ≤ length answer.old }
    ensures { Crossed no_words (check_figures a) answer.old answer.new result }
{
    match a {
        Ok(()) => tell(answer, 0, 0),
        Err(r) => tell_refusal(answer, r),
    }
}

// Of a placement that is given, and of one that is planned.
pub fn tell_timing(answer: &mut [i64], a: Result<Timed, Refusal>) -> u32
    requires { answer_room ≤ length answer.old }
    ensures given { Crossed timing_words (slack_figures a) answer.old answer.new result }
    ensures planned { Crossed timing_words (plan_figures a) answer.old answer.new result }
{
    match a {
        Ok(t) => tell(answer, t.slack.0, i64::from(t.load.0)),
        Err(r) => tell_refusal(answer, r),
    }
}

pub fn tell_listing(answer: &mut [i64], a: Result<u32, Refusal>) -> u32
    requires { answer_room ≤ length answer.old }
    ensures { Crossed length_words (list_figures a) answer.old answer.new result }
{
    match a {
        Ok(length) => tell(answer, i64::from(length), 0),
        Err(r) => tell_refusal(answer, r),
    }
}
