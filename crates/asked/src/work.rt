// An entry asked on a work area of its own.
use lending::work::{Left, Lent, Work};
use rules::Refusal;

// What an entry answers on a work area lent at these lengths, and what it leaves of that.
pub fn on_work<T, F>(lent: Lent, entry: F) -> (Result<T, Refusal>, Left)
where
    F: FnOnce(&mut [u32], &mut [i64], &mut [u64]) -> Result<T, Refusal>,
    requires { F.IsAlwaysCallable entry }
{
    let mut work = Work::stamped();
    let loads = lent.loads.min(work.loads.len());
    let times = lent.times.min(work.times.len());
    let words = lent.words.min(work.words.len());
    let answer = entry(
        &mut work.loads[..loads],
        &mut work.times[..times],
        &mut work.words[..words],
    );
    let left = work.seen(answer.is_err());
    (answer, left)
}
