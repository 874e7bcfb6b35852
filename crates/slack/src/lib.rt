// The slack of a given placement: what is refused first, then loads and times from the sinks up, by recursion over the tree.
#![tactic(auto)]

ghost use Rattle.std.specs.Prelude.{◌≡◌};
ghost use Rattle.rules.specs.Promises.{SlackPromise, lent_net};
ghost use Rattle.laws.specs.Tabled.{row_at};
ghost use Rattle.upward.specs.Hung.{slack_hung};
ghost use Rattle.slack.specs.Ready.{Sound, hung_at};

use rooms::PLACEMENT_ROOM;
use rooms::links::LINKS_ROOM;
use rules::{Net, Refusal, Timed};
use tree::Walk;

mod legal;
mod steps;
mod tree;

// Of a placement that is not refused: its slack, and the load on the driver.
fn timing<'a>(net: &'a Net<'a>, words: &'a [u64]) -> Result<Timed, Refusal>
    requires { Sound net.now.rows.now net.now.due.now net.now.types.now words.now net.now.row_count }
    ensures { result ≡ slack_hung (row_at net.now.rows.now net.now.due.now 0).resistance.0 (hung_at net.now.rows.now net.now.due.now net.now.types.now words.now net.now.row_count 0) }
{
    let mut links = [0; LINKS_ROOM];
    rows::link(net, &mut links);
    // Lent again: what a walk holds lives no longer than the walk.
    let walk = Walk {
        net: &*net,
        words: &*words,
        links: &links,
    };
    let h = walk.at_driver();
    let driver = rows::row_at(net, 0);
    upward::slack_at(h, driver.resistance)
}

// The slack of a placement, and the load on the driver.
pub fn slack_of(net: &Net<'_>, placement: &[u64]) -> Result<Timed, Refusal>
    ensures { SlackPromise (lent_net net.now) placement.now result }
{
    net::check_tables(placement.len() < PLACEMENT_ROOM, net)?;
    legal::check_marks(net, placement)?;
    timing(net, placement)
}
