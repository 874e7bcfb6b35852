// The step at a site: behind the repeater that it is marked with, if there is one.
ghost use Rattle.std.specs.Prelude.{◌≡◌, true};
ghost use Rattle.rules.specs.Placements.{marks};
ghost use Rattle.slack.specs.Hung.{mark_hung, site_hung, Siting, table_types};

use pairs::Pair;
use rules::Net;

// With the repeater that site k is marked with, if there is one.
fn marked(net: &Net<'_>, words: &[u64], k: usize, h: Option<Pair>) -> Option<Pair>
    requires { Siting net.now.types.now words.now k h }
    ensures { result ≡ mark_hung (table_types net.now.types.now) (marks words.now k) h }
{
    match marks::mark_of(words, k).checked_sub(1) {
        None => h,
        Some(i) => upward::repeated(h, repeaters::type_at(net.types, i as usize)),
    }
}

// With the repeater of a row's site, if it has one: site k.
pub fn sited(net: &Net<'_>, words: &[u64], site: bool, k: usize, h: Option<Pair>) -> Option<Pair>
    requires { site ≡ true → Siting net.now.types.now words.now k h }
    ensures { result ≡ site_hung (table_types net.now.types.now) site (marks words.now k) h }
{
    if site { marked(net, words, k, h) } else { h }
}
