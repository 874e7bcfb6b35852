// What hangs somewhere, if anything does, as a pair of the load it shows and its time, and the steps from the sinks up, by value: behind a
// wire, beside each other, after a repeater, what a row starts from, and the slack at the driver.
#![tactic(auto)]

ghost use Rattle.std.specs.Prelude.{◌≡◌, ◌≤◌};
ghost use Rattle.rules.specs.Quantities.{most_ohms};
ghost use Rattle.rules.specs.Entries.{Repeater};
ghost use Rattle.repeaters.specs.Repeaters.{IsBuffer};
ghost use Rattle.upward.specs.Hung.{Within, BufferIn, wire_hung, beside_hung, repeat_hung, start_hung, slack_hung};

use pairs::Pair;
use repeaters::Buffer;
use rules::{Femtofarad, Kind, Ohm, Refusal, Timed};

// Behind a wire: the whole capacitance counts at the far end.
pub fn behind_wire(h: Option<Pair>, r: Ohm, c: Femtofarad) -> Option<Pair>
    requires { (r.0 ≤ most_ohms) × (Within h × Within (wire_hung r.0 c.0 h)) }
    ensures { result ≡ wire_hung r.0 c.0 h }
{
    let far = h?;
    let load = units::together(c, far.load);
    let time = units::less(far.time, units::delay(r, load));
    Some(Pair { load, time })
}

// Two beside each other: their loads together, and the time of the one that is due first.
pub fn beside(a: Option<Pair>, b: Option<Pair>) -> Option<Pair>
    requires { Within (beside_hung a b) }
    ensures { result ≡ beside_hung a b }
{
    let Some(s) = a else {
        return b;
    };
    let Some(t) = b else {
        return a;
    };
    let load = units::together(s.load, t.load);
    let time = units::earlier(s.time, t.time);
    Some(Pair { load, time })
}

// Behind a repeater, worked out from the load it drives: it shows its own input load upward.
pub fn repeated(h: Option<Pair>, b: Buffer) -> Option<Pair>
    requires { BufferIn b × Within h }
    ensures { (x : Repeater) → IsBuffer x b → result ≡ repeat_hung x h }
{
    let driven = h?;
    let early = units::less(driven.time, b.own);
    let time = units::less(early, units::delay(b.resistance, driven.load));
    Some(Pair {
        load: b.input,
        time,
    })
}

// What a row starts from: a sink its pin, any other row what hangs under it.
pub fn started(kind: Kind, under: Option<Pair>) -> Option<Pair>
    ensures { result ≡ start_hung kind under }
{
    match kind {
        Kind::Driver | Kind::Point => under,
        Kind::Sink(pin) => Some(Pair {
            load: pin.load,
            time: pin.due,
        }),
    }
}

// The time at the driver less the driver's delay. Something hangs under every driver, so `None` never comes here.
pub fn slack_at(h: Option<Pair>, driver: Ohm) -> Result<Timed, Refusal>
    requires { (driver.0 ≤ most_ohms) × Within h }
    ensures { result ≡ slack_hung driver.0 h }
{
    let Some(Pair { load, time }) = h else {
        return Err(Refusal::NoRow);
    };
    let slack = units::less(time, units::delay(driver, load));
    Ok(Timed { slack, load })
}
