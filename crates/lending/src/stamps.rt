// Stamps: what an area holds before it is lent, a different word at each place, none zero; and whether it still does.
ghost use Rattle.std.specs.Prelude.{◌≡◌, ℕ, ◌<◌, length, slice_index_or};
ghost use Rattle.lending.specs.Stamps.{stamp};

const STAMPED: usize = 4000;

// The stamp of a place.
fn stamp_at(i: usize) -> u16
    ensures { result ≡ stamp i }
{
    if i < STAMPED { i as u16 + 1 } else { 1 }
}

// An area stamped.
pub fn stamp<T: From<u16> + Drop>(area: &mut [T])
    ensures { (k : ℕ) (d : T) → k < length area.old → T.from_gives (stamp k) (slice_index_or area.new k d) }
{
    for i in 0..area.len() {
        area[i] = T::from(stamp_at(i));
    }
}

// Whether an area holds its stamps from a place on.
pub fn kept<T: From<u16> + PartialEq + Drop>(area: &[T], from: usize) -> bool {
    area.iter()
        .enumerate()
        .skip(from)
        .all(|(i, x)| *x == T::from(stamp_at(i)))
}

// Whether the room of an area is all zero.
pub fn cleared<T: From<u16> + PartialEq + Drop>(area: &[T], room: usize) -> bool {
    area.iter().take(room).all(|x| *x == T::from(0))
}
