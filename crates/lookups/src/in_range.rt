// Places in range.
ghost use Rattle.std.specs.Prelude.{◌≡◌, ◌<◌, ◌↔◌, IsSome, IfSome};

use fields::Place;

// A place that a cell's tables have: there are 256 of them, with 1,024 slots each.
#[derive(Clone, Copy)]
pub struct InRange {
    pub place: Place,
    ghost in_range: { (place.table < 256) × (place.slot < 1024) },
}

impl InRange {
    // A place that is in range, or none.
    pub fn of(place: Place) -> Option<InRange>
        ensures there { IsSome result ↔ ((place.table < 256) × (place.slot < 1024)) }
        ensures place { IfSome result (λ x. x.place ≡ place) }
    {
        if place.table >= 256 || place.slot >= 1024 {
            return None;
        }
        Some(InRange { place })
    }
}
