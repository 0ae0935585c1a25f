// The numbers by which a unit's limits are reckoned, fixed as the interval opens.
ghost use Rattle.std.specs.Prelude.{◌≡◌, ◌≤◌, true, length, pos, negsuc, ◌≤ℤ◌};
ghost use Rattle.limits.specs.Offer.{live};
ghost use Rattle.limits.specs.Terms.{all_in_bounds};
ghost use Rattle.std.specs.Option.{unwrap_or};

use fcas::{Ground, Kind};

// What a service has to offer in the interval; where it is not live, what keeps it out stands beside. Plain numbers, as in a reading.
#[derive(Clone, Copy, Debug, PartialEq, Eq)]
pub struct Offer {
    pub kept_out: Option<Ground>,
    pub bid_availability: u32,
    pub upper_run: u32,
    pub lower_run: u32,
    pub enablement_min: u32,
    pub enablement_max: u32,
    pub max_availability: u32,
}

// That of a service that is not bid.
pub(crate) const NO_OFFER: Offer = Offer {
    kept_out: Some(Ground::NoBid),
    bid_availability: 0,
    upper_run: 0,
    lower_run: 0,
    enablement_min: 0,
    enablement_max: 0,
    max_availability: 0,
};

// The terms of a unit. `rise` and `fall` are what its ramps give in five minutes.
#[derive(Clone, Copy, Debug, PartialEq, Eq)]
pub struct Terms {
    pub kind: Kind,
    pub initial: i32,
    pub rise: Option<u32>,
    pub fall: Option<u32>,
    pub offers: [Offer; 10],
}

// Terms whose numbers are in the range that a checked reading and checked bids give them. The initial power has a sign, and stands at `kilowatts`, in a reading and here alone: a type for it would be no plainer.
#[derive(Clone, Copy)]
pub struct CheckedTerms {
    pub terms: Terms,
    ghost ten: { length terms.offers ≡ 10 },
    ghost offers_in_range: { all_in_bounds terms.offers ≡ true },
    ghost initial_low: { negsuc 3999999 ≤ℤ terms.initial },
    ghost initial_high: { terms.initial ≤ℤ pos 4000000 },
    ghost rise_in_range: { unwrap_or terms.rise 0 ≤ 4000000 },
    ghost fall_in_range: { unwrap_or terms.fall 0 ≤ 4000000 },
}

impl Offer {
    pub fn is_live(&self) -> bool
        ensures { result ≡ live self.now }
    {
        self.kept_out.is_none()
    }
}
