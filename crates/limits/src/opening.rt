// The terms of a unit as its interval opens.
ghost use Rattle.std.specs.Prelude.{◌≡◌, ◌≤◌, true, Some};
ghost use Rattle.fcas.specs.Service.{service_number};
ghost use Rattle.limits.specs.Terms.{all_in_bounds, held_bids, in_bounds, offer_of, offers_from, terms_of};
ghost use Rattle.std.specs.Option.{option_map, unwrap_or};

use crate::terms::{CheckedTerms, NO_OFFER, Offer, Terms};
use fcas::{CheckedBid, Envelope, Ground, Opening, Power, SERVICES, Service};

// The number of a power, where there is one.
fn number(power: Option<Power>) -> Option<u32>
    ensures value { result ≡ power }
    ensures bound { unwrap_or result 0 ≤ 4000000 }
{
    power.map(|power| power.get())
}

// What a service that is bid has to offer.
fn offer_of_bid(opening: &Opening, service: Service, bid: &CheckedBid) -> Offer
    ensures value { result ≡ offer_of opening.now.kind opening.now.reading.measured (service_number service) (Some bid.now.bid) }
    ensures bound { in_bounds result ≡ true }
{
    let slopes = bid.slopes();
    let envelope = Envelope::new(opening, service, bid);
    Offer {
        kept_out: Ground::against(opening, service, Some(bid)),
        bid_availability: slopes.max_availability.get(),
        upper_run: slopes.upper_run.get(),
        lower_run: slopes.lower_run.get(),
        enablement_min: envelope.enablement_min,
        enablement_max: envelope.enablement_max,
        max_availability: envelope.max_availability,
    }
}

// What a service has to offer.
fn offer_of(opening: &Opening, service: Service, bid: &Option<CheckedBid>) -> Offer
    ensures value { result ≡ offer_of opening.now.kind opening.now.reading.measured (service_number service) (option_map (λ checked. checked.bid) bid.now) }
    ensures bound { in_bounds result ≡ true }
{
    match bid {
        Some(bid) => offer_of_bid(opening, service, bid),
        None => NO_OFFER,
    }
}

// What each service has to offer.
fn offers_of(opening: &Opening, bids: &[Option<CheckedBid>; 10]) -> [Offer; 10]
    ensures value { result ≡ offers_from opening.now.kind opening.now.reading.measured 0 (held_bids bids.now) }
    ensures bound { all_in_bounds result ≡ true }
{
    let mut offers = [NO_OFFER; 10];
    for service in SERVICES {
        let place = service.number() as usize;
        offers[place] = offer_of(opening, service, &bids[place]);
    }
    offers
}

impl CheckedTerms {
    // The terms of a unit with these bids.
    pub fn new(opening: &Opening, bids: &[Option<CheckedBid>; 10]) -> CheckedTerms
        ensures { result.terms ≡ terms_of opening.now.kind (held_bids bids.now) opening.now.reading.measured }
    {
        let terms = Terms {
            kind: opening.kind,
            initial: opening.reading.measured.initial,
            rise: number(opening.rise()),
            fall: number(opening.fall()),
            offers: offers_of(opening, bids),
        };
        CheckedTerms { terms }
    }
}
