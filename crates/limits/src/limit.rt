// The limits of a row, in their order.
ghost use Rattle.std.specs.Prelude.{◌≡◌, ◌≤◌, IfSome, Some, pos, ◌+ℤ◌, ◌-ℤ◌, ◌*ℤ◌};
ghost use Rattle.std.specs.Option.{option_or};
ghost use Rattle.limits.specs.Bounds.{Bounded, BoundedIf, Moved, Powers, Product};
ghost use Rattle.fcas.specs.Service.{regulating};
ghost use Rattle.limits.specs.Narrowing.{first_of_row};
ghost use Rattle.limits.specs.Limit.{breaks, exceeded, Finds, FindsBefore, limit_by, limit_number, limits_of, lowered as lowered_energy, lower_sides, offer_at, raised as raised_energy, sides_of, upper_sides, while_live};

use crate::plant::PlantLimit;
use crate::row::CheckedRow;
use crate::terms::{CheckedTerms, NO_OFFER, Offer};
use fcas::{Kind, Power, Service};

// A limit: three of each service, those of the two ramps, and the plant's.
// A service is a plain number here: a Service would be a narrower type, and ask more of callers.
#[derive(Clone, Copy, Debug, PartialEq, Eq)]
pub enum Limit {
    Availability(u8),
    Upper(u8),
    Lower(u8),
    RampUp,
    RampDown,
    Plant,
}

// The two sides of a limit: it holds while the lesser is at most the greater. Those of an upper or a lower limit are scaled by the bid's maximum availability.
#[derive(Clone, Copy, Debug, PartialEq, Eq)]
pub struct Sides {
    pub lesser: i64,
    pub greater: i64,
}

impl Sides {
    pub(crate) fn is_exceeded(self) -> bool
        ensures { result ≡ exceeded (Some self) }
    {
        self.greater < self.lesser
    }
}

// What is no service does not regulate. A number is asked for, here and below, since a Limit holds one; to make a Service of it was dearer.
pub(crate) fn is_regulating(service: u8) -> bool
    ensures { result ≡ regulating service }
{
    (service == Service::RaiseReg.number()) | (service == Service::LowerReg.number())
}

impl Limit {
    // The three limits of a service, in their order.
    pub fn of_service(service: u8) -> [Limit; 3]
        ensures { result ≡ limits_of service }
    {
        [
            Limit::Availability(service),
            Limit::Upper(service),
            Limit::Lower(service),
        ]
    }

    // The number of the limit in the rules, by that name: beside `by` it names the limit, which `u8::from` would not say.
    pub fn number(self) -> u8
        ensures { result ≡ limit_number self }
    {
        match self {
            Limit::Availability(_) => 1,
            Limit::Upper(service) => { if is_regulating(service) { 2 } else { 4 } }
            Limit::Lower(service) => { if is_regulating(service) { 3 } else { 5 } }
            Limit::RampUp => 6,
            Limit::RampDown => 7,
            Limit::Plant => 8,
        }
    }

    // The service by which the limit is named, or 10 for the plant.
    pub fn by(self, kind: Kind) -> u8
        ensures { result ≡ limit_by kind self }
    {
        match self {
            Limit::Availability(service) | Limit::Upper(service) | Limit::Lower(service) => service,
            Limit::RampUp => kind.upward().number(),
            Limit::RampDown => kind.downward().number(),
            Limit::Plant => 10,
        }
    }
}

// A power times an energy or an amount.
// How large the parts of a limit can be is a clause, here and below: Sides is public and takes any, and a type for an energy that moved would be opened in the next line.
fn times(power: u32, at: i64) -> i64
    requires power { power ≤ 4000000 }
    requires at { Moved at }
    ensures value { result ≡ pos power *ℤ at }
    ensures bound { Product result }
{
    i64::from(power) * at
}

// The sides of an upper limit at an energy.
fn upper_sides(offer: &Offer, energy: i64, amount: Power) -> Sides
    requires powers { Powers offer.now }
    requires energy { Moved energy }
    ensures value { result ≡ upper_sides offer.now energy amount }
    ensures bound { Bounded result }
{
    Sides {
        lesser: times(offer.bid_availability, energy)
            + times(offer.upper_run, i64::from(amount.get())),
        greater: times(offer.bid_availability, i64::from(offer.enablement_max)),
    }
}

// The sides of a lower limit at an energy: the mirror of the upper, of which each sign and side is another.
fn lower_sides(offer: &Offer, energy: i64, amount: Power) -> Sides
    requires powers { Powers offer.now }
    requires energy { Moved energy }
    ensures value { result ≡ lower_sides offer.now energy amount }
    ensures bound { Bounded result }
{
    Sides {
        lesser: times(offer.bid_availability, i64::from(offer.enablement_min)),
        greater: times(offer.bid_availability, energy)
            - times(offer.lower_run, i64::from(amount.get())),
    }
}

impl CheckedTerms {
    // What a service has to offer; nothing where it is none.
    pub(crate) fn offer(&self, service: u8) -> Offer
        ensures value { result ≡ offer_at self.now.terms service }
        ensures powers { Powers result }
    {
        self.terms
            .offers
            .get(service as usize)
            .copied()
            .unwrap_or(NO_OFFER)
    }

    // What a live service has to offer; nothing where the service is not live.
    fn live_offer(&self, service: u8) -> Option<Offer>
        ensures value { result ≡ while_live (offer_at self.now.terms service) (Some (offer_at self.now.terms service)) }
        ensures powers { IfSome result Powers }
    {
        let offer = self.offer(service);
        if offer.is_live() { Some(offer) } else { None }
    }

    // The energy with the upward amount added.
    fn raised(&self, row: &CheckedRow) -> i64
        ensures value { result ≡ raised_energy self.now.terms row.now.row }
        ensures bound { Moved result }
    {
        i64::from(row.row.energy) + i64::from(row.amount(self.terms.kind.upward().number()).get())
    }

    // The energy with the downward amount taken away: one function of a direction would be two matches.
    fn lowered(&self, row: &CheckedRow) -> i64
        ensures value { result ≡ lowered_energy self.now.terms row.now.row }
        ensures bound { Moved result }
    {
        i64::from(row.row.energy) - i64::from(row.amount(self.terms.kind.downward().number()).get())
    }
}

impl CheckedTerms {
    pub(crate) fn availability_sides(&self, row: &CheckedRow, service: u8) -> Option<Sides>
        ensures value { result ≡ sides_of self.now.terms row.now.row (Limit.Availability service) }
        ensures bound { BoundedIf result }
    {
        let offer = self.live_offer(service)?;
        Some(Sides {
            lesser: i64::from(row.amount(service).get()),
            greater: i64::from(offer.max_availability),
        })
    }

    pub(crate) fn upper_limit_sides(&self, row: &CheckedRow, service: u8) -> Option<Sides>
        ensures value { result ≡ sides_of self.now.terms row.now.row (Limit.Upper service) }
        ensures bound { BoundedIf result }
    {
        let offer = self.live_offer(service)?;
        let energy = if is_regulating(service) {
            i64::from(row.row.energy)
        } else {
            self.raised(row)
        };
        Some(upper_sides(&offer, energy, row.amount(service)))
    }

    // The mirror of the upper limit: other sides and another energy, so that one function would take two more as parameters.
    pub(crate) fn lower_limit_sides(&self, row: &CheckedRow, service: u8) -> Option<Sides>
        ensures value { result ≡ sides_of self.now.terms row.now.row (Limit.Lower service) }
        ensures bound { BoundedIf result }
    {
        let offer = self.live_offer(service)?;
        let energy = if is_regulating(service) {
            i64::from(row.row.energy)
        } else {
            self.lowered(row)
        };
        Some(lower_sides(&offer, energy, row.amount(service)))
    }

    // What the ramp upward reaches.
    fn highest(&self, rise: u32) -> i64
        requires { rise ≤ 4000000 }
        ensures value { result ≡ self.now.terms.initial +ℤ pos rise }
        ensures bound { Moved result }
    {
        i64::from(self.terms.initial) + i64::from(rise)
    }

    // What the ramp downward reaches: the other sign, and one line of its own.
    fn lowest(&self, fall: u32) -> i64
        requires { fall ≤ 4000000 }
        ensures value { result ≡ self.now.terms.initial -ℤ pos fall }
        ensures bound { Moved result }
    {
        i64::from(self.terms.initial) - i64::from(fall)
    }

    pub(crate) fn ramp_up_sides(&self, row: &CheckedRow) -> Option<Sides>
        ensures value { result ≡ sides_of self.now.terms row.now.row Limit.RampUp }
        ensures bound { BoundedIf result }
    {
        self.live_offer(self.terms.kind.upward().number())?;
        let rise = self.terms.rise?;
        Some(Sides {
            lesser: self.raised(row),
            greater: self.highest(rise),
        })
    }

    // The mirror of the ramp upward, with lesser and greater exchanged.
    pub(crate) fn ramp_down_sides(&self, row: &CheckedRow) -> Option<Sides>
        ensures value { result ≡ sides_of self.now.terms row.now.row Limit.RampDown }
        ensures bound { BoundedIf result }
    {
        self.live_offer(self.terms.kind.downward().number())?;
        let fall = self.terms.fall?;
        Some(Sides {
            lesser: self.lowest(fall),
            greater: self.lowered(row),
        })
    }

    // The two sides of a limit at a row, where it is in force.
    // Without this hint and that of coefficient the program takes 6 per cent more instructions.
    #[inline(always)]
    pub fn sides(&self, row: &CheckedRow, limit: Limit) -> Option<Sides>
        ensures value { result ≡ sides_of self.now.terms row.now.row limit }
        ensures bound { BoundedIf result }
    {
        match limit {
            Limit::Availability(service) => self.availability_sides(row, service),
            Limit::Upper(service) => self.upper_limit_sides(row, service),
            Limit::Lower(service) => self.lower_limit_sides(row, service),
            Limit::RampUp => self.ramp_up_sides(row),
            Limit::RampDown => self.ramp_down_sides(row),
            Limit::Plant => None,
        }
    }
}

impl CheckedTerms {
    // Whether a limit that has sides is exceeded.
    fn exceeds(&self, row: &CheckedRow, limit: Limit) -> bool
        ensures { result ≡ exceeded (sides_of self.now.terms row.now.row limit) }
    {
        self.sides(row, limit)
            .is_some_and(|sides| sides.is_exceeded())
    }

    // The first limit of a service that breaks.
    // Nested loops left by a label are the project's rule for this search (docs/DECISIONS.md).
    fn first_of_services(&self, row: &CheckedRow) -> Option<Limit>
        ensures { FindsBefore 30 (λ limit. exceeded (sides_of self.now.terms row.now.row limit)) result }
    {
        let mut broken = None;
        'search: for service in 0..10u8 {
            for limit in Limit::of_service(service) {
                if self.exceeds(row, limit) {
                    broken = Some(limit);
                    break 'search;
                }
            }
        }
        broken
    }
}

// The first of the limits of the whole row, which come after those of the services.
fn first_of_row(rise_breaks: bool, fall_breaks: bool, is_allowed: bool) -> Option<Limit>
    ensures { result ≡ first_of_row rise_breaks fall_breaks is_allowed }
{
    if rise_breaks {
        Some(Limit::RampUp)
    } else if fall_breaks {
        Some(Limit::RampDown)
    } else if is_allowed {
        None
    } else {
        Some(Limit::Plant)
    }
}

// The limits of the services come before those of the row.
fn earlier(of_services: Option<Limit>, of_row: Option<Limit>) -> Option<Limit>
    ensures { result ≡ option_or of_services of_row }
{
    of_services.or(of_row)
}

// Whether the plant allows a row.
pub(crate) fn is_allowed<P: PlantLimit>(plant: &P, row: &CheckedRow) -> bool
    ensures { result ≡ P.PlantLimit.allowed plant.now row.now.row }
{
    plant.allows(&row.row)
}

// The first limit of the order that a row breaks.
pub fn first_broken<P: PlantLimit>(
    terms: &CheckedTerms,
    row: &CheckedRow,
    plant: &P,
) -> Option<Limit>
    ensures value { Finds (breaks (P.PlantLimit.allowed plant.now) terms.now.terms row.now.row) result }
{
    let of_row = first_of_row(
        terms.exceeds(row, Limit::RampUp),
        terms.exceeds(row, Limit::RampDown),
        is_allowed(plant, row),
    );
    earlier(terms.first_of_services(row), of_row)
}
