// What each call does to the row that it is lent.
ghost use Rattle.std.specs.Prelude.{◌≡◌, ℕ, ◌<◌, ◌≤◌, true, false, not, [], ◌∷◌, ◌++◌, is_some, Some, None, MatchResult, OnErr, ◌==◌, slice_index_or, slice_set};
ghost use Rattle.std.specs.Option.{option_map};
ghost use Rattle.fcas.specs.Service.{service_number};
ghost use Rattle.limits.specs.Figure.{no_figure};
ghost use Rattle.limits.specs.Limit.{Borne, breaks, offer_at};
ghost use Rattle.limits.specs.Offer.{live};
ghost use Rattle.limits.specs.Terms.{held_bids};
ghost use Rattle.station.specs.Entry.{BearsRow, bid_of, broken_at, broken_with, enrolled, FigureIn, idle_faults, is_live, is_open, is_under, kind_in, on_interval, open_faults, opened, ProbedIn, trapezium_in, with_amount_of, with_bid, with_energy, with_interval};
ghost use Rattle.states.specs.Refusal.{Named, told};
ghost use Rattle.station.specs.Lent.{Asked, held_faults, Lent, Tried};
ghost use Rattle.states.specs.State.{energy_of};
ghost use Rattle.station.specs.View.{entry_of, plant_row};

use crate::row::UnitRow;
use fcas::{CheckedBid, CheckedReading, Kind, Opening, Power, Service, Trapezium, UpTo};
use limits::{CheckedRow, CheckedTerms, Figure, PlantLimit, Row, figures, first_broken, probe};
use states::{Event, Refusal, State};

// A bid or an amount is put in the place of its service.
fn place<T: Copy>(places: &mut [T; 10], service: Service, value: T)
    ensures { places.new ≡ slice_set places.old (service_number service) value }
{
    places[service.number() as usize] = value;
}

// The last serial is never given.
fn is_last(serial: u64) -> bool
    ensures { result ≡ (serial == 18446744073709551615) }
{
    serial == u64::MAX
}

impl UnitRow {
    pub(crate) fn enrol(&mut self, kind: Kind) -> Result<(), Refusal>
        ensures { Lent ((21, is_some (entry_of self.old)) ∷ []) (Some (enrolled kind)) self.old self.new result }
    {
        self.state = self.state.step(Event::Enrol)?;
        self.kind = kind;
        self.bids = [None; 10];
        Ok(())
    }

    // Apart from `end`, though a step alike: each has its own checks to promise.
    pub(crate) fn retire(&mut self) -> Result<(), Refusal>
        ensures { Lent (idle_faults (entry_of self.old)) None self.old self.new result }
    {
        self.state = self.state.step(Event::Retire)?;
        Ok(())
    }

    #[tactic(auto, using(crate::proofs::Rows::held_set))]
    pub(crate) fn bid(&mut self, service: Service, bid: CheckedBid) -> Result<(), Refusal>
        ensures { Lent (idle_faults (entry_of self.old)) (option_map (with_bid (service_number service) (Some bid.bid)) (entry_of self.old)) self.old self.new result }
    {
        self.state = self.state.step(Event::Rebid)?;
        place(&mut self.bids, service, Some(bid));
        Ok(())
    }

    fn has_bid(&self, service: Service) -> bool
        ensures { result ≡ is_some (slice_index_or (held_bids self.now.bids) (service_number service) None) }
    {
        self.bids[service.number() as usize].is_some()
    }

    #[tactic(auto, using(crate::proofs::Rows::held_set))]
    pub(crate) fn withdraw(&mut self, service: Service) -> Result<(), Refusal>
        ensures { Lent (idle_faults (entry_of self.old) ++ ((26, not (is_some (bid_of (entry_of self.old) (service_number service)))) ∷ [])) (option_map (with_bid (service_number service) None) (entry_of self.old)) self.old self.new result }
    {
        let state = self.state.step(Event::Rebid)?;
        if !self.has_bid(service) {
            return Err(Refusal::NoBid);
        }
        self.state = state;
        place(&mut self.bids, service, None);
        Ok(())
    }

    // An interval begins, under the serial that comes next.
    pub(crate) fn open(&mut self, reading: &CheckedReading, next: u64) -> Result<(), Refusal>
        ensures { Lent (idle_faults (entry_of self.old) ++ open_faults reading.now.measured (entry_of self.old) ++ ((25, (next == 18446744073709551615)) ∷ [])) (option_map (with_interval (Some (opened reading.now.measured next))) (entry_of self.old)) self.old self.new result }
    {
        let state = self.state.step(Event::Open { serial: next })?;
        let opening = Opening {
            kind: self.kind,
            reading: *reading,
        };
        opening.check_forecast()?;
        if is_last(next) {
            return Err(Refusal::SerialsSpent);
        }
        self.terms = CheckedTerms::new(&opening, &self.bids);
        self.reading = *reading;
        self.amounts = [0; 10];
        self.state = state;
        Ok(())
    }

    // The interval ends, and the row is idle with its bids.
    pub(crate) fn end(&mut self) -> Result<(), Refusal>
        ensures { Lent ((22, not (is_some (entry_of self.old))) ∷ (27, not (is_open (entry_of self.old))) ∷ []) (option_map (with_interval None) (entry_of self.old)) self.old self.new result }
    {
        self.state = self.state.step(Event::End)?;
        Ok(())
    }

    // The row at an energy, as a plant limit sees it.
    fn at(&self, unit: u32, energy: Power) -> CheckedRow
        ensures { result.row ≡ plant_row unit energy self.now }
    {
        let amounts = self.amounts;
        CheckedRow {
            row: Row {
                unit,
                kind: self.kind,
                energy: energy.get() as i32,
                amounts,
            },
        }
    }

    // The row at the energy that is held.
    fn held(&self, unit: u32) -> Result<CheckedRow, Refusal>
        ensures { Asked (held_faults (entry_of self.now)) (λ row. row.row ≡ plant_row unit (energy_of self.now.state) self.now) result }
    {
        self.state.step(Event::AtEnergy)?;
        let energy = UpTo {
            number: self.state.energy(),
        };
        Ok(self.at(unit, energy))
    }

    // A row of the unit is refused by the first limit that it breaks.
    fn check_limits<P: PlantLimit>(&self, row: &CheckedRow, plant: &P) -> Result<(), Refusal>
        ensures { MatchResult result (λ _. Borne (breaks (P.PlantLimit.allowed plant.now) self.now.terms.terms row.now.row)) (λ refusal. Named (breaks (P.PlantLimit.allowed plant.now) self.now.terms.terms row.now.row) self.now.kind (told refusal)) }
    {
        match first_broken(&self.terms, row, plant) {
            Some(limit) => Err(Refusal::broken(limit, self.kind)),
            None => Ok(()),
        }
    }

    // The unit and the plant, here and below: a struct of both would be made by each call of the station and opened at once.
    pub(crate) fn energy<P: PlantLimit>(
        &mut self,
        unit: u32,
        energy: Power,
        plant: &P,
    ) -> Result<(), Refusal>
        ensures { Tried ((28, not (is_open (entry_of self.old))) ∷ []) (broken_at (P.PlantLimit.allowed plant.now) unit energy (entry_of self.old)) (kind_in (entry_of self.old)) (option_map (on_interval (with_energy energy)) (entry_of self.old)) self.old self.new result }
    {
        let state = self.state.step(Event::Energy {
            energy: energy.get(),
        })?;
        let row = self.at(unit, energy);
        self.check_limits(&row, plant)?;
        self.state = state;
        Ok(())
    }

    pub(crate) fn amount<P: PlantLimit>(
        &mut self,
        unit: u32,
        service: Service,
        amount: Power,
        plant: &P,
    ) -> Result<(), Refusal>
        ensures { Tried (held_faults (entry_of self.old) ++ ((30, not (is_live (service_number service) (entry_of self.old))) ∷ [])) (broken_with (P.PlantLimit.allowed plant.now) unit (service_number service) amount (entry_of self.old)) (kind_in (entry_of self.old)) (option_map (on_interval (with_amount_of (service_number service) amount)) (entry_of self.old)) self.old self.new result }
    {
        let row = self.held(unit)?.with_amount(service, amount);
        if !self.is_live(service) {
            return Err(Refusal::NotLive);
        }
        self.check_limits(&row, plant)?;
        place(&mut self.amounts, service, amount.get());
        Ok(())
    }

    fn is_live(&self, service: Service) -> bool
        ensures { result ≡ live (offer_at self.now.terms.terms (service_number service)) }
    {
        self.terms.terms.offers[service.number() as usize].is_live()
    }

    // The ten figures at the energy that is held. A row that holds an energy is borne, so that nothing else is refused.
    pub(crate) fn figures<P: PlantLimit>(
        &self,
        unit: u32,
        plant: &P,
    ) -> Result<[Figure; 10], Refusal>
        ensures { BearsRow (P.PlantLimit.allowed plant.now) unit (entry_of self.now) → Asked (held_faults (entry_of self.now)) (λ table. (service : ℕ) → service < 10 → FigureIn (P.PlantLimit.allowed plant.now) unit service (entry_of self.now) (slice_index_or table service no_figure)) result }
    {
        let row = self.held(unit)?;
        figures(&self.terms, &row, plant).ok_or(Refusal::NoEnergy)
    }

    // The interval ends with its ten figures.
    pub(crate) fn close<P: PlantLimit>(
        &mut self,
        unit: u32,
        plant: &P,
    ) -> Result<[Figure; 10], Refusal>
        ensures value { BearsRow (P.PlantLimit.allowed plant.now) unit (entry_of self.old) → Asked (held_faults (entry_of self.old)) (λ table. ((service : ℕ) → service < 10 → FigureIn (P.PlantLimit.allowed plant.now) unit service (entry_of self.old) (slice_index_or table service no_figure)) × (entry_of self.new ≡ option_map (with_interval None) (entry_of self.old))) result }
        ensures refused { OnErr result (self.new ≡ self.old) }
    {
        let table = self.figures(unit, plant)?;
        self.end()?;
        Ok(table)
    }

    // The interval is open under the serial of a pass.
    pub(crate) fn is_under(&self, serial: u64) -> bool
        ensures { result ≡ is_under serial (entry_of self.now) }
    {
        match self.state {
            State::Open { serial: held } | State::OpenWithEnergy { serial: held, .. } => {
                held == serial
            }
            State::Vacant | State::Idle => false,
        }
    }

    pub(crate) fn probe<P: PlantLimit>(
        &self,
        unit: u32,
        service: Service,
        energy: Power,
        plant: &P,
    ) -> Option<Figure>
        ensures { is_open (entry_of self.now) ≡ true → ProbedIn (P.PlantLimit.allowed plant.now) unit (service_number service) energy (entry_of self.now) result }
    {
        probe(&self.terms, &self.at(unit, energy), plant, service)
    }

    pub(crate) fn trapezium(&self, service: Service) -> Option<Trapezium>
        ensures { is_open (entry_of self.now) ≡ true → result ≡ trapezium_in (service_number service) (entry_of self.now) }
    {
        let bid = self.bids[service.number() as usize];
        let opening = Opening {
            kind: self.kind,
            reading: self.reading,
        };
        bid.map(|bid| Trapezium::new(&opening, service, &bid))
    }
}
