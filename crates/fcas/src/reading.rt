// What a unit's control system says of it as an interval opens.
ghost use Rattle.std.specs.Prelude.{◌≡◌, ◌≤◌, true, pos, negsuc, ◌≤ℤ◌};
ghost use Rattle.fcas.specs.Checks.{Checked};
ghost use Rattle.fcas.specs.Reading.{agc_status_faults, agc_status_of, in_range, measured_of, reading_faults};
ghost use Rattle.std.specs.Option.{unwrap_or};

use crate::kilowatts::{
    LEAST_MW, MOST_MW, MOST_RAMP_MW, absent_or_within, kilowatts, kilowatts_if_present, within,
};
use crate::refusal::Refusal;

// A reading as it is handed over. The floats are megawatts, the ramps megawatts a minute; the energy maximum is in kilowatts. UIGF is the forecast of a semi-scheduled unit.
#[derive(Clone, Copy, Debug, PartialEq)]
pub struct Reading {
    pub initial: f64,
    pub agc_lower: Option<f64>,
    pub agc_upper: Option<f64>,
    pub ramp_up: Option<f64>,
    pub ramp_down: Option<f64>,
    pub uigf: Option<f64>,
    pub energy_max: u32,
    // A number, since the rules say what a status above 2 is answered.
    pub agc_status: u32,
}

#[derive(Clone, Copy, Debug, PartialEq, Eq)]
pub enum AgcStatus {
    NotTold,
    On,
    Off,
}

// A reading in whole kilowatts. Plain numbers, and no Power: a struct that holds one has no copy to hand out (docs/DECISIONS.md).
#[derive(Clone, Copy, Debug, PartialEq, Eq)]
pub struct Measured {
    pub initial: i32,
    pub agc_lower: Option<u32>,
    pub agc_upper: Option<u32>,
    pub ramp_up: Option<u32>,
    pub ramp_down: Option<u32>,
    pub uigf: Option<u32>,
    pub energy_max: u32,
    pub agc_status: AgcStatus,
}

// A reading that passed its checks, in whole kilowatts.
#[derive(Clone, Copy)]
pub struct CheckedReading {
    pub measured: Measured,
    ghost initial_low: { negsuc 3999999 ≤ℤ measured.initial },
    ghost initial_high: { measured.initial ≤ℤ pos 4000000 },
    ghost agc_lower_in_range: { unwrap_or measured.agc_lower 0 ≤ 4000000 },
    ghost agc_upper_in_range: { unwrap_or measured.agc_upper 0 ≤ 4000000 },
    ghost ramp_up_in_range: { unwrap_or measured.ramp_up 0 ≤ 800000 },
    ghost ramp_down_in_range: { unwrap_or measured.ramp_down 0 ≤ 800000 },
    ghost uigf_in_range: { unwrap_or measured.uigf 0 ≤ 4000000 },
    ghost energy_max_in_range: { measured.energy_max ≤ 4000000 },
}

impl TryFrom<u32> for AgcStatus {
    type Error = Refusal;

    ghost try_from_gives = { λ number found. Checked (agc_status_faults number) (λ status. status ≡ agc_status_of number) found };

    fn try_from(number: u32) -> Result<AgcStatus, Refusal> {
        match number {
            0 => Ok(AgcStatus::NotTold),
            1 => Ok(AgcStatus::On),
            2 => Ok(AgcStatus::Off),
            _ => Err(Refusal::ReadingOutOfRange),
        }
    }
}

impl Reading {
    // Whether everything that is present is in its range.
    fn is_in_range(&self) -> bool
        ensures { result ≡ in_range self.now }
    {
        within(LEAST_MW, MOST_MW, self.initial)
            && absent_or_within(0.0, MOST_MW, self.agc_lower)
            && absent_or_within(0.0, MOST_MW, self.agc_upper)
            && absent_or_within(0.0, MOST_RAMP_MW, self.ramp_up)
            && absent_or_within(0.0, MOST_RAMP_MW, self.ramp_down)
            && absent_or_within(0.0, MOST_MW, self.uigf)
            && self.energy_max <= 4_000_000
            && self.agc_status <= 2
    }
}

impl CheckedReading {
    pub fn new(reading: &Reading) -> Result<CheckedReading, Refusal>
        ensures { Checked (reading_faults reading.now) (λ checked. checked.measured ≡ measured_of reading.now) result }
    {
        if !reading.is_in_range() {
            return Err(Refusal::ReadingOutOfRange);
        }
        let measured = Measured {
            initial: kilowatts(reading.initial),
            agc_lower: kilowatts_if_present(reading.agc_lower),
            agc_upper: kilowatts_if_present(reading.agc_upper),
            ramp_up: kilowatts_if_present(reading.ramp_up),
            ramp_down: kilowatts_if_present(reading.ramp_down),
            uigf: kilowatts_if_present(reading.uigf),
            energy_max: reading.energy_max,
            agc_status: AgcStatus::try_from(reading.agc_status)?,
        };
        Ok(CheckedReading { measured })
    }
}
