// Megawatts as 64-bit floats to whole kilowatts, with nothing clamped.
ghost use Rattle.std.specs.Prelude.{◌≡◌, ◌≤◌, true, pos, negsuc, ◌≤ℤ◌, unsigned_abs};
ghost use Rattle.fcas.specs.Kilowatts.{kilowatts_if, kilowatts_of, least_mw, most_mw, nearest_whole, thousandfold as product, within as lies_within, within_if, zero_mw};

use std::num::truncating_f64_to_i64;

pub(crate) const LEAST_MW: f64 = -4000.0;

pub(crate) const MOST_MW: f64 = 4000.0;

pub(crate) const MOST_RAMP_MW: f64 = 800.0;

pub(crate) fn within(low: f64, high: f64, x: f64) -> bool
    ensures { result ≡ lies_within low high x }
{
    low <= x && x <= high
}

pub(crate) fn absent_or_within(low: f64, high: f64, x: Option<f64>) -> bool
    ensures { result ≡ within_if low high x }
{
    x.is_none_or(|x| within(low, high, x))
}

// Kilowatts, before they are rounded to a whole number.
fn thousandfold(megawatts: f64) -> f64
    ensures { result ≡ product megawatts }
{
    megawatts * 1000.0
}

// The nearest whole number, an exact half going away from zero.
fn nearest_whole(x: f64) -> f64
    ensures { result ≡ nearest_whole x }
{
    x.round()
}

// The whole kilowatts of a power of at most 4,000 MW either way.
pub(crate) fn kilowatts(megawatts: f64) -> i32
    requires { lies_within least_mw most_mw megawatts ≡ true }
    ensures value { result ≡ kilowatts_of megawatts }
    ensures low { negsuc 3999999 ≤ℤ result }
    ensures high { result ≤ℤ pos 4000000 }
{
    truncating_f64_to_i64(nearest_whole(thousandfold(megawatts))) as i32
}

// The same of a power that is not negative.
pub(crate) fn unsigned_kilowatts(megawatts: f64) -> u32
    requires { lies_within zero_mw most_mw megawatts ≡ true }
    ensures { result ≡ unsigned_abs (kilowatts_of megawatts) }
{
    kilowatts(megawatts) as u32
}

// The same of a number that may be absent.
pub(crate) fn kilowatts_if_present(megawatts: Option<f64>) -> Option<u32>
    requires { within_if zero_mw most_mw megawatts ≡ true }
    ensures { result ≡ kilowatts_if megawatts }
{
    megawatts.map(unsigned_kilowatts)
}
