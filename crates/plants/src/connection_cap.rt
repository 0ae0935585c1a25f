// A cap on what flows through each unit's connection.
ghost use Rattle.std.specs.Prelude.{◌≡◌, ◌+◌, ◌≤◌, ◌||◌, pos, negsuc, ◌+ℤ◌, ◌-ℤ◌, ◌≤ℤ◌, ◌==◌};
ghost use Rattle.fcas.specs.Kind.{upward as upward_of};
ghost use Rattle.fcas.specs.Service.{service_number};
ghost use Rattle.limits.specs.Row.{amount as amount_of};
ghost use Rattle.plants.specs.ConnectionCap.{cap_allows, cap_of_unit, delayed as delayed_of, flow as flow_of};
ghost use Rattle.plants.specs.Flows.{cap_lowering};

use crate::room::greatest;
use fcas::{Kind, Service};
use limits::{PlantLimit, Row};

// The caps of units 0 to 23, in kilowatts.
#[derive(Debug, Clone, Copy, PartialEq, Eq)]
pub struct ConnectionCap {
    pub caps: [u32; 24],
}

// The delayed service that moves a unit's energy up.
fn delayed(kind: Kind) -> Service
    ensures { service_number result ≡ delayed_of kind }
{
    match kind {
        Kind::Load => Service::Lower5Min,
        _ => Service::Raise5Min,
    }
}

// What flows through the connection when regulation and the delayed service are called on in full.
fn flow(row: &Row) -> i64
    ensures value { result ≡ flow_of row.now }
    ensures low { negsuc 2147483647 ≤ℤ result }
    ensures high { result ≤ℤ pos 12884901888 }
{
    let upward = row.kind.upward().number();
    let delayed = delayed(row.kind).number();
    let amounts = &row.amounts;
    i64::from(row.energy)
        + (i64::from(amounts[usize::from(upward)]) + i64::from(amounts[usize::from(delayed)]))
}

// Whether a service adds to the flow. A number, as `most` is asked for one.
fn adds(row: &Row, service: u8) -> bool
    ensures { result ≡ (service == upward_of row.now.kind || service == delayed_of row.now.kind) }
{
    (service == row.kind.upward().number()) | (service == delayed(row.kind).number())
}

impl ConnectionCap {
    fn cap(&self, unit: u32) -> u32
        ensures { result ≡ cap_of_unit self.now unit }
    {
        self.caps.get(unit as usize).copied().unwrap_or(0)
    }

    // What the cap leaves to a service that holds so much of the flow.
    fn room(&self, row: &Row, held: u32) -> i64
        ensures { result ≡ (pos (cap_of_unit self.now row.now.unit) -ℤ flow_of row.now) +ℤ pos held }
    {
        i64::from(self.cap(row.unit)) - flow(row) + i64::from(held)
    }
}

impl PlantLimit for ConnectionCap {
    ghost allowed = { cap_allows };

    ghost lowering = { λ plant row s a l h. cap_lowering plant row s a l h };

    fn allows(&self, row: &Row) -> bool {
        flow(row) <= i64::from(self.cap(row.unit))
    }

    fn most(&self, row: &Row, service: u8) -> Option<u32> {
        let amount = row.amounts.get(usize::from(service)).copied()?;
        if adds(row, service) {
            greatest(self.room(row, amount))
        } else {
            self.allows(row).then_some(4_000_000)
        }
    }
}
