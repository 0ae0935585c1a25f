// A row: the energy and the ten amounts of a unit.
ghost use Rattle.std.specs.Prelude.{◌≡◌, ◌≤◌, false, length, pos, ◌≤ℤ◌};
ghost use Rattle.fcas.specs.Bid.{some_above};
ghost use Rattle.fcas.specs.Checks.{Checked};
ghost use Rattle.fcas.specs.Service.{service_number};
ghost use Rattle.limits.specs.Row.{amount as amount_of, row_faults, with_amount};

use fcas::{Kind, Power, Refusal, Service, UpTo, some_above};

// A row as it is handed over, in kilowatts.
#[derive(Clone, Copy)]
pub struct Row {
    pub unit: u32,
    pub kind: Kind,
    pub energy: i32,
    pub amounts: [u32; 10],
}

// A row whose numbers are in range.
#[derive(Clone, Copy)]
pub struct CheckedRow {
    pub row: Row,
    ghost ten: { length row.amounts ≡ 10 },
    ghost energy_low: { pos 0 ≤ℤ row.energy },
    ghost energy_high: { row.energy ≤ℤ pos 4000000 },
    ghost amounts_in_range: { some_above 4000000 row.amounts ≡ false },
}

impl CheckedRow {
    pub fn new(row: Row) -> Result<CheckedRow, Refusal>
        ensures { Checked (row_faults row) (λ checked. checked.row ≡ row) result }
    {
        if (row.energy < 0) | (row.energy > 4_000_000) | some_above(4_000_000, &row.amounts) {
            return Err(Refusal::PowerTooLarge);
        }
        Ok(CheckedRow { row })
    }

    // The amount of a service, 0 for what is none. A number is asked for, since a Limit holds one.
    pub(crate) fn amount(&self, service: u8) -> Power
        ensures { result ≡ amount_of self.now.row service }
    {
        UpTo {
            number: self.row.amounts.get(service as usize).copied().unwrap_or(0),
        }
    }

    // The row with another amount of a service.
    pub fn with_amount(&self, service: Service, amount: Power) -> CheckedRow
        ensures { result.row ≡ with_amount self.now.row (service_number service) amount }
    {
        let mut row = self.row;
        row.amounts[service.number() as usize] = amount.get();
        CheckedRow { row }
    }
}
