// A limit of the whole plant on the rows of its units.
ghost use Rattle.std.specs.Prelude.{◌≡◌, ℕ, ◌≤◌, Bool, true};
ghost use Rattle.limits.specs.Plant.{Greatest};
ghost use Rattle.limits.specs.Row.{amount, with_amount};
ghost use Rattle.limits.specs.declared.row.Row.{Row};

use crate::row::Row;

// What a plant limit means is which rows it allows. It answers two questions, and neither alters it.
pub trait PlantLimit {
    ghost allowed: { Self → Row → Bool };

    fn allows(&self, row: &Row) -> bool
        ensures { result ≡ allowed self.now row.now };

    // The greatest amount of a service with which the row is allowed. Any number may be asked for: a Service would be a narrower type, and ask more of callers.
    fn most(&self, row: &Row, service: u8) -> Option<u32>
        ensures { Greatest (λ a. allowed self.now (with_amount row.now service a)) service result };

    // An allowed row with one amount lowered is allowed.
    ghost lowering: { (plant : Self) (row : Row) (service a : ℕ) → a ≤ amount row service → allowed plant row ≡ true → allowed plant (with_amount row service a) ≡ true };
}
