// Two plant limits at once.
ghost use Rattle.std.specs.Prelude.{◌≡◌, ◌&&◌, min};
ghost use Rattle.std.proofs.lemmas.Bool.{and_from, and_parts};

use limits::{PlantLimit, Row};

#[derive(Debug, Clone, Copy, PartialEq, Eq)]
pub struct Both<A, B>(pub A, pub B);

// The greatest amount that two limits leave together.
fn lesser(a: u32, b: u32) -> u32
    ensures { result ≡ min a b }
{
    a.min(b)
}

impl<L: PlantLimit, R: PlantLimit> PlantLimit for Both<L, R> {
    ghost allowed = { λ plant row. L.PlantLimit.allowed plant.0 row && R.PlantLimit.allowed plant.1 row };

    ghost lowering = { λ plant row s a l h.
        let parts = and_parts (L.PlantLimit.allowed plant.0 row) (R.PlantLimit.allowed plant.1 row) h in
        and_from _ _ (L.PlantLimit.lowering plant.0 row s a l parts.0) (R.PlantLimit.lowering plant.1 row s a l parts.1) };

    fn allows(&self, row: &Row) -> bool {
        self.0.allows(row) & self.1.allows(row)
    }

    fn most(&self, row: &Row, service: u8) -> Option<u32> {
        let left = self.0.most(row, service)?;
        let right = self.1.most(row, service)?;
        Some(lesser(left, right))
    }
}
