// The greatest amount that room leaves.
ghost use Rattle.std.specs.Prelude.{◌≡◌, ℕ, ◌≤◌, pos, int_le};
ghost use Rattle.limits.specs.Plant.{Greatest};

// The greatest amount up to 4,000,000 that fits into the room.
pub(crate) fn greatest(room: i64) -> Option<u32>
    ensures { (service : ℕ) → service ≤ 9 → Greatest (λ a. int_le (pos a) room) service result }
{
    u32::try_from(room.min(4_000_000)).ok()
}
