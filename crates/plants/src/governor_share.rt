// What the governors of a plant may share out.
ghost use Rattle.std.specs.Prelude.{◌≡◌, ℕ, ◌<◌, ◌≤◌, ◌&&◌, length, sum, pos, ◌-ℤ◌, int_le, nat_le};
ghost use Rattle.limits.specs.Plant.{Greatest};
ghost use Rattle.plants.specs.GovernorShare.{lowers as lowers_of, raises as raises_of, share_allows};
ghost use Rattle.plants.specs.Shares.{share_lowering};

use crate::room::greatest;
use limits::{PlantLimit, Row};

// The most raise and the most lower, in kilowatts.
#[derive(Debug, Clone, Copy, PartialEq, Eq)]
pub struct GovernorShare {
    pub raise: u32,
    pub lower: u32,
}

// One side of a share: the most that its five services may hold together, and what they hold.
#[derive(Clone, Copy)]
struct Side {
    most: u32,
    held: u64,
    ghost bound: { held < 21474836480 },
}

impl Side {
    fn new(most: u32, amounts: &[u32]) -> Side
        requires { length amounts.now ≡ 5 }
        ensures most { result.most ≡ most }
        ensures held { result.held ≡ sum amounts.now }
    {
        Side {
            most,
            held: amounts.iter().map(|&amount| u64::from(amount)).sum(),
        }
    }

    fn is_kept(&self) -> bool
        ensures { result ≡ nat_le self.now.held self.now.most }
    {
        self.held <= u64::from(self.most)
    }

    // What is left to a service that holds so much of this side.
    fn room(&self, amount: u32) -> i64
        ensures { result ≡ pos self.now.most -ℤ (pos self.now.held -ℤ pos amount) }
    {
        i64::from(self.most) - (self.held as i64 - i64::from(amount))
    }

    // The greatest amount of a service that holds so much of this side; nothing where the other side is exceeded.
    fn greatest_beside(&self, other: &Side, amount: u32) -> Option<u32>
        ensures { (service : ℕ) → service ≤ 9 → Greatest (λ a. int_le (pos a) (pos self.now.most -ℤ (pos self.now.held -ℤ pos amount)) && nat_le other.now.held other.now.most) service result }
    {
        if !other.is_kept() {
            return None;
        }
        greatest(self.room(amount))
    }
}

impl GovernorShare {
    // The raise side and the lower side of a row.
    fn sides(&self, row: &Row) -> (Side, Side)
        ensures raise { result.0.most ≡ self.now.raise }
        ensures raises { result.0.held ≡ raises_of row.now }
        ensures lower { result.1.most ≡ self.now.lower }
        ensures lowers { result.1.held ≡ lowers_of row.now }
    {
        let (raises, lowers) = row.amounts.split_at(5);
        (Side::new(self.raise, raises), Side::new(self.lower, lowers))
    }
}

impl PlantLimit for GovernorShare {
    ghost allowed = { share_allows };

    ghost lowering = { λ plant row s a l h. share_lowering plant row s a l h };

    fn allows(&self, row: &Row) -> bool {
        let (raise, lower) = self.sides(row);
        raise.is_kept() & lower.is_kept()
    }

    fn most(&self, row: &Row, service: u8) -> Option<u32> {
        let amount = row.amounts.get(usize::from(service)).copied()?;
        let (raise, lower) = self.sides(row);
        if service < 5 {
            raise.greatest_beside(&lower, amount)
        } else {
            lower.greatest_beside(&raise, amount)
        }
    }
}
