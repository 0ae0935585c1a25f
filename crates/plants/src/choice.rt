// A plant limit that is chosen as a program runs.
ghost use Rattle.plants.specs.Choice.{choice_allows};
ghost use Rattle.std.specs.Prelude.{refl};
ghost use Rattle.std.proofs.lemmas.Bool.{and_from, and_parts};
ghost use Rattle.plants.specs.ConnectionCap.{cap_allows};
ghost use Rattle.plants.specs.GovernorShare.{share_allows};
ghost use Rattle.plants.specs.declared.choice.PlantChoice.TheVariants.{Bare, Cap, Share, CapAndShare};
ghost use Rattle.plants.specs.Flows.{cap_lowering};
ghost use Rattle.plants.specs.Shares.{share_lowering};

use crate::bare::Bare;
use crate::both::Both;
use crate::connection_cap::ConnectionCap;
use crate::governor_share::GovernorShare;
use limits::{PlantLimit, Row};

#[derive(Debug, Clone, Copy, PartialEq, Eq)]
pub enum PlantChoice {
    Bare(Bare),
    Cap(ConnectionCap),
    Share(GovernorShare),
    CapAndShare(Both<ConnectionCap, GovernorShare>),
}

impl PlantLimit for PlantChoice {
    ghost allowed = { choice_allows };

    ghost lowering = { elim [
      | Bare bare ↦ λ row s a l h. refl
      | Cap cap ↦ λ row s a l h. cap_lowering cap row s a l h
      | Share share ↦ λ row s a l h. share_lowering share row s a l h
      | CapAndShare both ↦
          λ row s a l h.
          let parts = and_parts (cap_allows both.0 row) (share_allows both.1 row) h in
          and_from _ _ (cap_lowering both.0 row s a l parts.0) (share_lowering both.1 row s a l parts.1)
    ] };

    // A `match` for each question: what they share could only be handed out as a `dyn`, which the rules forbid.
    fn allows(&self, row: &Row) -> bool {
        match self {
            PlantChoice::Bare(bare) => bare.allows(row),
            PlantChoice::Cap(cap) => cap.allows(row),
            PlantChoice::Share(share) => share.allows(row),
            PlantChoice::CapAndShare(both) => both.allows(row),
        }
    }

    fn most(&self, row: &Row, service: u8) -> Option<u32> {
        match self {
            PlantChoice::Bare(bare) => bare.most(row, service),
            PlantChoice::Cap(cap) => cap.most(row, service),
            PlantChoice::Share(share) => share.most(row, service),
            PlantChoice::CapAndShare(both) => both.most(row, service),
        }
    }
}
