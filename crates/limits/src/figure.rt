// The figures of a row.
ghost use Rattle.std.specs.Prelude.{◌≡◌, ℕ, ◌<◌, true};
ghost use Rattle.fcas.specs.Service.{service_number};
ghost use Rattle.limits.specs.Figure.{AllFigures, DeadFigure, FigureAt, no_figure, Probed};
ghost use Rattle.limits.specs.Limit.{limit_by, limit_number};
ghost use Rattle.limits.specs.Narrowing.{Held, exceeded_with};

use crate::limit::{Limit, is_allowed};
use crate::narrowing::Best;
use crate::plant::PlantLimit;
use crate::row::CheckedRow;
use crate::terms::CheckedTerms;
use fcas::{Kind, NO_POWER, SERVICES, Service};

// How much of a service can be given, and the limit that holds it down, by its ground and the service that it is named by.
// The rules make the record of three numbers (docs/RULES.md): an enum of limits and grounds would have to hold the unit's kind to say by which.
#[derive(Clone, Copy, Debug, PartialEq, Eq, Default)]
pub struct Figure {
    pub figure: u32,
    pub ground: u8,
    pub by: u8,
}

impl Figure {
    // The record of a live service.
    fn live(best: Best, kind: Kind) -> Figure
        ensures figure { result.figure ≡ best.most }
        ensures ground { result.ground ≡ limit_number best.limit }
        ensures by { result.by ≡ limit_by kind best.limit }
    {
        Figure {
            figure: best.most,
            ground: best.limit.number(),
            by: best.limit.by(kind),
        }
    }

    // The record of a service that is not live.
    fn dead(terms: &CheckedTerms, service: Service) -> Figure
        ensures { DeadFigure terms.now.terms (service_number service) result }
    {
        let number = service.number();
        Figure {
            figure: 0,
            ground: terms
                .offer(number)
                .kept_out
                .map_or(0, |ground| ground.number()),
            by: number,
        }
    }
}

// The terms, the row and the plant stay three parameters: in a struct of references a clause would have to look behind two of them to say a row.
// The figure of a live service at a row, whatever its amount there; nothing where the service is not live or not even 0 is borne.
pub fn probe<P: PlantLimit>(
    terms: &CheckedTerms,
    row: &CheckedRow,
    plant: &P,
    service: Service,
) -> Option<Figure>
    ensures value { Probed (P.PlantLimit.allowed plant.now) terms.now.terms row.now.row (service_number service) result }
{
    let number = service.number();
    if !terms.offer(number).is_live() {
        return None;
    }
    let without = row.with_amount(service, NO_POWER);
    let best = terms.least(&without, service)?;
    let most = plant.most(&without.row, number)?;
    Some(Figure::live(best.narrowed(Some(most), Limit::Plant), terms.terms.kind))
}

// The record of one service of a borne row.
fn settle<P: PlantLimit>(
    terms: &CheckedTerms,
    row: &CheckedRow,
    plant: &P,
    service: Service,
    best: Best,
) -> Figure
    requires held { Held (exceeded_with terms.now.terms row.now.row (service_number service)) 32 best }
    requires allowed { P.PlantLimit.allowed plant.now row.now.row ≡ true }
    ensures { FigureAt (P.PlantLimit.allowed plant.now) terms.now.terms row.now.row (service_number service) result }
{
    let number = service.number();
    if !terms.offer(number).is_live() {
        return Figure::dead(terms, service);
    }
    match plant.most(&row.row, number) {
        Some(most) => Figure::live(best.narrowed(Some(most), Limit::Plant), terms.terms.kind),
        None => unreachable(),
    }
}

// The records of all ten services of a row, worked out together; nothing where the row is not borne.
pub fn figures<P: PlantLimit>(
    terms: &CheckedTerms,
    row: &CheckedRow,
    plant: &P,
) -> Option<[Figure; 10]>
    ensures value { AllFigures (P.PlantLimit.allowed plant.now) terms.now.terms row.now.row result }
{
    let best = terms.least_of_all(row)?;
    if !is_allowed(plant, row) {
        return None;
    }
    let mut table = [Figure::default(); 10];
    for service in &SERVICES {
        let place = service.number() as usize;
        table[place] = settle(terms, row, plant, *service, best[place]);
    }
    Some(table)
}
