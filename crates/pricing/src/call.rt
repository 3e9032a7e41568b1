// The call `price`.
ghost use Rattle.std.specs.Prelude.{◌≡◌};
ghost use Rattle.std.proofs.Math.Option.{get_or};
ghost use Rattle.model.specs.View.{view_of};
ghost use Rattle.model.specs.Plan.{number12};
ghost use Rattle.pricing.specs.Calls.{IsPriced};

use crate::slots::fill;
use backward::Walk;
use counts::Counts;
use layout::place;
use lent::tested_for;
use model::Sheet;
use refusals::Refusal;
use value::Value;

// What pricing answers: its number, how many queues there are, and the price from the empty queue at slot 0. Request [2] fixes it, for
// refusals too.
#[derive(Clone, Copy)]
pub struct PriceAnswer {
    pub number: u32,
    pub queues: u32,
    pub price: u64,
}

// What is answered where the prices are filled: 12 where the empty queue has none.
fn priced(queues: u32, price: Value) -> PriceAnswer
    ensures { (result.number ≡ number12 price) × (result.queues ≡ queues) × (result.price ≡ get_or price 0) }
{
    match price.number() {
        Some(price) => PriceAnswer {
            number: 0,
            queues,
            price,
        },
        None => PriceAnswer {
            number: Refusal::NoWay.number(),
            queues,
            price: 0,
        },
    }
}

// Prices a lent plan: T+1 rows of prices, in lent memory.
pub fn price(sheet: Sheet, values: &mut [u64], plan: &[u8]) -> PriceAnswer
    ensures { IsPriced (view_of sheet) plan.now values.old values.new
        result.number result.queues result.price }
{
    let counts = Counts::new();
    match tested_for(&counts, sheet, values.len(), plan.len()) {
        Ok(tested) => {
            let queues = tested.sizes.queues;
            let walk = Walk { tested: &tested };
            fill(&counts, &walk, values, plan);
            priced(queues as u32, value::load(values, place(queues, 0, 0)))
        }
        Err(refusal) => PriceAnswer {
            number: refusal.number(),
            queues: 0,
            price: 0,
        },
    }
}
