// What a whole sheet's numbers come to, and the two limits over them: 9, that a bound on every value fits, and 10, that the queues are not
// too many. All of it is for a sheet whose fields are in range (4 to 8), ranges::Ranged.
//
// A sheet is handed on by value: nothing here changes it. Places past the counts are never looked at.
#![tactic(auto)]

ghost use Rattle.std.specs.Prelude.{◌≡◌, ◌*◌, ◌^◌, leb};
ghost use Rattle.model.specs.View.{view_of, W, M, greatest_energy, G};
ghost use Rattle.model.specs.Refusal.{value_fits, limits_refusal, N, value_limit};
ghost use Rattle.refusals.specs.Numbers.{number_of};

use counts::Counts;
use queues::queue_count;
use ranges::Ranged;
use refusals::Refusal;

// The limit of number 9, 2^63 - 1: T times G times W to the power T, which no value exceeds, must be within it.
const VALUE_LIMIT: u64 = 9223372036854775807;

// The largest speed M and the greatest energy, which need not belong together.
#[derive(Clone, Copy)]
pub struct Greatest {
    pub speed: u32,
    pub energy: u32,
}

// Both, over all the speeds; the energy is 0 where all are 0.
#[tactic(auto, using(crate::proofs::Places::speeds_few))]
pub fn greatest_of(sheet: Ranged) -> Greatest
    ensures { (result.speed ≡ M (view_of sheet.sheet)) × (result.energy ≡ greatest_energy (view_of sheet.sheet)) }
{
    let mut greatest = Greatest {
        speed: 0,
        energy: 0,
    };
    for one in sheet.sheet.speeds() {
        greatest.speed = greatest.speed.max(one.speed);
        greatest.energy = greatest.energy.max(one.energy);
    }
    greatest
}

// G, the greatest energy, or 1 if that is 0.
fn greatest_or_one(sheet: Ranged) -> u32
    ensures { result ≡ G (view_of sheet.sheet) }
{
    greatest_of(sheet).energy.max(1)
}

// W, the sum of the weights.
#[tactic(auto, using(crate::proofs::Places::jobs_few))]
pub fn weights(sheet: Ranged) -> u32
    ensures { result ≡ W (view_of sheet.sheet) }
{
    sheet.sheet.jobs().iter().map(|one| one.weight).sum()
}

// Whether a number, multiplied so many times by another, stays within the limit. 0 does; of any other number, what leaves 64 bits on the way
// is past the limit.
fn product_fits(first: u64, by: u64, times: u32, limit: u64) -> bool
    ensures { result ≡ leb (first * by ^ times) limit }
{
    if first == 0 {
        return true;
    }
    by.checked_pow(times)
        .and_then(|power| power.checked_mul(first))
        .is_some_and(|product| product <= limit)
}

// Whether the factor times G times W to the power T stays within the limit, decided exactly.
fn value_fits(factor: u32, limit: u64, sheet: Ranged) -> bool
    ensures { result ≡ value_fits factor limit (view_of sheet.sheet) }
{
    let greatest = greatest_or_one(sheet);
    let weight_sum = weights(sheet);
    product_fits(
        factor as u64 * greatest as u64,
        weight_sum as u64,
        sheet.sheet.horizon,
        limit,
    )
}

// N, the number of bearable queues.
pub fn queues_of(counts: &Counts, sheet: Ranged) -> usize
    ensures { result ≡ N (view_of sheet.sheet) }
{
    let greatest = greatest_of(sheet);
    queue_count(counts, greatest.speed, sheet.sheet.bound as usize)
}

// 9 and 10.
#[tactic(auto, unfolding(model::specs::Refusal::limit_lines))]
pub fn limits_refusal(counts: &Counts, sheet: Ranged) -> Result<(), Refusal>
    ensures { number_of result ≡ limits_refusal value_limit (N (view_of sheet.sheet)) (view_of sheet.sheet) }
{
    if !value_fits(sheet.sheet.horizon, VALUE_LIMIT, sheet) {
        return Err(Refusal::Values);
    }
    if queues_of(counts, sheet) > 65535 {
        return Err(Refusal::Queues);
    }
    Ok(())
}
