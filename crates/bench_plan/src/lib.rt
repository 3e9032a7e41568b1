// The planner as the benchmark's C program calls it (tests/bench): a static library of one function, which nothing else needs.
#![tactic(auto)]

ghost use Rattle.bench_plan.specs.Planned.{IsPlanned};

// Reads the bytes of a sheet and plans it in lent memory; answers the reader's number or, where that is 0, the planner's.
#[unsafe(no_mangle)]
pub extern "C" fn bench_plan(bytes: &[u8], values: &mut [u64], plan: &mut [u8]) -> u32
    ensures { IsPlanned bytes.now values.old plan.old values.new plan.new result }
{
    let read = reader::read(bytes);
    if read.number != 0 {
        return read.number;
    }
    let answer = planner::plan(read.sheet, values, plan);
    answer.number
}
