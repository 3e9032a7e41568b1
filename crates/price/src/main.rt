// The pricing program: reads a sheet from standard input and writes what the old rule costs on it, beside the least energy, and the rule's
// plan; or `refused n`, as the planning program does. It is thin: what it calls is proved, and it only lends the memory.
#![tactic(auto)]

ghost use Rattle.std.specs.Prelude.{ℕ, ◌≤◌, List, length};

use console::{Stop, accepted, end, listing, read_sheet};
use decimals::put_with_text;
use pricing::PriceAnswer;
use sinks::{Lent, Sink};
use std::io;

// Where the first line of a text ends: the place of its line feed.
fn line_end(text: &[u8]) -> usize
    ensures { result ≤ length text.now }
{
    let feed = text.iter().position(|&byte| byte == b'\n');
    feed.unwrap_or(text.len())
}

// Puts what the rule costs, or the word `none` where it may fail. It takes at most 26 bytes: a word with a space on either side, and a number
// of at most 20 digits.
fn put_price<S: Sink>(sink: &mut S, priced: PriceAnswer)
    requires { S.HasRoom sink.old 26 }
    ensures { (put : List ℕ) × (length put ≤ 26) × S.Puts sink.old put sink.new }
{
    match priced.number {
        0 => put_with_text(sink, b" rule ", priced.price),
        _ => sink.put(b" rule none"),
    }
}

// Writes a listing, with what the rule costs at the end of its first line, all at once.
fn print_priced(rt: &impl Print, listed: &[u8], priced: PriceAnswer) -> io::Result<()>
    requires { length listed.now ≤ 40000 }
{
    let mut text = [0u8; 40026];
    let mut lent = Lent {
        buffer: &mut text,
        at: 0,
    };
    let (first, others) = listed.split_at(line_end(listed));
    lent.put(first);
    put_price(&mut lent, priced);
    lent.put(others);
    let length = lent.at;
    rt.write_all(&text[..length])
}

// Plans a sheet, for its least energy; prices the rule's plan over the planner's values, and lists it. Pricing tests what the planner has
// tested, with as much memory: so its number is 0, or 12 where the rule may fail. 40,000 bytes are enough for a listing, as they are for the
// planning program.
fn print_price(rt: &(impl Input + Alloc + Print)) -> Result<(), Stop> {
    let sheet = read_sheet(rt)?;
    let mut values = [0u64; 8000];
    let mut plan = [0u8; 60000];
    let answer = planner::plan(sheet, &mut values, &mut plan);
    accepted(answer.number)?;
    let mut rule_plan = [0u8; 60000];
    let ruled = old_rule::rule(sheet, &mut rule_plan);
    accepted(ruled.number)?;
    let priced = pricing::price(sheet, &mut values, &rule_plan);
    let mut text = [0u8; 40000];
    let listed = listing(sheet, answer.least, &rule_plan, &mut text)?;
    print_priced(rt, listed, priced)?;
    Ok(())
}

fn main(rt: HostRuntime) -> io::Result<()> {
    end(&rt, print_price(&rt))
}
