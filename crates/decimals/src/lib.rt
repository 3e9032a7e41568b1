// A number in decimal, put into a sink (decimal), and the line that is written for a refusal (refusal).
#![tactic(auto)]

mod decimal;
mod refusal;

pub use decimal::{put_decimal, put_with_text};
pub use refusal::put_refused;
