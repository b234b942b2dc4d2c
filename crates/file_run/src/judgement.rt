//! What is made of a file.

use carriage_model::{Facts, Verdict};
use knit_base::Text;

/// The verdict on a file, and the loops made, where these were asked for.
#[derive(Drop)]
pub struct Judgement {
    pub verdict: Verdict,
    pub loops: Option<Facts>,
}

/// What one carriage makes of a file, the line that broke a rule, if one did, and what took the readings of the lines.
#[derive(Drop)]
pub struct Run<T> {
    pub judgement: Judgement,
    pub broken: Option<Text>,
    pub taker: T,
}
