//! Worked examples of values and ports, each a test: lists and lines, sources, sinks and gates in memory, and files that are read by
//! lines.
//!
//! Each test names public calls alone, so that the crates below are proved without tests. Below it stand std, `knit_base`,
//! `line_cutter` and `knit_ports`. What a report of the program shows is tested on the program.
#![tactic(auto)]

#[cfg(test)]
mod tests;
