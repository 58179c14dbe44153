//! Tests of rn_report by example: how messages are shown.
#![tactic(auto)]

#[cfg(test)]
mod messages;
#[cfg(test)]
mod shown_lines;
