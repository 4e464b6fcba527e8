//! Tests of what no run of the program shows: trees, the system's files and sinks, and instances of what is proved for all.
#![tactic(auto)]

// what is expected
#[cfg(test)]
mod expected;

// trees that are compared, copied and spelled
#[cfg(test)]
mod trees;

// files and sinks of the system
#[cfg(test)]
mod system;

// least sets, logs, summaries of blocks, runs over numbers, and searches
#[cfg(test)]
mod block_summaries;
#[cfg(test)]
mod entry_logs;
#[cfg(test)]
mod known_links;
#[cfg(test)]
mod least_sets;
#[cfg(test)]
mod resumed_runs;
