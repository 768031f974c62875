//! Trials of what stands on the wire: texts, blocks, times, APDUs, frames and streams of bytes.
#![tactic(auto)]

#[cfg(test)]
mod blocks;
#[cfg(test)]
mod ends;
#[cfg(test)]
mod frames;
#[cfg(test)]
mod streams;
#[cfg(test)]
mod texts;
#[cfg(test)]
mod times;
#[cfg(test)]
mod units;
