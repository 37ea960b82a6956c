//! Numbers below a limit that seats draw, each number once.
//!
//! `Claims` is a counter that threads share, and a `ClaimSeat` is what a thread draws with. A layer above may rely on this:
//! no number is given twice, and at the close each number below the limit and below the word that it answers was drawn; where a
//! seat met the end, that is each number below the limit. No call waits, and only `Claims::new` takes memory.
#![tactic(auto)]

mod claims;
mod plays;
mod seat;
#[cfg(test)]
mod tests;
mod view;

pub use claims::Claims;
pub use seat::ClaimSeat;
