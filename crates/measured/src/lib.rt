// For measuring only: one share and one allotment, on numbers that a benchmark in C gives.
#![tactic(auto)]

use allotment::internal::allot;
use announcement::Side;
use bids::BidColumns;
use division::internal::divide;
use offer::Offer;
use places::{Amount, Rate};

// What stands for no marginal rate: the first number past every rate.
const NO_RATE: u64 = 4294967296;

// What stands for a refusal by condition 16.
const EXCEEDS: u64 = 4294967297;

// What stands for a slice with fewer than 640 elements, or fewer than 64 limits.
const SHORT: u64 = 4294967298;

// The share a times m by e, for measuring only; 0 where the division does not take these numbers.
#[unsafe(no_mangle)]
pub extern "C" fn measured_share(a: u64, m: u64, e: u64) -> u64 {
    if e <= m {
        return 0;
    }
    if 1_000_000_000_000_000_000 <= e {
        return 0;
    }
    divide(Amount(a), Amount(m), Amount(e)).quotient.0
}

// The side that a flag in C stands for.
fn side_of(lp: bool) -> Side {
    if lp { Side::Lp } else { Side::La }
}

// Allots to 640 places with 64 limits, writes the awards, zeros where condition 16 refuses, and gives the marginal rate or one of the numbers above, for measuring only.
#[unsafe(no_mangle)]
pub extern "C" fn measured_allot(
    lp: bool,
    limit: u32,
    offered: u64,
    limits: &[u64],
    rates: &[u32],
    amounts: &[u64],
    awards: &mut [u64],
) -> u64 {
    if limits.len() < 64 {
        return SHORT;
    }
    if rates.len() < 640 {
        return SHORT;
    }
    if amounts.len() < 640 {
        return SHORT;
    }
    if awards.len() < 640 {
        return SHORT;
    }
    let o = Offer {
        side: side_of(lp),
        limit: Rate(limit),
        offered: Amount(offered),
    };
    let bids = BidColumns {
        rates: &rates[..640],
        amounts: &amounts[..640],
    };
    match allot(o, &limits[..64], bids, &mut awards[..640]) {
        Ok(Some(rate)) => rate.0 as u64,
        Ok(None) => NO_RATE,
        Err(_) => {
            // The benchmark expects zeros for awards that were refused.
            awards.fill(0);
            EXCEEDS
        }
    }
}
