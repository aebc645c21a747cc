// Books in which every place holds a bid of fifteen digits.
use crate::book::Bids;
use crate::line::summed;
use announcement::Side;
use std::io;

const WIDEST: u64 = 999_999_999_999_999;

// The amount of 320 bids and five cents.
const HALF: u64 = 319_999_999_999_999_685;

// One bid's amount shared by 640; then at 640 rates an offer that the best bid meets, and one that half of them nearly do.
pub fn full_books(rt: &impl Print) -> io::Result<()> {
    let level = Bids {
        rates: [120000u32; 640],
        amounts: [WIDEST; 640],
        limits: [0u64; 64],
    };
    let rising = Bids::at_rising_rates(WIDEST);
    summed(rt, b"one rate", Side::Lp, 120000, WIDEST, level)?;
    summed(rt, b"640 rates LP", Side::Lp, 0, WIDEST, rising)?;
    summed(rt, b"320 rates LA", Side::La, 640000, HALF, rising)
}
