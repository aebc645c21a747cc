// Bids in two columns.
ghost use Rattle.std.specs.Prelude.{◌≡◌, length};

// Rates and amounts side by side, as many of one as of the other.
#[derive(Clone, Copy)]
pub struct BidColumns<'a> {
    pub rates: &'a [u32],
    pub amounts: &'a [u64],
    ghost paired: { length rates.now ≡ length amounts.now },
}
