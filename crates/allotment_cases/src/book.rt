// The bids of a case, in book order, and the credit limits of its counterparties.

// Rates and amounts of 640 places: those of counterparty k, from 0 on, begin at 10 k, and its limit is the one at k.
#[derive(Clone, Copy)]
pub struct Bids {
    pub rates: [u32; 640],
    pub amounts: [u64; 640],
    pub limits: [u64; 64],
}

impl Bids {
    // A book without bids.
    pub fn none() -> Bids {
        Bids {
            rates: [0u32; 640],
            amounts: [0u64; 640],
            limits: [0u64; 64],
        }
    }

    // The same bids and one more, at a place that the book has.
    pub fn bid(self, place: usize, rate: u32, amount: u64) -> Bids {
        if 640 <= place {
            return self;
        }
        let mut rates = self.rates;
        let mut amounts = self.amounts;
        let limits = self.limits;
        rates[place] = rate;
        amounts[place] = amount;
        Bids {
            rates,
            amounts,
            limits,
        }
    }

    // The same bids with a limit of counterparty k, where the book has it.
    pub fn limit(self, k: usize, cap: u64) -> Bids {
        if 64 <= k {
            return self;
        }
        let rates = self.rates;
        let amounts = self.amounts;
        let mut limits = self.limits;
        limits[k] = cap;
        Bids {
            rates,
            amounts,
            limits,
        }
    }

    // A bid of one amount at every place, at rates that rise in book order by 0.01 percent.
    pub fn at_rising_rates(amount: u64) -> Bids {
        let mut rates = [0u32; 640];
        for (i, rate) in rates.iter_mut().enumerate() {
            *rate = (i as u32 + 1) * 1000;
        }
        Bids {
            rates,
            amounts: [amount; 640],
            limits: [0u64; 64],
        }
    }
}
