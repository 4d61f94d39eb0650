// The regulator of a flow: a token bucket by value. Rests on laws.
#![tactic(auto)]

ghost use Rattle.std.specs.Prelude.{◌≡◌, ◌+◌, ◌<◌, ◌≤◌};
ghost use Rattle.bucket.specs.Regulator.{after_spend, after_count, bucket_fits};
ghost use Rattle.bucket.specs.Passed.{after_cycles};
ghost use Rattle.bucket.specs.Curve.{curve};

#[derive(Clone, Copy, Debug, PartialEq, Eq)]
pub struct Bucket {
    pub tokens: u32,
    pub count: u32,
}

impl Bucket {
    // The bucket after an entry.
    pub fn spend(self) -> Bucket
        requires { 1 ≤ self.tokens }
        ensures { result ≡ after_spend self }
    {
        Bucket {
            tokens: self.tokens - 1,
            ..self
        }
    }

    // The bucket after the counter has run for a cycle. At the period it returns to 0 and gives a token, lost if the bucket is full.
    #[tactic(auto, unfolding(crate::specs::Regulator::after_count))]
    pub fn count(self, burst: u32, period: u32) -> Bucket
        requires { self.count < period }
        ensures { result ≡ after_count burst period self }
    {
        let next = self.count + 1;
        if next == period {
            let tokens = if self.tokens < burst {
                self.tokens + 1
            } else {
                self.tokens
            };
            Bucket { tokens, count: 0 }
        } else {
            Bucket {
                count: next,
                ..self
            }
        }
    }

    // The bucket after k cycles without an entry.
    #[tactic(auto, unfolding(crate::specs::Passed::after_cycles))]
    pub fn pass(self, burst: u32, period: u32, k: u32) -> Bucket
        requires { 1 ≤ period }
        ensures { result ≡ after_cycles burst period k self }
    {
        let period = u64::from(period);
        let ran = u64::from(self.count) + u64::from(k);
        let tokens = u64::from(self.tokens) + ran / period;
        Bucket {
            tokens: tokens.min(u64::from(burst)) as u32,
            count: (ran % period) as u32,
        }
    }

    // What words that form a state have of a bucket.
    #[tactic(auto, unfolding(crate::specs::Regulator::bucket_fits))]
    pub fn fits(self, burst: u32, period: u32) -> bool
        ensures { result ≡ bucket_fits burst period self }
    {
        self.tokens <= burst && self.count < period
    }
}

// The most entries of a flow in d + 1 neighbouring cycles: its curve.
#[tactic(auto, using(crate::proofs::Curve::curve_by_div))]
pub fn most_entries(burst: u32, period: u32, d: u32) -> u32
    requires { (1 ≤ period) × (burst + d < 4294967296) }
    ensures { result ≡ curve burst period d }
{
    burst + d.div_ceil(period)
}
