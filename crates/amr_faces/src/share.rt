//! How much of a cell's mass flows out of it in a step.

ghost use Rattle.std.specs.Prelude.{◌≡◌, ℕ, length, slice_index, ◌+◌, ◌*◌, ◌/◌, ◌^◌, ◌<◌, ◌≤◌, IsTrue, unsigned_abs};
ghost use Rattle.amr_def.specs.Flux.{flow};
ghost use Rattle.amr_faces.specs.Shares.{AreBelow, AreFactors, AreSmall, IsNearReciprocal, IsReciprocal, product, share_of};

/// 2 to the 41: a share of a mass below 2^31 is exact if the number has so many binary places.
const PLACES: u64 = 2199023255552;
/// 2 to the 31.
const WHOLE: u64 = 2147483648;
/// 2 to the 32.
const DOUBLE: u64 = 4294967296;
/// 2 to the 10.
const REST: u64 = 1024;

/// What flows out of a cell in a step at a Courant number `c / d` from -1 to 1: the cell's mass times `|c| / d`,
/// rounded down. The division is made once, for the number. A mass is multiplied by `|c| / d` with 41 binary places,
/// rounded up, which gives the same for each mass below 2^31. (Granlund and Montgomery, "Division by invariant integers
/// using multiplication", 1994.) The places stand in two numbers, so that each product fits 64 bits.
///
/// For masses below a limit 31 places do, and one product. There is no limit where `d` is a power of two.
#[derive(Clone, Copy, Debug)]
pub struct Share {
    /// The Courant number times `parts`.
    pub number: i32,
    /// What the Courant number's parts are: 1 to 1024 parts of 1.
    pub parts: u32,
    whole: u32,
    rest: u32,
    near: u32,
    /// Below which masses one product gives the share.
    pub limit: u32,
    pub ghost some: { 0 < parts },
    pub ghost slow: { unsigned_abs number ≤ parts },
    ghost reciprocal: { IsReciprocal number parts whole rest },
    ghost near_reciprocal: { IsNearReciprocal number parts near limit },
}

/// What the masses at the two sides of a face are multiplied by, where one product gives each share: 0 at the side that nothing
/// flows out of.
#[derive(Clone, Copy, Debug)]
pub struct Factors {
    pub low: u32,
    pub high: u32,
}

/// Below which masses a product with 31 places gives the share, where these are `error` too great, times `d * 2^31`.
#[tactic(auto, using(crate::proofs::Reciprocals::limit_fits))]
fn limit_of(error: u64) -> u32
    ensures { result * error ≤ 2 ^ 31 }
{
    if error == 0 {
        return WHOLE as u32;
    }
    (WHOLE / error) as u32
}

/// A mass times a number with 31 places.
#[inline(always)]
#[tactic(auto, using(crate::proofs::Reciprocals::product_fits, crate::proofs::Reciprocals::product_small))]
fn product(places: u32, mass: u32) -> u32
    requires few { places ≤ 2 ^ 31 }
    requires small { mass < 2 ^ 31 }
    ensures value { result ≡ product places mass }
    ensures small { result < 2 ^ 31 }
{
    (u64::from(mass + mass) * u64::from(places) / DOUBLE) as u32
}

impl Factors {
    ghost use Rattle.std.specs.Prelude.{◌-ℤ◌, pos};
    ghost use Rattle.amr_faces.specs.Shares.{product};

    /// The flux through a face between cells of these values.
    #[inline(always)]
    pub fn flow(self, low: u32, high: u32) -> i32
        requires low_few { self.low ≤ 2 ^ 31 }
        requires high_few { self.high ≤ 2 ^ 31 }
        requires low_small { low < 2 ^ 31 }
        requires high_small { high < 2 ^ 31 }
        ensures { result ≡ pos (product self.low low) -ℤ pos (product self.high high) }
    {
        product(self.low, low) as i32 - product(self.high, high) as i32
    }
}

/// Whether each of these masses is below a limit, or not below 2^31. Where the limit is 2^31, none is looked at.
pub fn are_near(limit: u32, masses: &[u32]) -> bool
    ensures { IsTrue result → (k : ℕ) → k < length masses.now → slice_index masses.now k < 2 ^ 31 → slice_index masses.now k < limit }
{
    if limit == WHOLE as u32 {
        return true;
    }
    let mut most = 0;
    for k in 0..masses.len() {
        most = masses[k].max(most);
    }
    most < limit
}

impl Share {
    /// The share at Courant number `number / parts`.
    #[tactic(auto, using(crate::proofs::Reciprocals::places, crate::proofs::Reciprocals::near_places))]
    pub fn make(number: i32, parts: u32) -> Share
        requires some { 0 < parts }
        requires few { parts ≤ 1024 }
        requires slow { unsigned_abs number ≤ parts }
        ensures number { result.number ≡ number }
        ensures parts { result.parts ≡ parts }
    {
        let d = u64::from(parts);
        let size = u64::from(number.unsigned_abs());
        let places = (size * PLACES + (d - 1)) / d;
        let near = (size * WHOLE + (d - 1)) / d;
        Share {
            number,
            parts,
            whole: (places / REST) as u32,
            rest: (places % REST) as u32,
            near: near as u32,
            limit: limit_of(near * d - size * WHOLE),
        }
    }

    /// The share at Courant number `number / parts`, with no division if this is it.
    pub fn with(self, number: i32, parts: u32) -> Share
        requires some { 0 < parts }
        requires few { parts ≤ 1024 }
        requires slow { unsigned_abs number ≤ parts }
        ensures number { result.number ≡ number }
        ensures parts { result.parts ≡ parts }
    {
        if number != self.number {
            return Share::make(number, parts);
        }
        if parts != self.parts {
            return Share::make(number, parts);
        }
        self
    }

    /// The factors by which one product gives each share of masses below the limit.
    #[tactic(auto, using(crate::proofs::Reciprocals::factors_ahead, crate::proofs::Reciprocals::factors_back))]
    pub fn factors(&self) -> Factors
        ensures { AreFactors self.now.number self.now.parts self.now.limit result.low result.high }
    {
        if self.number < 0 {
            Factors {
                low: 0,
                high: self.near,
            }
        } else {
            Factors {
                low: self.near,
                high: 0,
            }
        }
    }

    /// Whether one product gives the shares of all these masses. Where there is no limit, none is looked at.
    #[tactic(auto, using(crate::proofs::Reciprocals::below_limit))]
    pub fn is_near(&self, masses: &[u32]) -> bool
        requires { AreSmall masses.now }
        ensures { IsTrue result → AreBelow self.now.limit masses.now }
    {
        are_near(self.limit, masses)
    }

    /// The size of the flow out of a cell of this mass, by one product.
    #[inline(always)]
    #[tactic(auto, using(crate::proofs::Reciprocals::exact_near, crate::proofs::Reciprocals::product_fits))]
    pub fn near_size(&self, mass: u32) -> u32
        requires small { mass < 2 ^ 31 }
        requires near { mass < self.now.limit }
        ensures value { result ≡ share_of self.now.number self.now.parts mass }
        ensures bound { result ≤ mass }
    {
        product(self.near, mass)
    }

    /// The size of the flow out of a cell of this mass.
    #[inline(always)]
    #[tactic(auto, using(crate::proofs::Reciprocals::exact))]
    pub fn size(&self, mass: u32) -> u32
        requires small { mass < 2 ^ 31 }
        ensures value { result ≡ share_of self.now.number self.now.parts mass }
        ensures bound { result ≤ mass }
    {
        let mass = u64::from(mass);
        ((mass * u64::from(self.whole) + mass * u64::from(self.rest) / REST) / WHOLE) as u32
    }

    /// The same, by one product if that is said to do.
    #[inline(always)]
    pub fn size_by(&self, by_one: bool, mass: u32) -> u32
        requires small { mass < 2 ^ 31 }
        requires near { IsTrue by_one → mass < self.now.limit }
        ensures value { result ≡ share_of self.now.number self.now.parts mass }
        ensures bound { result ≤ mass }
    {
        if by_one {
            self.near_size(mass)
        } else {
            self.size(mass)
        }
    }

    /// The flux through a face between cells of these values, above 0 from the low side to the high one.
    #[inline(always)]
    pub fn flow(&self, low: u32, high: u32) -> i32
        requires low_small { low < 2 ^ 31 }
        requires high_small { high < 2 ^ 31 }
        ensures value { result ≡ flow self.now.number self.now.parts low high }
        ensures small { unsigned_abs result < 2147483648 }
    {
        if self.number < 0 {
            -(self.size(high) as i32)
        } else {
            self.size(low) as i32
        }
    }
}
