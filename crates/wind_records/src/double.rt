// An f64 by its 64 bits, and the wind that it becomes.
ghost use Rattle.std.specs.Prelude.{◌≡◌, T, is_ok, IfOk, IsOkUnless};
ghost use Rattle.std.specs.Float.{binary64};
ghost use Rattle.std.specs.Float.Ieee.{to_bits, of_bits};
ghost use Rattle.rules.specs.WindRecords.{exponent, finite};
ghost use Rattle.wind_records.specs.Records.{capped_size, capped_wind};

use rules::Refusal;

// 2^63, the highest bit; 2^52, the leading 1 of a fraction of 52 bits.
const SIGN: u64 = 1 << 63;

const LEADING: u64 = 1 << 52;

// The eleven bits of the exponent.
fn exponent(bits: u64) -> u64
    ensures { result ≡ exponent bits }
{
    bits % SIGN / LEADING
}

// The f64 of these bits, unless it is infinite or no number.
#[tactic(auto, using(crate::proofs::DoubleLaws::no_nan_bits, crate::proofs::DoubleLaws::same_bits))]
pub fn of_bits(bits: u64) -> Result<f64, Refusal>
    ensures finite { is_ok result ≡ finite bits }
    ensures value { IfOk result (λ x. (x ≡ of_bits binary64 bits) × (to_bits binary64 x ≡ bits)) }
    ensures refusal { IsOkUnless result Refusal.NotFinite }
{
    if exponent(bits) == 2047 {
        return Err(Refusal::NotFinite);
    }
    Ok(f64::from_bits(bits))
}

// The size of the wind that an f64 of these bits becomes, or 4096 where it is larger. From exponent 1023 on the f64 is 1 or more; below
// exponent 1010 it is less than 2^-13, so 4096 times it is less than a half; in between the fraction after its leading 1 is divided.
#[tactic(auto, using(crate::proofs::DoubleLaws::high, crate::proofs::DoubleLaws::low, crate::proofs::DoubleLaws::middle, crate::proofs::DoubleLaws::shifted))]
fn wind_size(bits: u64) -> u64
    ensures { result ≡ capped_size bits }
{
    match exponent(bits) {
        1023.. => 4096,
        ..1010 => 0,
        e => whole::nearest(LEADING + bits % LEADING, 1 << (1063 - e)),
    }
}

// A leaf: the wind that a finite f64 becomes; a size above 4096 becomes 4096.
#[tactic(auto, using(crate::proofs::DoubleLaws::capped_small, crate::proofs::DoubleLaws::no_nan), unfolding(crate::specs::Records::capped_wind))]
pub fn face_wind(x: f64) -> i16
    requires { T (finite (to_bits binary64 x)) }
    ensures { result ≡ capped_wind (to_bits binary64 x) }
{
    let bits = x.to_bits();
    // By `as`: std has no `From` from u64 to i16, and Rattle proves that nothing is lost, so that a `try_from` would add an unwrap that can never fail.
    let size = wind_size(bits) as i16;
    if SIGN <= bits { -size } else { size }
}
