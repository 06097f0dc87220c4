// The constant of a record (01, "A constant is a whole number or a float, and the float keeps its bits": an enum decoded
// from Const or ConstF records, words 9 and 10, low half first). A float that is no number keeps its bits as they are.
ghost use Rattle.std.specs.Prelude.{◌≡◌};
ghost use Rattle.std.specs.Float.Ieee.{nan_bits};
ghost use Rattle.std.specs.Float.{binary64};
ghost use Rattle.inst.specs.Shown.{shown};
ghost use Rattle.inst.specs.Constant.{bits_of, signed, constant_of};

use crate::kinds::{CONST, CONST_F};
use crate::record::Record;

// 2^32, which the higher of two words counts.
const HIGH: u64 = 4294967296;

// 2^63, the sign of a float.
const SIGN: u64 = 9223372036854775808;

// 2^52, above a float's fraction, and the exponent of one that is no number.
const FRACTION: u64 = 4503599627370496;

const NO_NUMBER: u64 = 2047;

#[derive(Clone, Copy, PartialEq, Debug)]
pub enum Constant {
    Whole(i64),
    Float(f64),
    Nan(u64),
}

// The 64 bits of words 9 and 10.
#[tactic(auto, unfolding(crate::specs::Constant::bits_of))]
pub fn bits(rec: Record) -> u64
    ensures { result ≡ bits_of (shown rec.entry) }
{
    let low = rec.payload(0);
    let high = rec.payload(1);
    u64::from(low) + HIGH * u64::from(high)
}

// Are these the bits of a float that is no number? (`f64::from_bits` asks that they are not, so no float can be asked.)
pub fn is_nan(n: u64) -> bool
    ensures { result ≡ nan_bits binary64 n }
{
    (n % SIGN / FRACTION == NO_NUMBER) & (n % FRACTION != 0)
}

// The constant of a record, if it is one.
pub fn decode(rec: Record) -> Option<Constant>
    ensures { result ≡ constant_of (shown rec.entry) }
{
    let k = rec.kind();
    let n = bits(rec);
    if k == CONST {
        return Some(Constant::Whole(n.cast_signed()));
    }
    if k != CONST_F {
        return None;
    }
    if is_nan(n) {
        return Some(Constant::Nan(n));
    }
    Some(Constant::Float(f64::from_bits(n)))
}
