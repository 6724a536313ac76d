//! The labels of a COSE key on a curve (RFC 9052, section 7; RFC 9053, section 7.1.1), and the numbers beside them.

ghost use Rattle.std.specs.Prelude.{◌≡◌};
ghost use Rattle.key_codec.specs.Key.{is_curve as is_known_curve};

/// The label of the key's type.
pub(crate) const FAMILY: i64 = 1;

/// The type of keys on a curve.
pub(crate) const EC2: i64 = 2;

/// The label of the curve.
pub(crate) const CURVE: i64 = -1;

/// The labels of the point's coordinates.
pub(crate) const X: i64 = -2;

pub(crate) const Y: i64 = -3;

/// Whether a number is that of a curve: P-256 or P-384.
pub(crate) fn is_curve(curve: i64) -> bool
    ensures { result ≡ is_known_curve curve }
{
    matches!(curve, 1 | 2)
}
