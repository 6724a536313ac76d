ghost use Rattle.std.specs.Prelude.{◌≡◌, ◌++◌};

/// The secret of two draws.
pub(crate) fn secret_of(one: [u8; 16], two: [u8; 16]) -> [u8; 32]
    ensures { result ≡ one ++ two }
{
    let mut secret = [0u8; 32];
    let (front, back) = secret.split_at_mut(16);
    front.copy_from_slice(&one);
    back.copy_from_slice(&two);
    secret
}
