ghost use Rattle.std.specs.Prelude.{◌≡◌, ◌≤◌, length};
ghost use Rattle.hash_hmac.specs.Bytes.{padded as padded_bytes, xor_all};

/// The bytes, and zeros up to the length of the array.
pub(crate) fn padded<const N: usize>(bytes: &[u8]) -> [u8; N]
    requires { length bytes.now ≤ N }
    ensures { result ≡ padded_bytes N bytes.now }
{
    let mut all = [0u8; N];
    for i in 0..bytes.len() {
        all[i] = bytes[i];
    }
    all
}

/// Each byte of a block, combined with one byte by exclusive or.
pub(crate) fn xored<const N: usize>(block: &[u8; N], byte: u8) -> [u8; N]
    ensures { result ≡ xor_all byte block.now }
{
    let mut combined = [0u8; N];
    for i in 0..N {
        combined[i] = block[i] ^ byte;
    }
    combined
}
