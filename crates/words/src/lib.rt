// Values as eight bytes, low byte first.
#![tactic(auto)]

ghost use Rattle.std.specs.Prelude.{◌≡◌, ◌*◌, ◌≤◌, length, take};
ghost use Rattle.words.specs.Words.{little_endian, words};

// The value of the first eight bytes.
pub fn word(bytes: &[u8]) -> u64
    requires { 8 ≤ length bytes.now }
    ensures { result ≡ little_endian (take 8 bytes.now) }
{
    let first = bytes.first_chunk::<8>().unwrap();
    u64::from_le_bytes(*first)
}

// The values of the bytes, eight bytes each, into `out`.
pub fn decode(bytes: &[u8], out: &mut [u64])
    requires { length bytes.now ≡ 8 * length out.old }
    ensures { out.new ≡ words (length out.old) bytes.now }
{
    // Kept: nothing is known after a loop over `out.iter_mut().zip(bytes.chunks_exact(8))`, so i is the place.
    for (i, value) in out.iter_mut().enumerate() {
        *value = word(&bytes[8 * i..]);
    }
}
