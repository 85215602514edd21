// A block of eight bytes as a word of 64 bits, and back: the first byte is the highest.
#![tactic(auto)]

ghost use Rattle.std.specs.Prelude.{◌≡◌, ◌++◌, ◌≤◌, length, take, drop};
ghost use Rattle.words.specs.Words.{spelled, in_bytes};

// The word of eight bytes.
pub fn word_of(block: &[u8]) -> u64
    requires { length block.now ≡ 8 }
    ensures { result ≡ spelled block.now }
{
    u64::from_be_bytes(<[u8; 8]>::try_from(block).unwrap())
}

// Writes the first n of the eight bytes of a word over the beginning of the output.
pub fn put_bytes(w: u64, n: usize, out: &mut [u8])
    requires { (n ≤ 8) × (n ≤ length out.old) }
    ensures { out.new ≡ take n (in_bytes 8 w) ++ drop n out.old }
{
    out[..n].copy_from_slice(&w.to_be_bytes()[..n]);
}
