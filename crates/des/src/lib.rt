// DES of a block, by the blocks of key bits of a key: the iterations, between IP and its inverse. It deciphers by the same blocks from the
// last to the first.
#![tactic(auto)]

ghost use Rattle.std.specs.Prelude.{◌≡◌};
ghost use Rattle.fips46.specs.Fips46.{f, halves, whole, iteration, iterations, interchanged, computed};

use fips46::Halves;

// One iteration.
fn iterate(h: Halves, k: u64) -> Halves
    ensures { result ≡ iteration f h k }
{
    Halves {
        left: h.right,
        right: h.left ^ cipherfunction::f(h.right, k),
    }
}

// An iteration with each block of key bits, from the first on.
pub fn onward(ks: &[u64], h: Halves) -> Halves
    ensures { result ≡ iterations f ks.now h }
{
    let mut x = h;
    for k in ks {
        x = iterate(x, *k);
    }
    x
}

// A word as L and R.
pub fn parted(w: u64) -> Halves
    ensures { result ≡ halves w }
{
    Halves {
        left: (w >> 32) as u32,
        right: (w % 0x1_0000_0000) as u32,
    }
}

// "a final interchange of blocks"
pub fn interchange(h: Halves) -> Halves
    ensures { result ≡ interchanged h }
{
    Halves {
        left: h.right,
        right: h.left,
    }
}

// The preoutput block.
pub fn preoutput(h: Halves) -> u64
    ensures { result ≡ whole (interchanged h) }
{
    (h.right as u64) * 0x1_0000_0000 + h.left as u64
}

// The whole computation.
pub fn computed_by(ks: &[u64], w: u64) -> u64
    ensures { result ≡ computed ks.now w }
{
    permutations::inverse(preoutput(onward(ks, parted(permutations::initial(w)))))
}
