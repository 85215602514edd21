// Triple DES of a block, by the blocks of key bits of three keys. IP and its inverse, which would fall away between the three, are made
// once.
#![tactic(auto)]

ghost use Rattle.std.specs.Prelude.{◌≡◌};
ghost use Rattle.fips46.specs.Fips46.{computed};

// Computes by the first, by the second, by the third. Who enciphers gives the second from the last block to the first; who deciphers
// begins with the third key, and gives that and the first so.
pub fn computed_by(k1: &[u64], k2: &[u64], k3: &[u64], w: u64) -> u64
    ensures { result ≡ computed k3.now (computed k2.now (computed k1.now w)) }
{
    let start = des::parted(permutations::initial(w));
    let first = des::interchange(des::onward(k1, start));
    let second = des::interchange(des::onward(k2, first));
    permutations::inverse(des::preoutput(des::onward(k3, second)))
}
