// Which pairs of formats a translation may go between, restricted and not.
#![tactic(auto)]

ghost use Rattle.std.specs.Prelude.{◌≡◌};
ghost use Rattle.restriction.specs.Restriction.{restricted_pair, permitted};

use formats::Format;

fn restricted_pair(from: Format, to: Format) -> bool
    ensures { result ≡ restricted_pair from to }
{
    match from {
        Format::F01 | Format::F47 => to.is_01_or_47(),
        Format::F05 => to.is_01_or_47() || matches!(to, Format::F05),
        Format::F03 | Format::F34 | Format::F35 => false,
    }
}

pub fn may(restricted: bool, from: Format, to: Format) -> bool
    ensures { result ≡ permitted restricted from to }
{
    !restricted || restricted_pair(from, to)
}
