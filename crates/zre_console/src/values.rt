//! A node's settings are values of their types. The functions only look: what they ensure is for proofs.

ghost use Rattle.std.specs.Prelude.{◌≡◌, true, All};
ghost use Rattle.zre_capture.specs.Heads.{IsHeader, AreSettings};
ghost use Rattle.zre_values.specs.Settings.{is_valid};

use zre_actor::values::{are_octets, is_address, is_id};
use zre_journal::Config;
use zre_values::{Octets, Pairs};

fn is_header(header: &(Octets, Octets))
    ensures { IsHeader header.now }
{
    are_octets(&header.0);
    are_octets(&header.1);
}

fn are_headers(headers: &Pairs)
    ensures { All IsHeader headers.now }
{
    for header in headers.as_slice() {
        is_header(header);
    }
}

/// Shows that valid settings are values of their types.
pub fn are_values(config: &Config)
    requires { is_valid config.now ≡ true }
    ensures { AreSettings config.now }
{
    is_id(&config.id);
    are_octets(&config.name);
    are_headers(&config.headers);
    is_address(&config.host);
    let _port = config.port;
}
