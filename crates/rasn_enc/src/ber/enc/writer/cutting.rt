//! Removing octets from the end of a list.
ghost use Rattle.std.specs.Prelude.{◌≤◌};
ghost use Rattle.rasn_enc.specs.Buffer.Cuts.{Sound, Cut};

use crate::ber::enc::writer::deferred_headers::DeferredHeader;

/// Cuts a list of `measured` octets to its first `count`. The list begins at `start`, with deferred
/// header number `first`.
pub fn cut(
    gathered: &mut Vec<u8>,
    headers: &mut Vec<DeferredHeader>,
    start: usize,
    first: usize,
    measured: usize,
    count: usize,
)
    requires sound { Sound gathered.old.items headers.old.items start first measured }
    requires within { count ≤ measured }
    ensures { Cut gathered.old.items headers.old.items start first count gathered.new.items headers.new.items }
{
    let mut left = measured - count;
    while first < headers.len() {
        let last = headers.len() - 1;
        let header = headers[last];
        let run = gathered.len() - header.at;
        if left <= run {
            gathered.truncate(gathered.len() - left);
            return;
        }
        gathered.truncate(header.at);
        left -= run;
        let own = header.rest.len();
        if left < own {
            let mut rest = header.rest;
            rest.truncate(own - left);
            headers[last] = DeferredHeader {
                at: header.at,
                rest,
            };
            return;
        }
        headers.truncate(last);
        left -= own;
    }
    gathered.truncate(gathered.len() - left);
}
