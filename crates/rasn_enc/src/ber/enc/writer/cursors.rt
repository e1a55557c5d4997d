//! Places in rendered octets, without rendering them.
ghost use Rattle.std.specs.Prelude.{◌≡◌, ◌≤◌, ◌+◌, ◌-◌, ◌++◌, ◌∷◌, [], length, take, drop, suc, MatchOption};
ghost use Rattle.rasn_enc.specs.Buffer.DeferredHeaders.{rendered, Rising};
ghost use Rattle.rasn_enc.specs.Order.{octets_less};
ghost use Rattle.rasn_enc.specs.Buffer.Cursors.{ahead, Placed, Away};

use crate::ber::enc::writer::deferred_headers::DeferredHeader;
use crate::ber::enc::writer::header_rest::HeaderRest;

/// A place in rendered octets: in `rest`, which remains of a deferred header from `inside` on, and
/// then in the gathered octets from `at` on, with the deferred headers from number `first` on.
#[derive(Clone, Copy, Drop)]
pub struct Cursor {
    pub rest: HeaderRest,
    pub inside: usize,
    pub at: usize,
    pub first: usize,
}

/// Returns the place after the first `n` octets of a list of `total` octets. It searches from the
/// end of the list.
pub fn place(
    gathered: &[u8],
    headers: &[DeferredHeader],
    start: usize,
    total: usize,
    n: usize,
) -> Cursor
    requires rising { Rising start headers.now (length gathered.now) }
    requires measured { total ≡ length (rendered gathered.now start headers.now) }
    requires within { n ≤ total }
    ensures placed { Placed gathered.now headers.now result }
    ensures rest { ahead gathered.now headers.now result ≡ drop n (rendered gathered.now start headers.now) }
{
    let mut at = gathered.len();
    let mut k = headers.len();
    let mut back = total - n;
    while k > 0 {
        let header = headers[k - 1];
        let run = at - header.at;
        if back <= run {
            return Cursor {
                rest: HeaderRest::new(),
                inside: 0,
                at: at - back,
                first: k,
            };
        }
        let own = header.rest.len();
        if back - run <= own {
            return Cursor {
                rest: header.rest,
                inside: own - (back - run),
                at: header.at,
                first: k,
            };
        }
        back = back - run - own;
        at = header.at;
        k -= 1;
    }
    Cursor {
        rest: HeaderRest::new(),
        inside: 0,
        at: at - back,
        first: 0,
    }
}

/// Returns the octets of deferred header number `k` if its place is `at`.
fn header_here(headers: &[DeferredHeader], k: usize, at: usize) -> Option<HeaderRest>
    requires { k ≤ length headers.now }
    ensures { MatchOption result (Away at (drop k headers.now)) (λ r. drop k headers.now ≡ record { at = at; rest = r } ∷ drop (suc k) headers.now) }
{
    if k < headers.len() {
        let header = headers[k];
        if header.at == at {
            return Some(header.rest);
        }
    }
    None
}

/// Returns the octet at a place and the place after it, or `None` at the end.
fn next(gathered: &[u8], headers: &[DeferredHeader], cursor: Cursor) -> Option<(u8, Cursor)>
    requires { Placed gathered.now headers.now cursor }
    ensures { MatchOption result (ahead gathered.now headers.now cursor ≡ []) (λ p. (ahead gathered.now headers.now cursor ≡ p.0 ∷ ahead gathered.now headers.now p.1) × Placed gathered.now headers.now p.1) }
{
    let mut here = cursor;
    loop {
        let rest = here.rest.as_slice();
        if here.inside < rest.len() {
            let octet = rest[here.inside];
            let more = Cursor {
                rest: here.rest,
                inside: here.inside + 1,
                at: here.at,
                first: here.first,
            };
            return Some((octet, more));
        }
        match header_here(headers, here.first, here.at) {
            Some(rest) => {
                here = Cursor {
                    rest,
                    inside: 0,
                    at: here.at,
                    first: here.first + 1,
                };
            }
            None => {
                if here.at < gathered.len() {
                    let octet = gathered[here.at];
                    let more = Cursor {
                        rest: HeaderRest::new(),
                        inside: 0,
                        at: here.at + 1,
                        first: here.first,
                    };
                    return Some((octet, more));
                }
                return None;
            }
        }
    }
}

/// Returns whether the octets from `left` on are less than the first `n` octets from `right` on.
pub fn rendered_before(
    gathered: &[u8],
    headers: &[DeferredHeader],
    left: Cursor,
    right: Cursor,
    n: usize,
) -> bool
    requires left { Placed gathered.now headers.now left }
    requires right { Placed gathered.now headers.now right }
    ensures { result ≡ octets_less (ahead gathered.now headers.now left) (take n (ahead gathered.now headers.now right)) }
{
    let mut a = left;
    let mut b = right;
    let mut count = n;
    while count > 0 {
        match next(gathered, headers, b) {
            None => return false,
            Some((y, more)) => match next(gathered, headers, a) {
                None => return true,
                Some((x, rest)) => {
                    if x < y {
                        return true;
                    }
                    if x != y {
                        return false;
                    }
                    a = rest;
                    b = more;
                    count -= 1;
                }
            },
        }
    }
    false
}
