//! Which host is asked next.
ghost use Rattle.std.specs.Prelude.{◌≡◌, ◌<◌, length, position, not, IfSome};
ghost use Rattle.gate_hosts.specs.Choices as spec;

/// How the hosts of a gateway share its requests (lighttpd documentation, `fastcgi.balance` and `proxy.balance`).
#[derive(Clone, Copy, Debug, PartialEq, Eq)]
pub enum Policy {
    /// `fair`: the host with the fewest open links, the first of them on a tie.
    Fair,
    /// `round-robin`: the hosts in turn, from the list's position on.
    RoundRobin,
}

/// A host at its place in the list, with how many links to it are open.
#[derive(Clone, Copy, Debug, PartialEq, Eq)]
pub(crate) struct Host {
    place: usize,
    links: u32,
}

/// The place of the host that is asked next, among those that were not tried for this request. `links` has for each host how
/// many links to it are open, `next` is the list's position in its round. `None` where every host was tried.
pub fn choose(policy: Policy, next: usize, links: &[u32], tried: &[bool]) -> Option<usize>
    requires same { length links.now ≡ length tried.now }
    requires inside { next < length links.now }
    ensures choice { result ≡ spec.choice policy next links.now tried.now }
{
    match policy {
        Policy::Fair => match fewest(links, tried) {
            Some(host) => Some(host.place),
            None => None,
        },
        Policy::RoundRobin => first_from(next, tried),
    }
}

fn fewest(links: &[u32], tried: &[bool]) -> Option<Host>
    requires same { length links.now ≡ length tried.now }
    ensures { result ≡ spec.fewest_from 0 links.now tried.now }
{
    let mut best = None;
    for (place, links) in links.iter().enumerate() {
        let host = candidate(place, *links, tried[place]);
        best = better(best, host);
    }
    best
}

fn candidate(place: usize, links: u32, tried: bool) -> Option<Host>
    ensures { result ≡ spec.candidate place links tried }
{
    if tried {
        None
    } else {
        Some(Host { place, links })
    }
}

fn better(earlier: Option<Host>, later: Option<Host>) -> Option<Host>
    ensures { result ≡ spec.better earlier later }
{
    match (earlier, later) {
        (Some(a), Some(b)) if b.links < a.links => Some(b),
        (Some(a), _) => Some(a),
        (None, later) => later,
    }
}

fn first_from(next: usize, tried: &[bool]) -> Option<usize>
    requires inside { next < length tried.now }
    ensures { result ≡ spec.first_from next tried.now }
{
    let (before, behind) = tried.split_at(next);
    match first_untried(behind) {
        Some(steps) => Some(next + steps),
        None => first_untried(before),
    }
}

fn first_untried(tried: &[bool]) -> Option<usize>
    ensures first { result ≡ position not tried.now }
    ensures within { IfSome result (λ place. place < length tried.now) }
{
    tried.iter().position(|tried| !*tried)
}
