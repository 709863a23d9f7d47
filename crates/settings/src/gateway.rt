//! Gateways, lent from the configuration.
ghost use Rattle.std.specs.Prelude.{◌≡◌, ◌==◌, ◌∷◌, [], length, map, slice_get, option_map};
ghost use Rattle.std.specs.Option.{option_copied, unwrap_or};
ghost use Rattle.conf_value.specs.declared.value.Pair.{out-Pair};
ghost use Rattle.settings.specs.Gateways as spec;
ghost use Rattle.settings.specs.Used.{form_seen, gateways_seen, hosts_seen};

use crate::host::{Host, host_in, host_of, is_one};
use crate::value::pairs_in;
use conf_value::Pair;

/// The entries of a gateway value.
#[derive(Clone, Copy)]
pub struct Gateways<'a> {
    pub(crate) first_list: u32,
    pub(crate) entries: &'a [Pair],
}

/// An entry of a gateway value: which requests it takes, and the hosts that they are handed on to.
#[derive(Clone, Copy)]
pub struct Hosts<'a> {
    /// The beginning of a path, with `/` at its front, or the end of one.
    pub key: &'a [u8],
    /// The number of this list of hosts among those of the whole configuration.
    pub list: u64,
    pub(crate) form: Form<'a>,
}

/// How a list of hosts is written.
#[derive(Clone, Copy)]
pub(crate) enum Form<'a> {
    /// The pairs are those of the one host.
    One(&'a [Pair]),
    /// The value of each pair is a host.
    Many(&'a [Pair]),
}

impl<'a> Gateways<'a> {
    /// How many entries there are.
    #[tactic(auto, using(crate::proofs::Listed::lists_length))]
    pub fn len(&self) -> usize
        ensures { result ≡ length (gateways_seen self.now) }
    {
        self.entries.len()
    }

    pub fn is_empty(&self) -> bool
        ensures { result ≡ (length (gateways_seen self.now) == 0) }
    {
        self.len() == 0
    }

    /// An entry, by its number.
    pub fn get(&self, at: usize) -> Option<Hosts<'a>>
        ensures { option_map hosts_seen result ≡ slice_get (gateways_seen self.now) at }
    {
        let entries = self.entries;
        match pair_at(entries, at) {
            Some(pair) => Some(hosts_in(self.first_list as u64 + at as u64, pair)),
            None => None,
        }
    }
}

fn pair_at(entries: &[Pair], at: usize) -> Option<&Pair>
    ensures { option_copied result ≡ slice_get entries.now at }
{
    entries.get(at)
}

fn hosts_in(list: u64, pair: &Pair) -> Hosts<'_>
    ensures { hosts_seen result ≡ spec.host_list list pair.now }
{
    Hosts {
        key: key_in(pair),
        list,
        form: form_of(pairs_in(&pair.value)),
    }
}

fn key_in(pair: &Pair) -> &[u8]
    ensures { result.now ≡ unwrap_or (out-Pair pair.now).key [] }
{
    match &pair.key {
        Some(key) => key.bytes(),
        None => b"",
    }
}

fn form_of(pairs: &[Pair]) -> Form<'_>
    ensures { form_seen result ≡ spec.hosts_of pairs.now }
{
    if is_one(pairs) {
        Form::One(pairs)
    } else {
        Form::Many(pairs)
    }
}

impl Hosts<'_> {
    /// How many hosts there are.
    pub fn len(&self) -> usize
        ensures { result ≡ length (form_seen self.now.form) }
    {
        match self.form {
            Form::One(_) => 1,
            Form::Many(pairs) => pairs.len(),
        }
    }

    pub fn is_empty(&self) -> bool
        ensures { result ≡ (length (form_seen self.now.form) == 0) }
    {
        self.len() == 0
    }

    /// A host, by its number.
    pub fn get(&self, at: usize) -> Option<Host>
        ensures { result ≡ slice_get (form_seen self.now.form) at }
    {
        match self.form {
            Form::One(pairs) => one(pairs, at),
            Form::Many(pairs) => many(pairs, at),
        }
    }
}

fn one(pairs: &[Pair], at: usize) -> Option<Host>
    ensures { result ≡ slice_get (spec.host_of pairs.now ∷ []) at }
{
    if at == 0 { Some(host_of(pairs)) } else { None }
}

fn many(pairs: &[Pair], at: usize) -> Option<Host>
    ensures { result ≡ slice_get (map spec.host_in pairs.now) at }
{
    match pairs.get(at) {
        Some(pair) => Some(host_in(pair)),
        None => None,
    }
}
