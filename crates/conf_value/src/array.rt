//! Arrays that are built pair by pair.
ghost use Rattle.std.specs.Prelude.{◌≡◌, ◌<◌, ◌+◌, ◌∷◌, [], drop, OnOk, OnErr, IfOk, IfSome, Some, length, position};
ghost use Rattle.conf_value.specs.declared.value.Pair.{out-Pair};
ghost use Rattle.conf_value.specs.Joining.{has_key, place_of, with_pair, with_pairs};
ghost use Rattle.conf_value.specs.Places.{ArePlaces};

use crate::places::Places;
use crate::{Pair, Value};
use lt_bytes::{List, NoMemory};
use std::alloc::Global;

/// An array literal of these pairs. Each takes the place of the first pair with its key, or comes last.
pub fn array_of(alloc: Global, pairs: List<Pair>) -> Result<List<Pair>, NoMemory>
    ensures { IfOk result (λ array. array ≡ with_pairs [] pairs) }
{
    with_pairs(alloc, List::new(alloc), pairs)
}

/// Up to so many pairs are added by a look at each pair that is there; more are looked up by their keys.
const FEW: usize = 8;

/// An array and the pairs of another, one after another.
pub fn with_pairs(
    alloc: Global,
    pairs: List<Pair>,
    more: List<Pair>,
) -> Result<List<Pair>, NoMemory>
    ensures { IfOk result (λ all. all ≡ with_pairs pairs more) }
{
    if more.len() <= FEW {
        with_few(pairs, more)
    } else {
        with_many(alloc, pairs, more)
    }
}

fn with_few(mut pairs: List<Pair>, mut more: List<Pair>) -> Result<List<Pair>, NoMemory>
    ensures { IfOk result (λ all. all ≡ with_pairs pairs more) }
{
    for at in 0..more.len() {
        let pair = take_out(&mut more, at);
        add_pair(&mut pairs, pair)?;
    }
    Ok(pairs)
}

fn with_many(
    alloc: Global,
    mut pairs: List<Pair>,
    mut more: List<Pair>,
) -> Result<List<Pair>, NoMemory>
    ensures { IfOk result (λ all. all ≡ with_pairs pairs more) }
{
    let mut places = Places::of(alloc, pairs.as_slice())?;
    for at in 0..more.len() {
        let pair = take_out(&mut more, at);
        add_by(alloc, &mut pairs, &mut places, pair)?;
    }
    Ok(pairs)
}

/// Takes the pair at a place out of its array.
fn take_out(pairs: &mut List<Pair>, at: usize) -> Pair
    requires { at < length pairs.old }
    ensures first { drop at pairs.old ≡ result ∷ drop (at + 1) pairs.new }
    ensures length { length pairs.new ≡ length pairs.old }
{
    pairs.replace(at, nothing())
}

/// What stands in the place of a pair that was taken.
fn nothing() -> Pair {
    Pair {
        key: None,
        value: Value::Number(0),
    }
}

/// Adds a pair to an array whose places are known.
fn add_by(
    alloc: Global,
    pairs: &mut List<Pair>,
    places: &mut Places,
    pair: Pair,
) -> Result<(), NoMemory>
    requires { ArePlaces pairs.old places.old }
    ensures pairs { OnOk result (pairs.new ≡ with_pair pairs.old pair) }
    ensures places { OnOk result (ArePlaces pairs.new places.new) }
{
    match places.get(&pair) {
        Some(place) => {
            let _first = pairs.replace(place, pair);
            Ok(())
        }
        None => {
            places.note(alloc, &pair, pairs.len())?;
            pairs.push(pair)
        }
    }
}

/// Adds a pair to an array: in the place of the first pair with its key, else at the end.
pub fn add_pair(pairs: &mut List<Pair>, pair: Pair) -> Result<(), NoMemory>
    ensures ok { OnOk result (pairs.new ≡ with_pair pairs.old pair) }
    ensures err { OnErr result (pairs.new ≡ pairs.old) }
{
    match place_of(pairs.as_slice(), &pair) {
        Some(place) => {
            let _first = pairs.replace(place, pair);
            Ok(())
        }
        None => pairs.push(pair),
    }
}

/// Where the first pair with the key of this one stands.
fn place_of(pairs: &[Pair], pair: &Pair) -> Option<usize>
    ensures place { result ≡ place_of pairs.now (out-Pair pair.now).key }
    ensures within { IfSome result (λ at. at < length pairs.now) }
{
    match &pair.key {
        Some(key) => first_with(pairs, key.bytes()),
        None => None,
    }
}

fn first_with(pairs: &[Pair], key: &[u8]) -> Option<usize>
    ensures place { result ≡ position (has_key key.now) pairs.now }
    ensures within { IfSome result (λ at. at < length pairs.now) }
{
    pairs.iter().position(|pair| has_key(pair, key))
}

fn has_key(pair: &Pair, key: &[u8]) -> bool
    ensures { result ≡ has_key key.now pair.now }
{
    match &pair.key {
        Some(own) => own.bytes() == key,
        None => false,
    }
}
