//! Joins, copies and addresses by worked examples.
use crate::{JoinFault, Pair, Value, array_of, join, read_address, read_network};
use lt_bytes::{List, NoMemory, Text};
use std::alloc::Global;
use std::process::Abort;

// An array as `KEY=TEXT,TEXT`: pairs with and without keys.
fn pairs(alloc: Global, spelled: &[u8]) -> Result<List<Pair>, NoMemory> {
    let mut pairs = List::new(alloc);
    for word in spelled.split(|byte| *byte == b',') {
        pairs.push(pair(alloc, word)?)?;
    }
    Ok(pairs)
}

fn pair(alloc: Global, word: &[u8]) -> Result<Pair, NoMemory> {
    let mut parts = word.split(|byte| *byte == b'=');
    let first = parts.next().unwrap_or(b"");
    match parts.next() {
        Some(text) => Ok(Pair {
            key: Some(Text::from_bytes(alloc, first)?),
            value: Value::Text(Text::from_bytes(alloc, text)?),
        }),
        None => Ok(Pair {
            key: None,
            value: Value::Text(Text::from_bytes(alloc, first)?),
        }),
    }
}

fn spell(out: &mut Text, value: &Value) -> Result<(), NoMemory> {
    match value {
        Value::Array(pairs) => {
            for pair in pairs.as_slice() {
                if !out.is_empty() {
                    out.push(b',')?;
                }
                if let Some(key) = &pair.key {
                    out.push_all(key.bytes())?;
                    out.push(b'=')?;
                }
                if let Value::Text(text) = &pair.value {
                    out.push_all(text.bytes())?;
                }
            }
            Ok(())
        }
        Value::Text(text) => out.push_all(text.bytes()),
        Value::Number(_) => Ok(()),
    }
}

fn joins(alloc: Global, a: &[u8], b: &[u8], expected: &[u8]) -> Result<bool, JoinFault> {
    let a = Value::Array(array_of(alloc, pairs(alloc, a)?)?);
    let b = Value::Array(pairs(alloc, b)?);
    let joined = join(alloc, a, b)?.copy(alloc)?;
    let mut out = Text::new(alloc);
    spell(&mut out, &joined)?;
    Ok(out.bytes() == expected)
}

fn array(rt: &impl Abort, alloc: Global, a: &[u8], b: &[u8], expected: &[u8]) {
    assert!(rt; joins(alloc, a, b, expected) == Ok(true));
}

#[test]
fn a_key_that_is_there_gets_the_new_value_in_its_place(rt: HostRuntime) {
    let alloc = rt.alloc();
    array(&rt, alloc, b"a=1,b=2", b"b=3,c=4", b"a=1,b=3,c=4");
    array(&rt, alloc, b"a=1,a=2,b=3", b"a=4,b=5", b"a=4,b=5");
    array(&rt, alloc, b"x,x", b"x,a=1,x", b"x,x,x,a=1,x");
    array(
        &rt,
        alloc,
        b"a=1,b=2,x",
        b"c=1,c=2,x,b=3,d=1,e=1,f=1,a=4,d=5,a=6",
        b"a=6,b=3,x,c=2,x,d=5,e=1,f=1",
    );
}

fn sum(alloc: Global, a: i64, b: i64) -> Option<i64> {
    match join(alloc, Value::Number(a), Value::Number(b)) {
        Ok(Value::Number(sum)) => Some(sum),
        _ => None,
    }
}

#[test]
fn a_sum_is_refused_where_it_passes_64_bits(rt: HostRuntime) {
    let alloc = rt.alloc();
    assert!(&rt; sum(alloc, 4095, 1) == Some(4096));
    assert!(&rt; sum(alloc, i64::MAX - 1, 1) == Some(i64::MAX));
    assert!(&rt; sum(alloc, i64::MAX, 1).is_none());
    assert!(&rt; sum(alloc, i64::MIN, -1).is_none());
    assert!(&rt;
        matches!(
            join(alloc, Value::Number(1), Value::Text(Text::new(alloc))),
            Err(JoinFault::Mixed)
        )
    );
}

#[test]
fn addresses_have_four_numbers_without_leading_zeros(rt: HostRuntime) {
    assert!(&rt; read_address(b"127.0.0.1") == Some([127, 0, 0, 1]));
    assert!(&rt; read_address(b"255.255.255.255") == Some([255, 255, 255, 255]));
    for text in b"256.0.0.1 1.2.3 1.2.3.4.5 01.2.3.4 1.2.3. 1.2.3.4/8 a.b.c.d".split(|byte| *byte
        == b' ')
    {
        assert!(&rt; read_address(text).is_none());
    }
}

#[test]
fn a_network_has_0_to_32_bits(rt: HostRuntime) {
    assert!(&rt; matches!(read_network(b"10.0.0.0/8"), Some(network) if network.bits == 8));
    assert!(&rt; matches!(read_network(b"10.0.0.1"), Some(network) if network.bits == 32));
    assert!(&rt; read_network(b"10.0.0.0/32").is_some());
    for text in b"10.0.0.0/33 10.0.0.0/08 10.0.0.0/ 10.0.0/8 10.0.0.0/8/8".split(|byte| *byte
        == b' ')
    {
        assert!(&rt; read_network(text).is_none());
    }
}
