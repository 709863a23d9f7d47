//! Outside values of each function, and each call once with ample memory.
use lt_bytes::{
    List, NoMemory, Number, Text, decimal, laws, lower, quoted, read_decimal, read_hex, same_word,
    trim,
};
use std::alloc::{AllocError, Global};
use std::test::Fail;

// Whether digits are read as these numbers.
fn reads(digits: &[u8], decimal: Number, hexadecimal: Number) -> bool {
    read_decimal(digits) == decimal && read_hex(digits) == hexadecimal
}

#[test]
fn digits_are_read_as_numbers(rt: HostRuntime) {
    let none = Number::NotANumber;
    let most = Number::Value(u64::MAX);
    assert!(rt; reads(b"", none, none));
    assert!(rt; reads(b"0", Number::Value(0), Number::Value(0)));
    assert!(rt; reads(b"0042", Number::Value(42), Number::Value(66)));
    assert!(rt; reads(b"ff", none, Number::Value(255)));
    assert!(rt; reads(b"FFFFFFFFFFFFFFFF", none, most));
    assert!(rt; reads(b"18446744073709551615", most, Number::Overflow));
    assert!(rt; reads(b"18446744073709551616", Number::Overflow, Number::Overflow));
    assert!(rt; reads(b"99999999999999999999x", none, none));
    assert!(rt; reads(b"+1", none, none));
    assert!(rt; reads(b"g", none, none));
    assert_eq!(rt; read_hex(b"10000000000000000"), Number::Overflow);
    assert_eq!(rt;
        read_decimal(b"10000000000000000"),
        Number::Value(10_000_000_000_000_000)
    );
}

#[test]
fn numbers_and_bytes_are_spelled(rt: HostRuntime) {
    assert_eq!(rt; decimal(0).bytes(), b"0".as_slice());
    assert_eq!(rt; decimal(10).bytes(), b"10".as_slice());
    assert_eq!(rt;
        decimal(u64::MAX).bytes(),
        b"18446744073709551615".as_slice()
    );
    assert_eq!(rt; quoted(b' ').bytes(), b" ".as_slice());
    assert_eq!(rt; quoted(b'~').bytes(), b"~".as_slice());
    assert_eq!(rt; quoted(b'"').bytes(), b"\\\"".as_slice());
    assert_eq!(rt; quoted(b'\\').bytes(), b"\\\\".as_slice());
    assert_eq!(rt; quoted(b'\r').bytes(), b"\\r".as_slice());
    assert_eq!(rt; quoted(b'\n').bytes(), b"\\n".as_slice());
    assert_eq!(rt; quoted(b'\t').bytes(), b"\\x09".as_slice());
    assert_eq!(rt; quoted(0x7f).bytes(), b"\\x7f".as_slice());
    assert_eq!(rt; quoted(0xff).bytes(), b"\\xff".as_slice());
}

#[test]
fn case_and_blanks_are_passed_over(rt: HostRuntime) {
    assert_eq!(rt;
        (lower(b'A'), lower(b'Z'), lower(b'['), lower(0xc4)),
        (b'a', b'z', b'[', 0xc4)
    );
    assert!(rt; same_word(b"Keep-Alive", b"keep-alive"));
    assert!(rt; !same_word(b"close", b"closed"));
    assert!(rt; same_word(b"", b""));
    assert_eq!(rt; trim(b" \t a b \t"), b"a b".as_slice());
    assert_eq!(rt; trim(b" \t "), b"".as_slice());
    assert_eq!(rt; trim(b"\ra\n"), b"\ra\n".as_slice());
}

#[test]
fn texts_and_lists_keep_their_order(rt: HostRuntime) -> Result<(), Fail> {
    let mut text = Text::new(rt.alloc());
    assert!(rt; text.is_empty());
    assert_eq!(rt; Text::with_capacity(rt.alloc(), 256)?, text);
    text.push_all(b"a\x00")?;
    text.push(0xff)?;
    assert_eq!(rt; text.bytes(), b"a\x00\xff".as_slice());
    assert_eq!(rt; text, Text::from_bytes(rt.alloc(), b"a\x00\xff")?);
    assert_eq!(rt; text.len(), 3);

    let mut list = List::new(rt.alloc());
    assert!(rt; list.is_empty());
    list.push(7u8)?;
    list.push(8)?;
    assert_eq!(rt; list.len(), 2);
    assert_eq!(rt; list.replace(0, 9), 7);
    let mut sum: u32 = 0;
    for item in list.iter() {
        sum = sum.saturating_add(u32::from(*item));
    }
    assert_eq!(rt; sum, 17);
    assert_eq!(rt; list.iter().filter(|item| **item > 8).count(), 1);
    assert_eq!(rt; list.as_slice(), [9, 8].as_slice());
    assert_eq!(rt;
        (list.get(1).copied(), list.get(2).copied()),
        (Some(8), None)
    );
    assert_eq!(rt;
        (list.pop(), list.pop(), list.pop()),
        (Some(8), Some(9), None)
    );
    Ok(())
}

/// A type that leads back to itself, as a configuration value does.
#[derive(Debug, Drop)]
enum Tree {
    Leaf(Text),
    Branch(List<Tree>),
}

fn leaf(alloc: Global, bytes: &[u8]) -> Result<Tree, NoMemory> {
    Ok(Tree::Leaf(Text::from_bytes(alloc, bytes)?))
}

fn leaves(tree: &Tree) -> u64 {
    match tree {
        Tree::Leaf(_) => 1,
        Tree::Branch(trees) => {
            let mut count: u64 = 0;
            for tree in trees.as_slice() {
                count = count.saturating_add(leaves(tree));
            }
            count
        }
    }
}

#[test]
fn a_type_leads_back_to_itself_through_a_list(rt: HostRuntime) -> Result<(), Fail> {
    let mut inner = List::new(rt.alloc());
    inner.push(leaf(rt.alloc(), b"a")?)?;
    inner.push(leaf(rt.alloc(), b"b")?)?;
    let mut outer = List::new(rt.alloc());
    outer.push(Tree::Branch(inner))?;
    outer.push(leaf(rt.alloc(), b"c")?)?;
    assert_eq!(rt; leaves(&Tree::Branch(outer)), 3);
    Ok(())
}

fn pushed(numbers: &mut Vec<u8>) -> Result<(), NoMemory> {
    numbers.push(1)?;
    Ok(())
}

#[test]
fn want_of_memory_has_a_text(rt: HostRuntime) -> Result<(), Fail> {
    let failure = NoMemory::from(AllocError);
    assert_eq!(rt; failure.to_string(rt.alloc())?.as_str(), "out of memory");
    let mut numbers = Vec::new(rt.alloc());
    assert_eq!(rt; pushed(&mut numbers), Ok(()));
    laws::digits_are_read_back();
    laws::quoted_bytes_are_read_back();
    laws::quoted_texts_are_read_in_one_way();
    laws::blanks_alone_are_trimmed();
    Ok(())
}
