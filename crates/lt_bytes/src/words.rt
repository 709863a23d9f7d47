//! Words: letter case and the blanks around them.
ghost use Rattle.std.specs.Prelude.{◌≡◌, ◌↔◌, IsTrue};
ghost use Rattle.std.specs.Char.{to_ascii_lowercase};
ghost use Rattle.lt_bytes.specs.Words.{is_blank, lowered, same_word, after_blanks, before_blanks, trimmed};

/// The byte with an ASCII capital letter made small.
pub fn lower(byte: u8) -> u8
    ensures { result ≡ to_ascii_lowercase byte }
{
    byte.to_ascii_lowercase()
}

/// Whether two words are the same but for the case of ASCII letters.
pub fn same_word(a: &[u8], b: &[u8]) -> bool
    ensures value { result ≡ same_word a.now b.now }
    ensures meaning { IsTrue result ↔ (lowered a.now ≡ lowered b.now) }
{
    a.eq_ignore_ascii_case(b)
}

/// The bytes without the spaces and tabs at both ends.
pub fn trim(bytes: &[u8]) -> &[u8]
    ensures { result.now ≡ trimmed bytes.now }
{
    before_blanks(after_blanks(bytes))
}

fn is_blank(byte: u8) -> bool
    ensures { result ≡ is_blank byte }
{
    byte == b' ' || byte == b'\t'
}

fn after_blanks(bytes: &[u8]) -> &[u8]
    ensures { result.now ≡ after_blanks bytes.now }
{
    let mut rest = bytes;
    while let Some((first, others)) = rest.split_first() {
        if !is_blank(*first) {
            break;
        }
        rest = others;
    }
    rest
}

fn before_blanks(bytes: &[u8]) -> &[u8]
    ensures { result.now ≡ before_blanks bytes.now }
{
    let mut rest = bytes;
    while let Some((last, others)) = rest.split_last() {
        if !is_blank(*last) {
            break;
        }
        rest = others;
    }
    rest
}
