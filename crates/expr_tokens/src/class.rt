//! Runs of bytes of one class.

ghost use Rattle.std.specs.Prelude.{◌≡◌, ◌≤◌, length};
ghost use Rattle.expr_tokens.specs.Class.{GoesPast, holds, front_of, behind};

#[derive(Clone, Copy, Debug, PartialEq, Eq)]
pub enum Class {
    Letter,
    Digit,
    Name,
    Quoted,
    Blank,
}

/// Whether the byte is of the class.
pub fn is_of(class: Class, b: u8) -> bool
    ensures { result ≡ holds class b }
{
    match class {
        Class::Letter => b'a' <= b && b <= b'z',
        Class::Digit => b'0' <= b && b <= b'9',
        Class::Name => b'a' <= b && b <= b'z' || b'0' <= b && b <= b'9' || b == b'_',
        Class::Quoted => b' ' <= b && b <= b'~' && b != b'"',
        Class::Blank => b == b' ' || b == b'\t' || b == b'\n' || b == b'\r',
    }
}

/// The bytes in front that are of the class, and those from the first on that isn't.
pub fn split(class: Class, bytes: &[u8]) -> (&[u8], &[u8])
    ensures front { result.0.now ≡ front_of (holds class) bytes.now }
    ensures rest { result.1.now ≡ behind (holds class) bytes.now }
    ensures progress { GoesPast class bytes.now result.1.now }
    ensures shorter { length result.1.now ≤ length bytes.now }
{
    for (i, b) in bytes.iter().enumerate() {
        if !is_of(class, *b) {
            return bytes.split_at(i);
        }
    }
    bytes.split_at(bytes.len())
}
