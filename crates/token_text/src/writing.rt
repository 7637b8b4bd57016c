ghost use Rattle.std.specs.Prelude.{◌≡◌, ◌+◌, ◌≤◌, ◌++◌, length};
ghost use Rattle.std.specs.Fmt.{signed_decimal};
ghost use Rattle.token_text.specs.Texts.{begun_text, dir_text, token_text};

use arrayvec::ArrayVec;
use itoa::Buffer;
use moment_core::{Dir, Pos};
use span_core::Token;

/// The most bytes that the text of a token has.
pub const LONGEST_TOKEN: usize = 67;

/// The text of a token.
pub type TokenText = ArrayVec<u8, 67>;

fn dir_name(dir: Dir) -> &'static [u8]
    ensures value { result.now ≡ dir_text dir }
    ensures len { length result.now ≡ 4 }
{
    match dir {
        Dir::Fore => b"fore",
        Dir::Back => b"back",
    }
}

fn put(text: &mut TokenText, bytes: &[u8])
    requires { length text.old.items + length bytes.now ≤ 67 }
    ensures bytes { text.new.items ≡ text.old.items ++ bytes.now }
    ensures len { length text.new.items ≡ length text.old.items + length bytes.now }
{
    text.try_extend_from_slice(bytes).unwrap();
}

fn put_position(text: &mut TokenText, position: Pos)
    requires { length text.old.items + 20 ≤ 67 }
    ensures bytes { text.new.items ≡ text.old.items ++ signed_decimal position.0 }
    ensures len { length text.new.items ≤ length text.old.items + 20 }
{
    let mut buffer = Buffer::new();
    put(text, buffer.format(position.0).as_bytes());
}

fn put_begun(text: &mut TokenText, begun: Option<Pos>)
    requires { length text.old.items + 20 ≤ 67 }
    ensures bytes { text.new.items ≡ text.old.items ++ begun_text begun }
    ensures len { length text.new.items ≤ length text.old.items + 20 }
{
    match begun {
        None => put(text, b"-"),
        Some(position) => put_position(text, position),
    }
}

/// The text of a token: its direction, its place, the first position of the run in which it stands
/// or `-`, and its end.
pub fn write_token(token: Token) -> TokenText
    ensures value { result.items ≡ token_text token }
    ensures short { length result.items ≤ LONGEST_TOKEN }
{
    let mut text = ArrayVec::new();
    put(&mut text, dir_name(token.dir));
    put(&mut text, b":");
    put_position(&mut text, token.place);
    put(&mut text, b":");
    put_begun(&mut text, token.begun);
    put(&mut text, b":");
    put_position(&mut text, token.end);
    text
}
