// What the bytes of a text say at a place: one of them, whether two parts are the same, whether a name is `true`, `fail` or `mode`, whether a variable
// is `_`, and which digits of a numeral count. A part of a text is given by the text, its first byte and its length, as in the definition `spelling`.

ghost use Rattle.std.specs.Prelude.{◌≡◌, ◌+◌, ◌≤◌, length, get_or, take, drop, eqb, not};
ghost use Rattle.std.specs.List.{position};
ghost use Rattle.syntax.specs.Numerals.{dropped};
ghost use Rattle.syntax.specs.Reading.{is_anonymous};
ghost use Rattle.syntax.specs.Terms.{same_bytes, same_name, true_name, fail_name, mode_name};
ghost use Rattle.syntax.specs.Tokens.{spelling};

use syntax::Token;

/// The byte at a position, and 0 past the end. Callers compare it with a byte that is not 0.
pub fn byte_at(s: &[u8], i: usize) -> u8
    ensures { result ≡ get_or s.now i 0 }
{
    s.get(i).copied().unwrap_or(0)
}

/// Whether the `n` bytes of `s` from `a` on and those of `t` from `b` on are the same. Byte by byte, the last one first, since names often begin alike: this
/// decides the speed of reading.
pub fn same_bytes(s: &[u8], a: usize, t: &[u8], b: usize, n: usize) -> bool
    requires { (a + n ≤ length s.now) × (b + n ≤ length t.now) }
    ensures { result ≡ same_bytes (take n (drop a s.now)) (take n (drop b t.now)) }
{
    for i in (0..n).rev() {
        if s[a + i] != t[b + i] {
            return false;
        }
    }
    true
}

// Whether the name of `len` bytes at `at` is `name`.
#[tactic(auto, using(crate::proofs::TextsLaws::same_as))]
fn is_name(s: &[u8], at: usize, len: usize, name: &[u8]) -> bool
    requires { at + len ≤ length s.now }
    ensures { result ≡ same_name (spelling s.now at len) name.now }
{
    &s[at..at + len] == name
}

/// Whether the name of `len` bytes at `at` is `true`.
pub fn is_true(s: &[u8], at: usize, len: usize) -> bool
    requires { at + len ≤ length s.now }
    ensures { result ≡ same_name (spelling s.now at len) true_name }
{
    is_name(s, at, len, b"true")
}

/// Whether the name of `len` bytes at `at` is `fail`.
pub fn is_fail(s: &[u8], at: usize, len: usize) -> bool
    requires { at + len ≤ length s.now }
    ensures { result ≡ same_name (spelling s.now at len) fail_name }
{
    is_name(s, at, len, b"fail")
}

/// Whether the name of `len` bytes at `at` is `mode`.
pub fn is_mode(s: &[u8], at: usize, len: usize) -> bool
    requires { at + len ≤ length s.now }
    ensures { result ≡ same_name (spelling s.now at len) mode_name }
{
    is_name(s, at, len, b"mode")
}

/// Whether a token is `_` alone, which is a new variable each time.
#[tactic(auto, unfolding(syntax::specs::Reading::is_anonymous))]
pub fn is_anonymous(s: &[u8], t: Token) -> bool
    ensures { result ≡ is_anonymous s.now t }
{
    t.len == 1 && byte_at(s, t.at) == b'_'
}

/// Where the first byte stands that is another than this one.
pub fn first_other(s: &[u8], byte: u8) -> Option<usize>
    ensures { result ≡ position (λ b. not (eqb b byte)) s.now }
{
    s.iter().position(|&b| b != byte)
}

/// The place of the first digit that the numeral of `len` bytes at `at` keeps: leading zeros are dropped, but never its last digit (REQUESTS (iii)).
pub fn first_kept(s: &[u8], at: usize, len: usize) -> usize
    requires { at + len ≤ length s.now }
    ensures { result ≡ at + dropped (spelling s.now at len) }
{
    if len == 0 {
        return at;
    }
    let last = at + len - 1;
    let before_last = &s[at..last];
    at + first_other(before_last, b'0').unwrap_or(before_last.len())
}
