ghost use Rattle.std.specs.Prelude.{◌≡◌, ◌↔◌, Some, nat_eq, IfSome, IsSome, refl};
ghost use Rattle.std.specs.List.{list_any, list_all};
ghost use Rattle.std.specs.Ordering.{nat_cmp};
ghost use Rattle.std.specs.Cmp.Lexicographic.{pointwise, slice_cmp, nat_list_eq_equiv, nat_list_cmp_total, texts_ties, texts_po};
ghost use Rattle.std.specs.Cmp.{partial_equiv_from_equiv};
ghost use Rattle.std.specs.Cmp.Rules.{hashing};
ghost use Rattle.std.specs.Hash as fed;
ghost use Rattle.std.proofs.Common.{rules};
ghost use Rattle.tcel_num.specs.Name.{IsName, is_word, is_reserved, may_start, may_follow};

use std::alloc::AllocError;
use std::cmp::Ordering;
use std::hash::{Hash, Hasher};
use std::marker::Model;

const LONGEST: usize = 32;

const RESERVED: [&[u8]; 29] = [
    b"task",
    b"priority",
    b"input",
    b"output",
    b"state",
    b"local",
    b"int",
    b"bool",
    b"every",
    b"finish",
    b"within",
    b"start",
    b"after",
    b"before",
    b"do",
    b"receive",
    b"from",
    b"send",
    b"to",
    b"if",
    b"else",
    b"for",
    b"while",
    b"limit",
    b"true",
    b"false",
    b"and",
    b"or",
    b"not",
];

/// The name of a task, variable or port: 1 to 32 bytes, a letter or underscore first, then letters,
/// digits and underscores, and no reserved word (docs/language.md). Contracts see it as its bytes.
#[derive(Debug)]
pub struct Name {
    bytes: [u8; 32],
    length: u8,
}

impl Model for Name {
    ghost use Rattle.std.specs.Prelude.{ℕ, List};

    ghost Value = { List ℕ };

    ghost use Rattle.tcel_num.specs.NameInside.{bytes_of, IsKept, inside_of, inside_of-bytes_of};

    ghost view = { bytes_of };

    ghost invariant = { IsKept };

    ghost inverse = { inside_of };

    ghost inverse_ok = { inside_of-bytes_of };
}

impl Copy for Name {}

impl Clone for Name {
    ghost is_clone = { λ name copy. copy ≡ name };

    fn clone(&self) -> Result<Name, AllocError> {
        Ok(*self)
    }
}

impl Name {
    /// The name with these bytes. None where they are no name, or a reserved word.
    pub fn new(bytes: &[u8]) -> Option<Name>
        ensures value { IfSome result (λ name. name ≡ bytes.now) }
        ensures valid { IsSome result ↔ IsName bytes.now }
    {
        if bytes.len() > LONGEST || !is_word(bytes) || is_reserved(bytes) {
            return None;
        }
        let mut kept = [0; 32];
        kept[..bytes.len()].copy_from_slice(bytes);
        Some(Name {
            bytes: kept,
            length: bytes.len() as u8,
        })
    }

    /// Its 1 to 32 bytes.
    pub fn bytes(&self) -> &[u8]
        ensures value { result.now ≡ self.now }
        ensures valid { IsName self.now }
    {
        &self.bytes[..usize::from(self.length)]
    }
}

fn is_word(bytes: &[u8]) -> bool
    ensures { result ≡ is_word bytes.now }
{
    match bytes {
        [] => false,
        [first, rest @ ..] => may_start(*first) && all_may_follow(rest),
    }
}

fn all_may_follow(bytes: &[u8]) -> bool
    ensures { result ≡ list_all may_follow bytes.now }
{
    bytes.iter().all(|byte| may_follow(*byte))
}

/// Whether a name may start with this byte: a letter or an underscore (docs/language.md).
pub fn may_start(byte: u8) -> bool
    ensures { result ≡ may_start byte }
{
    byte.is_ascii_alphabetic() || byte == b'_'
}

/// Whether this byte may follow in a name: a letter, an underscore or a digit (docs/language.md).
pub fn may_follow(byte: u8) -> bool
    ensures { result ≡ may_follow byte }
{
    may_start(byte) || byte.is_ascii_digit()
}

fn is_reserved(bytes: &[u8]) -> bool
    ensures { result ≡ is_reserved bytes.now }
{
    is_among(bytes, &RESERVED)
}

fn is_among(bytes: &[u8], words: &[&[u8]]) -> bool
    ensures { result ≡ list_any (λ word. pointwise nat_eq bytes.now word.now) words.now }
{
    words.iter().any(|word| bytes == *word)
}

impl PartialEq for Name {
    ghost eq = { pointwise nat_eq };

    ghost laws = { partial_equiv_from_equiv nat_list_eq_equiv };

    fn eq(&self, other: &Name) -> bool {
        self.bytes() == other.bytes()
    }
}

impl Eq for Name {
    ghost laws = { nat_list_eq_equiv };
}

impl PartialOrd for Name {
    ghost partial_cmp = { λ x y. Some (slice_cmp nat_cmp x y) };

    ghost laws = { texts_po };

    fn partial_cmp(&self, other: &Name) -> Option<Ordering> {
        Some(self.cmp(other))
    }
}

impl Ord for Name {
    ghost cmp = { slice_cmp nat_cmp };

    ghost total = { nat_list_cmp_total };

    ghost matches_partial_cmp = { λ x y. refl };

    ghost matches_eq = { texts_ties };

    fn cmp(&self, other: &Name) -> Ordering {
        self.bytes().cmp(other.bytes())
    }
}

impl Hash for Name {
    ghost hash_input = { fed.slice fed.u8 };

    ghost respects_eq = { Prim.search (hashing, rules) };

    fn hash<H: Hasher>(&self, state: &mut H) {
        self.bytes().hash(state);
    }
}
