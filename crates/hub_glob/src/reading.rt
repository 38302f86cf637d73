//! Reading path specifications.
ghost use Rattle.std.specs.Prelude.{◌≡◌, ◌==◌, ◌+◌, ◌-◌, ◌<◌, ◌≤◌, ◌++◌, [], length, nat_lt, Bool, true, false, Option, Some, None, Result, Ok, Err, IfOk, IfErr, IfSome, IsSome, MatchOption, chars};
ghost use Rattle.std.specs.List.{before_first, after_first, range_with_len};
ghost use Rattle.hub_text.specs.Fails.{Fails};
ghost use Rattle.hub_glob.specs.declared.fault.GlobFault.{GlobFault};
ghost use Rattle.hub_glob.specs.Specification as specification;
ghost use Rattle.hub_text.specs.Blanks as blanks;
ghost use Rattle.hub_glob.specs.Reading as reading;

use crate::fault::GlobFault;
use crate::path_spec::Kind;
use crate::piece::{PATTERN_CHARACTERS, PATTERN_CHOICES, Part, Piece};
use hub_text::{Items, begins_with, first_word, is_empty, skip_blanks};
use std::alloc::{AllocError, Global};
use std::mem;

/// A pattern character after its escape has been resolved.
#[derive(Clone, Copy)]
pub(crate) enum Token {
    /// By itself.
    Plain(char),
    /// After a `\`.
    Escaped(char),
    /// A `\` that makes nothing literal.
    Stray,
}

/// What one or more tokens say.
#[derive(Drop)]
pub(crate) enum Sign {
    Means(Piece),
    Open,
    Comma,
    Close,
}

/// The first word, and what follows it and the blanks after it.
pub(crate) fn split_kind(text: &str) -> (&str, &str)
    ensures word { chars result.0.now ≡ before_first blanks.is_blank (chars text.now) }
    ensures pattern { chars result.1.now
        ≡ blanks.skip_blanks (after_first blanks.is_blank (chars text.now)) }
{
    let (word, rest) = first_word(text);
    (word, skip_blanks(rest))
}

/// The kind that a word names.
pub(crate) fn read_kind(word: &str) -> Result<Kind, GlobFault>
    ensures { result ≡ reading.kind_reading (chars word.now) }
{
    if word == "Name" {
        Ok(Kind::Name)
    } else if word == "Path" {
        Ok(Kind::Path)
    } else if word == "BelowPath" {
        Ok(Kind::BelowPath)
    } else if word == "Regex" {
        Err(GlobFault::RegexLeftOut)
    } else {
        Err(GlobFault::NoKind)
    }
}

/// Returns whether a `\` makes a character literal.
pub(crate) fn is_special(c: char) -> bool
    ensures { result ≡ reading.is_special c }
{
    matches!(c, '*' | '?' | '[' | ']' | '{' | '}' | ',' | '\\')
}

/// The parts of a pattern, if it isn't empty or too long and doesn't begin with a `/` that it may not have.
pub(crate) fn read_pattern(
    alloc: Global,
    kind: Kind,
    pattern: &str,
) -> Result<Items<Part>, GlobFault>
    ensures ok { IfOk result (λ ps. reading.pattern_reading kind (chars pattern.now) ≡ Ok ps) }
    ensures err { IfErr result (Fails GlobFault.OutOfMemory
        (reading.pattern_reading kind (chars pattern.now))) }
{
    if is_empty(pattern) {
        return Err(GlobFault::EmptyPattern);
    }
    if is_long(pattern) {
        return Err(GlobFault::TooLong);
    }
    let in_name = is_name_kind(kind);
    if !in_name && begins_with(pattern, '/') {
        return Err(GlobFault::LeadingSlash);
    }
    let parts = read_parts(alloc, in_name, pattern)?;
    if has_many_choices(parts.as_slice()) {
        return Err(GlobFault::TooManyChoices);
    }
    Ok(parts)
}

fn is_long(pattern: &str) -> bool
    ensures { result ≡ nat_lt PATTERN_CHARACTERS (length (chars pattern.now)) }
{
    character_count(pattern) > PATTERN_CHARACTERS
}

fn character_count(pattern: &str) -> usize
    ensures { result ≡ length (chars pattern.now) }
{
    pattern.chars().count()
}

fn is_name_kind(kind: Kind) -> bool
    ensures { result ≡ specification.is_name_kind kind }
{
    matches!(kind, Kind::Name)
}

/// The parts of a pattern.
fn read_parts(alloc: Global, in_name: bool, pattern: &str) -> Result<Items<Part>, GlobFault>
    ensures ok { IfOk result (λ ps. reading.pattern_parts in_name (chars pattern.now) ≡ Ok ps) }
    ensures err { IfErr result (Fails GlobFault.OutOfMemory
        (reading.pattern_parts in_name (chars pattern.now))) }
{
    let tokens = read_tokens(alloc, pattern)?;
    let mut parser = Parser {
        alloc,
        in_name,
        tokens: tokens.as_slice(),
    };
    parser.parts()
}

/// The characters of a pattern, with their escapes resolved.
fn read_tokens(alloc: Global, pattern: &str) -> Result<Vec<Token>, AllocError>
    ensures { IfOk result (λ v. v.items ≡ reading.tokens false (chars pattern.now)) }
{
    let mut tokens = Vec::new(alloc);
    let mut escaped = false;
    for c in pattern.chars() {
        if escaped {
            if !is_special(c) {
                tokens.push(Token::Stray)?;
                return Ok(tokens);
            }
            tokens.push(Token::Escaped(c))?;
            escaped = false;
        } else if c == '\\' {
            escaped = true;
        } else {
            tokens.push(Token::Plain(c))?;
        }
    }
    if escaped {
        tokens.push(Token::Stray)?;
    }
    Ok(tokens)
}

/// Reads parts from the tokens that are left.
#[derive(Drop)]
struct Parser<'a> {
    alloc: Global,
    in_name: bool,
    tokens: &'a [Token],
}

impl Parser<'_> {
    /// The parts up to the end.
    fn parts(&mut self) -> Result<Items<Part>, GlobFault>
        ensures ok { IfOk result (λ ps. reading.parts None (reading.signs_of self.old) ≡ Ok ps) }
        ensures err { IfErr result (Fails GlobFault.OutOfMemory
            (reading.parts None (reading.signs_of self.old))) }
    {
        let mut parts = Items::new(self.alloc);
        'signs: while let Some(sign) = self.sign()? {
            let part = match sign {
                Sign::Means(piece) => Part::One(piece),
                Sign::Open => Part::Brace(self.choices()?),
                Sign::Comma => Part::One(Piece::Lit(',')),
                Sign::Close => Part::One(Piece::Lit('}')),
            };
            parts.push(part)?;
        }
        Ok(parts)
    }

    /// The choices of a brace, from after its `{` to its `}`.
    fn choices(&mut self) -> Result<Items<Items<Piece>>, GlobFault>
        ensures ok { IfOk result (λ cs.
            reading.AreBrace (reading.signs_of self.old) (reading.signs_of self.new) cs) }
        ensures err { IfErr result (Fails GlobFault.OutOfMemory
            (reading.brace_parts (reading.signs_of self.old))) }
        ensures in_name { self.new.in_name ≡ self.old.in_name }
        ensures shorter { length self.new.tokens.now ≤ length self.old.tokens.now }
    {
        let mut choices = Items::new(self.alloc);
        let mut choice = Items::new(self.alloc);
        'signs: while let Some(sign) = self.sign()? {
            match sign {
                Sign::Means(piece) => choice.push(piece)?,
                Sign::Open => return Err(GlobFault::NestedBraces),
                Sign::Comma => choices.push(mem::replace(&mut choice, Items::new(self.alloc)))?,
                Sign::Close => {
                    choices.push(choice)?;
                    return Ok(choices);
                }
            }
        }
        Err(GlobFault::OpenBrace)
    }

    /// The next sign, or nothing at the end.
    fn sign(&mut self) -> Result<Option<Sign>, GlobFault>
        ensures ok { IfOk result (λ o. MatchOption o (self.old.tokens.now ≡ [])
            (reading.TakesSign self.old self.new)) }
        ensures err { IfErr result (reading.FailsAtFirst (reading.signs_of self.old)) }
        ensures in_name { self.new.in_name ≡ self.old.in_name }
        ensures shorter { IfOk result (λ o. IsSome o
            → length self.new.tokens.now < length self.old.tokens.now) }
        ensures no_longer { length self.new.tokens.now ≤ length self.old.tokens.now }
    {
        match self.tokens {
            [] => Ok(None),
            [Token::Stray, ..] => Err(GlobFault::BadEscape),
            [Token::Escaped(c), rest @ ..] => {
                self.tokens = rest;
                Ok(Some(Sign::Means(Piece::Lit(*c))))
            }
            [Token::Plain(c), rest @ ..] => {
                self.tokens = rest;
                if *c == '[' {
                    Ok(Some(Sign::Means(self.set()?)))
                } else if *c == '/' && self.in_name {
                    Err(GlobFault::SlashInName)
                } else {
                    Ok(Some(sign_of(*c)))
                }
            }
        }
    }

    /// A set, from after its `[`.
    fn set(&mut self) -> Result<Piece, GlobFault>
        ensures ok { IfOk result (reading.TakesSet self.old self.new) }
        ensures err { IfErr result (reading.FailsAtFirst (reading.set_signs_of self.old)) }
        ensures in_name { self.new.in_name ≡ self.old.in_name }
        ensures shorter { length self.new.tokens.now ≤ length self.old.tokens.now }
    {
        match split_set(self.tokens) {
            Some((set, rest)) => {
                self.tokens = rest;
                read_set(self.alloc, set, true)
            }
            None => {
                let set = self.tokens;
                self.tokens = &[];
                read_set(self.alloc, set, false)
            }
        }
    }
}

/// The sign that a character outside brackets is.
fn sign_of(c: char) -> Sign
    ensures { result ≡ reading.character_sign c }
{
    match c {
        '*' => Sign::Means(Piece::Run),
        '?' => Sign::Means(Piece::Any),
        '{' => Sign::Open,
        '}' => Sign::Close,
        ',' => Sign::Comma,
        _ => Sign::Means(Piece::Lit(c)),
    }
}

/// The tokens of a set and those after its `]`, if there is one.
fn split_set(tokens: &[Token]) -> Option<(&[Token], &[Token])>
    ensures split { (in_name : Bool) → MatchOption result (reading.IsUnclosed in_name tokens.now)
        (λ x. reading.IsSplit in_name tokens.now x.0.now x.1.now) }
    ensures shorter { IfSome result (λ x. length x.1.now ≤ length tokens.now) }
{
    for (i, token) in tokens.iter().enumerate() {
        if is_plain(']', *token) {
            return Some((&tokens[..i], &tokens[i + 1..]));
        }
    }
    None
}

fn is_plain(c: char, token: Token) -> bool
    ensures { result ≡ reading.is_plain c token }
{
    matches!(token, Token::Plain(d) if d == c)
}

/// A set, by its tokens, and whether a `]` closes it.
fn read_set(alloc: Global, set: &[Token], closed: bool) -> Result<Piece, GlobFault>
    ensures ok { IfOk result (λ p. reading.set_piece set.now closed ≡ Ok p) }
    ensures err { IfErr result (Fails GlobFault.OutOfMemory
        (reading.set_piece set.now closed)) }
{
    if is_negated(set) {
        return Err(GlobFault::NegatedSet);
    }
    let members = read_members(alloc, set)?;
    if !closed {
        return Err(GlobFault::OpenBracket);
    }
    if members.is_empty() {
        return Err(GlobFault::BadRange);
    }
    Ok(Piece::OneOf(Items::from_vec(members)))
}

fn is_negated(set: &[Token]) -> bool
    ensures { result ≡ reading.is_negated set.now }
{
    match set {
        [] => false,
        [first, ..] => is_plain('^', *first) || is_plain('!', *first),
    }
}

/// The characters of a set.
fn read_members(alloc: Global, set: &[Token]) -> Result<Vec<char>, GlobFault>
    ensures ok { IfOk result (λ v. reading.set_members set.now ≡ Ok v.items) }
    ensures err { IfErr result (Fails GlobFault.OutOfMemory
        (reading.set_members set.now)) }
{
    let mut members = Vec::new(alloc);
    let mut i = 0;
    while i < set.len() {
        if i + 2 < set.len() && is_plain('-', set[i + 1]) {
            push_range(&mut members, set[i], set[i + 2])?;
            i += 3;
        } else {
            push_one(&mut members, set[i])?;
            i += 1;
        }
    }
    Ok(members)
}

/// The character of a token.
fn character(token: Token) -> Result<char, GlobFault>
    ensures { result ≡ reading.token_character token }
{
    match token {
        Token::Plain(c) | Token::Escaped(c) => Ok(c),
        Token::Stray => Err(GlobFault::BadEscape),
    }
}

/// Adds one character to a set.
fn push_one(set: &mut Vec<char>, token: Token) -> Result<(), GlobFault>
    ensures ok { IfOk result (λ _.
        reading.Adds (reading.member token) set.old.items set.new.items) }
    ensures err { IfErr result (Fails GlobFault.OutOfMemory (reading.member token)) }
{
    let c = character(token)?;
    if c == '/' {
        return Err(GlobFault::SlashInSet);
    }
    set.push(c)?;
    Ok(())
}

/// Adds a range of characters to a set.
fn push_range(set: &mut Vec<char>, low: Token, high: Token) -> Result<(), GlobFault>
    ensures ok { IfOk result (λ _.
        reading.Adds (reading.range_member low high) set.old.items set.new.items) }
    ensures err { IfErr result (Fails GlobFault.OutOfMemory
        (reading.range_member low high)) }
{
    let low = character(low)?;
    let high = character(high)?;
    if !low.is_ascii() || !high.is_ascii() || high < low {
        return Err(GlobFault::BadRange);
    }
    if low <= '/' && '/' <= high {
        return Err(GlobFault::SlashInSet);
    }
    push_codes(set, low as u8, high as u8)?;
    Ok(())
}

/// Adds the ASCII characters from one to another.
fn push_codes(set: &mut Vec<char>, low: u8, high: u8) -> Result<(), AllocError>
    requires ascii { high < 128 }
    requires ordered { low ≤ high }
    ensures { IfOk result (λ _. set.new.items
        ≡ set.old.items ++ range_with_len low (high + 1 - low)) }
{
    for code in low..high + 1 {
        set.push(char::from(code))?;
    }
    Ok(())
}

/// Returns whether a pattern stands for more choices than it may.
pub(crate) fn has_many_choices(parts: &[Part]) -> bool
    ensures { result ≡ nat_lt PATTERN_CHOICES (specification.choice_count parts.now) }
{
    let mut count = 1usize;
    for part in parts {
        if let Part::Brace(choices) = part {
            count = count.saturating_mul(choices.len()).min(PATTERN_CHOICES + 1);
        }
    }
    count > PATTERN_CHOICES
}
