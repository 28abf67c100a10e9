//! A tokenizer for task texts in the usual form: plain keys and numbers of at most three digits. It
//! reads byte by byte and builds no JSON value.
//!
//! A cursor is conservative. If it returns `true` or `Some`, then the next token is proved to be
//! the requested one. `false` or `None` only means that this is not certain at a glance, as for a
//! string with an escape or a longer number; the caller then reads the whole text by way of its
//! JSON value instead.

ghost use Rattle.std.specs.Prelude.{◌≡◌, [], ◌∷◌, ◌++◌, ◌+◌, ◌^◌, ◌<◌, ◌≤◌, true, Some, None, IfSome, IsNone, IsTrue, length, take, decimal, option_map};
ghost use Rattle.std.specs.Bool.{OnFalse};
ghost use Rattle.json.specs.Ascii.{quote, true_text, false_text};
ghost use Rattle.json.specs.Token.{begin_object, begin_array, end_array, number, boolean};
ghost use Rattle.json.specs.Word.{is_space, ends_word};
ghost use Rattle.json.specs.Lex.{after_value, between, lex, may_begin, may_close, punctuate, tokens};
ghost use Rattle.json.specs.Json.{after_end_array, read_key};
ghost use Rattle.json.specs.Print.{escape};
ghost use Rattle.wf_task_parse.specs.Cursor.{place_of};

use std::marker::Model;

/// The state of a cursor: `Fresh` at the beginning of the text, of an array or object, or of a
/// member's value, `AfterValue` behind a complete value, and `AfterComma` behind a comma.
#[derive(Clone, Copy, Drop)]
pub(crate) enum LexerState {
    Fresh,
    AfterValue,
    AfterComma,
}

impl LexerState {
    /// Returns `true` if a value or a key may begin in this state.
    #[inline(always)]
    fn may_begin(self) -> bool
        ensures { result ≡ may_begin (place_of self) }
    {
        !matches!(self, LexerState::AfterValue)
    }

    /// Returns `true` if a closing bracket or brace may come in this state.
    #[inline(always)]
    fn may_close(self) -> bool
        ensures { result ≡ may_close (place_of self) }
    {
        !matches!(self, LexerState::AfterComma)
    }
}

/// Returns `true` if `byte` is JSON whitespace.
#[inline(always)]
fn is_blank(byte: u8) -> bool
    ensures { result ≡ is_space byte }
{
    (byte == b' ') | (byte == b'\t') | (byte == b'\n') | (byte == b'\r')
}

/// Returns `text` without the whitespace at its front. Most texts have none here, which is tested
/// first.
#[inline(always)]
fn trim_start(text: &[u8]) -> &[u8]
    ensures { lex between result.now ≡ lex between text.now }
{
    match text {
        [first, ..] if !is_blank(*first) => text,
        _ => trim_start_slow(text),
    }
}

/// Returns `text` without the whitespace at its front, however much there is.
fn trim_start_slow(text: &[u8]) -> &[u8]
    ensures { lex between result.now ≡ lex between text.now }
{
    let mut at = 0;
    while at < text.len() && is_blank(text[at]) {
        at += 1;
    }
    &text[at..]
}

/// Returns `true` if a number or word right before `text` certainly ends there: if `text` begins
/// with a comma, a closing bracket or brace, a space, or a line break.
#[inline(always)]
fn ends_word(text: &[u8]) -> bool
    ensures { IsTrue result → ends_word text.now ≡ true }
{
    match text {
        [b',' | b']' | b'}' | b' ' | b'\n' | b'\r', ..] => true,
        _ => false,
    }
}

/// Returns what follows the word `true`, if `text` certainly begins with this word.
fn after_true(text: &[u8]) -> Option<&[u8]>
    ensures { IfSome result (λ rest. (text.now ≡ true_text ++ rest.now)
        × (ends_word rest.now ≡ true)) }
{
    match text {
        [b't', b'r', b'u', b'e', rest @ ..] if ends_word(rest) => Some(rest),
        _ => None,
    }
}

/// Returns what follows the word `false`, if `text` certainly begins with this word.
fn after_false(text: &[u8]) -> Option<&[u8]>
    ensures { IfSome result (λ rest. (text.now ≡ false_text ++ rest.now)
        × (ends_word rest.now ≡ true)) }
{
    match text {
        [b'f', b'a', b'l', b's', b'e', rest @ ..] if ends_word(rest) => Some(rest),
        _ => None,
    }
}

/// Returns the value of `digit`, which must be an ASCII digit.
#[inline(always)]
fn digit_value(digit: u8) -> u64
    requires { (48 ≤ digit) × (digit ≤ 57) }
    ensures value { result + 48 ≡ digit }
    ensures digit { result < 10 }
{
    u64::from(digit - b'0')
}

/// Returns `true` if `byte` is a digit from 1 to 9, with which a number of several digits may
/// begin.
#[inline(always)]
fn is_leading_digit(byte: u8) -> bool
    ensures { IsTrue result → (49 ≤ byte) × (byte ≤ 57) }
{
    byte != b'0' && byte.is_ascii_digit()
}

/// Splits a number of at most three digits off the front of `text`. Returns the number and the
/// rest, or `None` if `text` does not certainly begin with such a number.
#[inline(always)]
fn short_number(text: &[u8]) -> Option<(u64, &[u8])>
    ensures { IfSome result (λ found. (found.0 < 10 ^ 3)
        × (text.now ≡ decimal found.0 ++ found.1.now) × (ends_word found.1.now ≡ true)) }
{
    match text {
        [ones, rest @ ..] if ones.is_ascii_digit() && ends_word(rest) => {
            Some((digit_value(*ones), rest))
        }
        [tens, ones, rest @ ..]
            if is_leading_digit(*tens) && ones.is_ascii_digit() && ends_word(rest) => {
            let value = 10 * digit_value(*tens) + digit_value(*ones);
            Some((value, rest))
        }
        [hundreds, tens, ones, rest @ ..]
            if is_leading_digit(*hundreds)
                && tens.is_ascii_digit()
                && ones.is_ascii_digit()
                && ends_word(rest) => {
            let upper = 10 * digit_value(*hundreds) + digit_value(*tens);
            Some((10 * upper + digit_value(*ones), rest))
        }
        _ => None,
    }
}

/// Returns `true` if `byte` is an underscore, a grave accent or a small ASCII letter. None of these
/// is escaped in JSON, and all keys of a task text consist of underscores and letters.
fn is_key_byte(byte: u8) -> bool
    ensures { IsTrue result → escape (byte ∷ []) ≡ byte ∷ [] }
{
    b'_' <= byte && byte <= b'z'
}

/// Returns the number of bytes at the front of `text` that [`is_key_byte`] accepts.
fn key_length(text: &[u8]) -> usize
    ensures bound { result ≤ length text.now }
    ensures plain { escape (take result text.now) ≡ take result text.now }
{
    let mut at = 0;
    while at < text.len() && is_key_byte(text[at]) {
        at += 1;
    }
    at
}

/// Splits a key off `text`, which begins behind the key's opening quote. Returns the key and what
/// follows its closing quote, or `None` if the key has a byte that [`is_key_byte`] rejects.
fn plain_key(text: &[u8]) -> Option<(&str, &[u8])>
    ensures { IfSome result (λ found. text.now ≡ escape found.0.now ++ quote ∷ found.1.now) }
{
    let (key, rest) = text.split_at(key_length(text));
    let Ok(key) = simdutf8::basic::from_utf8(key) else {
        return None;
    };
    match rest {
        [b'"', rest @ ..] => Some((key, rest)),
        _ => None,
    }
}

/// The remaining tokens of a text. Contracts see them as a list.
#[derive(Drop)]
pub(crate) struct Cursor<'a> {
    place: LexerState,
    // the unread text, without whitespace at its front
    rest: &'a [u8],
}

impl<'a> Model for Cursor<'a> {
    ghost use Rattle.std.specs.Prelude.{List};
    ghost use Rattle.json.specs.Token.{Token, tokens_code};
    ghost use Rattle.wf_task_parse.specs.Cursor.{tokens_at};

    ghost Value = { List Token };

    ghost coded = { tokens_code };

    ghost view = { λ c. tokens_at c.place c.rest.now };
}

impl<'a> Cursor<'a> {
    /// Creates a cursor before the first token of `text`.
    pub(crate) fn new(text: &'a [u8]) -> Cursor<'a>
        ensures { result ≡ tokens text.now }
    {
        Cursor {
            place: LexerState::Fresh,
            rest: trim_start(text),
        }
    }

    /// Moves to `text`, which is what follows a value, and past the whitespace and the comma at its
    /// front. A comma or a closing bracket right at its front is the common case.
    #[inline(always)]
    fn move_past_value(&mut self, text: &'a [u8])
        ensures { self.new ≡ punctuate after_value (lex between text.now) }
    {
        match text {
            [b',', rest @ ..] => {
                self.place = LexerState::AfterComma;
                self.rest = trim_start(rest);
            }
            [b']', ..] => {
                self.place = LexerState::AfterValue;
                self.rest = text;
            }
            _ => self.go_on_past_blanks(text),
        }
    }

    /// Moves to `text`, which is what follows a value, and past the whitespace and the comma at its
    /// front.
    fn go_on_past_blanks(&mut self, text: &'a [u8])
        ensures { self.new ≡ punctuate after_value (lex between text.now) }
    {
        let rest = trim_start(text);
        match rest {
            [b',', more @ ..] => {
                self.place = LexerState::AfterComma;
                self.rest = trim_start(more);
            }
            _ => {
                self.place = LexerState::AfterValue;
                self.rest = rest;
            }
        }
    }

    /// Takes the next token and returns `true` if it is certainly the bracket that opens an array.
    #[inline(always)]
    pub(crate) fn take_begin_array(&mut self) -> bool
        ensures { IsTrue result → self.old ≡ begin_array ∷ self.new }
    {
        match self.rest {
            [b'[', rest @ ..] if self.place.may_begin() => {
                self.place = LexerState::Fresh;
                self.rest = trim_start(rest);
                true
            }
            _ => false,
        }
    }

    /// Takes the next token and returns `true` if it is certainly the brace that opens an object.
    #[inline(always)]
    pub(crate) fn take_begin_object(&mut self) -> bool
        ensures { IsTrue result → self.old ≡ begin_object ∷ self.new }
    {
        match self.rest {
            [b'{', rest @ ..] if self.place.may_begin() => {
                self.place = LexerState::Fresh;
                self.rest = trim_start(rest);
                true
            }
            _ => false,
        }
    }

    /// Takes the next token and returns `true` if it is certainly the bracket that closes an array.
    /// Otherwise the cursor does not move.
    #[inline(always)]
    pub(crate) fn take_end_array(&mut self) -> bool
        ensures taken { IsTrue result → after_end_array self.old ≡ Some self.new }
        ensures stays { OnFalse result (self.new ≡ self.old) }
    {
        match self.rest {
            [b']', rest @ ..] if self.place.may_close() => {
                self.move_past_value(rest);
                true
            }
            _ => false,
        }
    }

    /// Takes and returns the next token if it is certainly a number of at most three digits.
    #[inline(always)]
    pub(crate) fn next_number(&mut self) -> Option<u64>
        ensures { IfSome result (λ n. (n < 10 ^ 3) × (self.old ≡ number (decimal n) ∷ self.new)) }
    {
        if !self.place.may_begin() {
            return None;
        }
        let (value, rest) = short_number(self.rest)?;
        self.move_past_value(rest);
        Some(value)
    }

    /// Takes and returns an array of two numbers of one digit each, if it certainly comes next and
    /// has no whitespace inside. Otherwise the cursor does not move.
    #[inline(always)]
    pub(crate) fn next_pair(&mut self) -> Option<(u64, u64)>
        ensures taken { IfSome result (λ p. (p.0 < 10) × (p.1 < 10) × (self.old
            ≡ begin_array ∷ number (decimal p.0) ∷ number (decimal p.1) ∷ end_array ∷ self.new)) }
        ensures stays { IsNone result → self.new ≡ self.old }
    {
        match self.rest {
            [b'[', first, b',', second, b']', rest @ ..]
                if first.is_ascii_digit() && second.is_ascii_digit() && self.place.may_begin() => {
                let pair = (digit_value(*first), digit_value(*second));
                self.move_past_value(rest);
                Some(pair)
            }
            _ => None,
        }
    }

    /// Takes and returns the next token if it is certainly `true` or `false`.
    pub(crate) fn next_bool(&mut self) -> Option<bool>
        ensures { IfSome result (λ b. self.old ≡ boolean b ∷ self.new) }
    {
        if !self.place.may_begin() {
            return None;
        }
        if let Some(rest) = after_true(self.rest) {
            self.move_past_value(rest);
            return Some(true);
        }
        let rest = after_false(self.rest)?;
        self.move_past_value(rest);
        Some(false)
    }

    /// Takes the next key with its colon and returns `Some(Some(key))`, or takes the brace that
    /// closes an object and returns `Some(None)`. Returns `None` if neither certainly comes next.
    pub(crate) fn next_key(&mut self) -> Option<Option<&'a str>>
        ensures { IfSome result (λ k. read_key self.old
            ≡ Some (option_map (λ s. s.now) k, self.new)) }
    {
        match self.rest {
            [b'}', rest @ ..] if self.place.may_close() => {
                self.move_past_value(rest);
                Some(None)
            }
            [b'"', rest @ ..] if self.place.may_begin() => {
                let (key, behind) = plain_key(rest)?;
                match trim_start(behind) {
                    [b':', rest @ ..] => {
                        self.place = LexerState::Fresh;
                        self.rest = trim_start(rest);
                        Some(Some(key))
                    }
                    _ => None,
                }
            }
            _ => None,
        }
    }

    /// Returns `true` if there is certainly no further token.
    pub(crate) fn is_at_end(&self) -> bool
        ensures { IsTrue result → self.now ≡ [] }
    {
        self.rest.is_empty() && self.place.may_close()
    }
}
