//! A reader of the tokens of a text, for texts that spell a form as our writer does.
//!
//! It takes one token after another from the front of the text and keeps nothing but what is left.
//! Each call asks for one token, and answers None where another one stands there, or a text with an
//! escape. The caller then reads the whole as a tree of values.

ghost use Rattle.std.specs.Prelude.{◌≡◌, ◌∷◌, [], IfSome, IsTrue, MatchBool, None, Some};
ghost use Rattle.json.specs.Json.{after_end_array, read_key};
ghost use Rattle.json.specs.Lex.{after_value, between, colon, fresh, lex, may_begin};
ghost use Rattle.json.specs.Lex.{may_close, punctuate, token, tokens};
ghost use Rattle.json.specs.Token.{begin_array, begin_object, key, null, string};
ghost use Rattle.topo_script.specs.Paths.{key_name};
ghost use Rattle.topo_script.specs.Readers.{place_of};
ghost use Rattle.topo_script.specs.Tokens.{SpellsNumber};

use crate::lexing::{
    behind, behind_colon, behind_gap, behind_literal, behind_number, behind_quoted, behind_text,
    ends_value, ends_word,
};
use crate::path::Key;
use std::marker::Model;

/// What may stand at the front of what is left.
#[derive(Clone, Copy, Drop)]
enum Place {
    /// A value, a key, or the end of an array or an object.
    Fresh,
    /// A value or a key.
    AfterComma,
    /// The end of an array, of an object or of the text.
    AfterValue,
}

/// Clauses see the tokens that are still to come.
#[derive(Drop)]
pub struct TokenReader<'a> {
    rest: &'a [u8],
    place: Place,
}

impl<'a> Model for TokenReader<'a> {
    ghost use Rattle.std.specs.Prelude.{List};
    ghost use Rattle.json.specs.Token.{Token, tokens_code};
    ghost use Rattle.topo_script.specs.Readers.{tokens_left};

    ghost Value = { List Token };

    ghost coded = { tokens_code };

    ghost view = { tokens_left };
}

/// Whether a value or a key may stand there.
#[inline(always)]
fn may_begin(place: Place) -> bool
    ensures { result ≡ may_begin (place_of place) }
{
    match place {
        Place::Fresh => true,
        Place::AfterComma => true,
        Place::AfterValue => false,
    }
}

/// Whether the end of an array or an object may stand there.
#[inline(always)]
fn may_close(place: Place) -> bool
    ensures { result ≡ may_close (place_of place) }
{
    match place {
        Place::Fresh => true,
        Place::AfterComma => false,
        Place::AfterValue => true,
    }
}

/// What follows this key and its colon, where they stand at the front.
#[inline(always)]
fn behind_key(bytes: &[u8], wanted: Key) -> Option<&[u8]>
    ensures { IfSome result (λ rest. lex between bytes.now
        ≡ token (string (key_name wanted)) ∷ colon ∷ lex between rest.now) }
{
    let named = behind_quoted(bytes, wanted.name())?;
    behind_colon(named)
}

/// What follows a value, or the comma behind it where one stands there, and what may stand there.
#[inline(always)]
fn behind_value(bytes: &[u8]) -> (&[u8], Place)
    ensures { punctuate (place_of result.1) (lex between result.0.now)
        ≡ punctuate after_value (lex between bytes.now) }
{
    let rest = behind_gap(bytes);
    match behind(rest, b',') {
        Some(more) => (behind_gap(more), Place::AfterComma),
        None => (rest, Place::AfterValue),
    }
}

impl<'a> TokenReader<'a> {
    /// All tokens of a text.
    pub fn new(bytes: &'a [u8]) -> TokenReader<'a>
        ensures { result ≡ tokens bytes.now }
    {
        TokenReader {
            rest: behind_gap(bytes),
            place: Place::Fresh,
        }
    }

    /// Another reader of the same tokens.
    pub fn copy(&self) -> TokenReader<'a>
        ensures { result ≡ self.now }
    {
        TokenReader {
            rest: self.rest,
            place: self.place,
        }
    }

    /// Whether no token is left.
    pub fn is_at_end(&self) -> bool
        ensures { IsTrue result → self.now ≡ [] }
    {
        self.rest.is_empty() && may_close(self.place)
    }

    /// Whether this byte is next. No contract rests on it.
    pub fn is_at(&self, byte: u8) -> bool {
        behind(self.rest, byte).is_some()
    }

    /// Goes on behind what opens an array or an object, or behind a key and its colon.
    #[inline(always)]
    fn go_inside(&mut self, rest: &'a [u8])
        ensures { self.new ≡ punctuate fresh (lex between rest.now) }
    {
        self.rest = behind_gap(rest);
        self.place = Place::Fresh;
    }

    /// Goes on behind a value.
    #[inline(always)]
    fn go_behind(&mut self, rest: &'a [u8])
        ensures { self.new ≡ punctuate after_value (lex between rest.now) }
    {
        let (rest, place) = behind_value(rest);
        self.rest = rest;
        self.place = place;
    }

    /// Takes the bracket that opens an array.
    #[inline(always)]
    pub fn begin_array(&mut self) -> Option<()>
        ensures { IfSome result (λ _. self.old ≡ begin_array ∷ self.new) }
    {
        if !may_begin(self.place) {
            return None;
        }
        let rest = behind(self.rest, b'[')?;
        self.go_inside(rest);
        Some(())
    }

    /// Takes the brace that opens an object.
    #[inline(always)]
    pub fn begin_object(&mut self) -> Option<()>
        ensures { IfSome result (λ _. self.old ≡ begin_object ∷ self.new) }
    {
        if !may_begin(self.place) {
            return None;
        }
        let rest = behind(self.rest, b'{')?;
        self.go_inside(rest);
        Some(())
    }

    /// Takes the bracket that closes an array, if it is next.
    #[inline(always)]
    pub fn take_end_array(&mut self) -> bool
        ensures { MatchBool result (after_end_array self.old ≡ Some self.new)
            (self.new ≡ self.old) }
    {
        if !may_close(self.place) {
            return false;
        }
        match behind(self.rest, b']') {
            Some(rest) => {
                self.go_behind(rest);
                true
            }
            None => false,
        }
    }

    /// Takes the bracket that closes an array.
    #[inline(always)]
    pub fn end_array(&mut self) -> Option<()>
        ensures { IfSome result (λ _. after_end_array self.old ≡ Some self.new) }
    {
        if self.take_end_array() {
            Some(())
        } else {
            None
        }
    }

    /// Takes the brace that closes an object, if it is next.
    #[inline(always)]
    pub fn take_end_object(&mut self) -> bool
        ensures { MatchBool result (read_key self.old ≡ Some (None, self.new))
            (self.new ≡ self.old) }
    {
        if !may_close(self.place) {
            return false;
        }
        match behind(self.rest, b'}') {
            Some(rest) => {
                self.go_behind(rest);
                true
            }
            None => false,
        }
    }

    /// Takes this key and its colon, if they are next.
    #[inline(always)]
    pub fn take_key(&mut self, wanted: Key) -> bool
        ensures { MatchBool result (self.old ≡ key (key_name wanted) ∷ self.new)
            (self.new ≡ self.old) }
    {
        if !may_begin(self.place) {
            return false;
        }
        match behind_key(self.rest, wanted) {
            Some(rest) => {
                self.go_inside(rest);
                true
            }
            None => false,
        }
    }

    /// Takes a text, if the next token is one.
    pub fn next_text(&mut self) -> Option<&'a [u8]>
        ensures { IfSome result (λ text. self.old ≡ string text.now ∷ self.new) }
    {
        if !may_begin(self.place) {
            return None;
        }
        let (text, rest) = behind_text(self.rest)?;
        let rest = behind_gap(rest);
        if !ends_value(rest) {
            return None;
        }
        self.go_behind(rest);
        Some(text)
    }

    /// Takes a whole number.
    #[inline(always)]
    pub fn next_number(&mut self) -> Option<u64>
        ensures { IfSome result (λ n. SpellsNumber self.old n self.new) }
    {
        if !may_begin(self.place) {
            return None;
        }
        let (number, rest) = behind_number(self.rest)?;
        if !ends_word(rest) {
            return None;
        }
        self.go_behind(rest);
        Some(number)
    }

    /// Takes the word null, if it is next.
    pub fn take_null(&mut self) -> bool
        ensures { MatchBool result (self.old ≡ null ∷ self.new) (self.new ≡ self.old) }
    {
        if !may_begin(self.place) {
            return false;
        }
        match behind_literal(self.rest, "null") {
            Some(rest) if ends_word(rest) => {
                self.go_behind(rest);
                true
            }
            _ => false,
        }
    }
}
