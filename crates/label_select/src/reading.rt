//! Reading requirements.

ghost use Rattle.std.specs.Prelude.{◌≡◌, None, length};
ghost use Rattle.label_select.specs.Reading.{Fails, key_at, value_at, values_at, set_at, behind_key, requirement_at, requirements_at, selector_at};
ghost use Rattle.label_select.specs.Left.{left, Takes, Finds};

use crate::cursor::Cursor;
use crate::lexer::TokenKind;
use crate::refusal::LabelNo;
use crate::requirements::{Requirement, Values};
use kube_meta::{Text, is_label_key, is_label_value};
use std::alloc::Global;

/// At most so many requirements stand in a selector.
const MOST_REQUIREMENTS: u32 = 64;

#[tactic(auto, unfolding(crate::specs::Reading::key_at))]
fn key_of(alloc: Global, tokens: &mut Cursor) -> Result<Text, LabelNo>
    ensures { Takes tokens.old tokens.new result key_at }
{
    match tokens.word() {
        None => Err(LabelNo::Syntax { at: tokens.place() }),
        Some(word) => {
            if !is_label_key(word.text) {
                return Err(LabelNo::BadKey { at: word.at });
            }
            Ok(Text::new(alloc, word.text)?)
        }
    }
}

#[tactic(auto, unfolding(crate::specs::Reading::value_at))]
fn value_of(alloc: Global, tokens: &mut Cursor) -> Result<Text, LabelNo>
    ensures { Takes tokens.old tokens.new result value_at }
{
    match tokens.word() {
        None => Ok(Text::new(alloc, "")?),
        Some(word) => {
            if !is_label_value(word.text) {
                return Err(LabelNo::BadValue { at: word.at });
            }
            Ok(Text::new(alloc, word.text)?)
        }
    }
}

/// The values of a set, up to and with its `)`.
fn values_of(alloc: Global, tokens: &mut Cursor) -> Result<Values, LabelNo>
    ensures { Takes tokens.old tokens.new result (λ end ts. values_at end None ts) }
{
    let mut values = Values::new(alloc);
    loop {
        values.push(value_of(alloc, tokens)?)?;
        if tokens.takes(TokenKind::Close) {
            return Ok(values);
        }
        if !tokens.takes(TokenKind::Comma) {
            return Err(LabelNo::Syntax { at: tokens.place() });
        }
    }
}

#[tactic(auto, unfolding(crate::specs::Reading::set_at, crate::specs::Reading::inside_at))]
fn set_of(alloc: Global, tokens: &mut Cursor) -> Result<Values, LabelNo>
    ensures { Takes tokens.old tokens.new result set_at }
{
    let at = tokens.place();
    if !tokens.takes(TokenKind::Open) {
        return Err(LabelNo::Syntax { at });
    }
    if tokens.takes(TokenKind::Close) {
        return Err(LabelNo::EmptySet { at });
    }
    values_of(alloc, tokens)
}

/// What is asked of the label `key`, by what stands behind the key.
#[tactic(auto, unfolding(crate::specs::Reading::behind_key))]
fn requirement_on(alloc: Global, key: Text, tokens: &mut Cursor) -> Result<Requirement, LabelNo>
    ensures { Takes tokens.old tokens.new result (behind_key key) }
{
    if tokens.takes(TokenKind::Equal) || tokens.takes(TokenKind::DoubleEqual) {
        let value = value_of(alloc, tokens)?;
        return Ok(Requirement::In(key, Values::one(alloc, value)?));
    }
    if tokens.takes(TokenKind::NotEqual) {
        let value = value_of(alloc, tokens)?;
        return Ok(Requirement::NotIn(key, Values::one(alloc, value)?));
    }
    match tokens.word() {
        None => Ok(Requirement::Exists(key)),
        Some(word) => {
            if word.text == "in" {
                let values = set_of(alloc, tokens)?;
                return Ok(Requirement::In(key, values.searched(alloc)?));
            }
            if word.text == "notin" {
                let values = set_of(alloc, tokens)?;
                return Ok(Requirement::NotIn(key, values.searched(alloc)?));
            }
            Err(LabelNo::Syntax { at: word.at })
        }
    }
}

#[tactic(auto, unfolding(crate::specs::Reading::requirement_at))]
fn requirement_of(alloc: Global, tokens: &mut Cursor) -> Result<Requirement, LabelNo>
    ensures { Takes tokens.old tokens.new result requirement_at }
{
    if tokens.takes(TokenKind::Not) {
        let key = key_of(alloc, tokens)?;
        return Ok(Requirement::Absent(key));
    }
    let key = key_of(alloc, tokens)?;
    requirement_on(alloc, key, tokens)
}

/// Requirements joined by `,`, at least one.
pub fn requirements_of(alloc: Global, tokens: &mut Cursor) -> Result<Vec<Requirement>, LabelNo>
    ensures { Finds result (requirements_at 64 tokens.old.end (left tokens.old)) }
{
    let mut requirements = Vec::new(alloc);
    for _ in 0..MOST_REQUIREMENTS {
        let requirement = requirement_of(alloc, tokens)?;
        requirements.push(requirement)?;
        if tokens.is_done() {
            return Ok(requirements);
        }
        if !tokens.takes(TokenKind::Comma) {
            return Err(LabelNo::Syntax { at: tokens.place() });
        }
    }
    Err(LabelNo::TooLong)
}
