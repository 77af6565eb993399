//! Values on one line: `[..]`, `{..}`, and scalars with or without quotes.

ghost use Rattle.std.specs.Prelude.{◌≡◌, ◌+◌, ◌<◌, ◌^◌, [], ◌∷◌, ◌++◌, length, IfOk, OnOk};
ghost use Rattle.std.specs.Str.{IsAscii};
ghost use Rattle.yaml_text.specs.Flow as spec;
ghost use Rattle.yaml_text.specs.Flow.{Meets, Reads};
ghost use Rattle.yaml_text.specs.Nests.{Nests};
ghost use Rattle.yaml_text.specs.Outcomes.{Gives};
ghost use Rattle.yaml_text.specs.SameKeys.{SameKeys};
ghost use Rattle.yaml_text.specs.declared.fault.YamlError.TheVariants.{Fault};

use crate::fault::{YamlError, YamlFault, YamlKind};
use crate::keys::Keys;
use crate::text::Text;
use crate::token::{Pieces, Token, Words, is_indicator, key_fault, scalar_fault};
use crate::tree::{Pair, Tree, Value};
use sqlite_items::Items;
use std::alloc::Global;

/// What has to come in a text that is a value.
#[derive(Clone, Copy, Drop)]
pub enum Goal {
    /// A value.
    Value,
    /// An item, or the end of a list.
    ItemOrEnd,
    /// A comma, or the end of a list.
    NextItem,
    /// A pair, or the end of a map.
    PairOrEnd,
    /// A pair.
    Pair,
    /// A comma, or the end of a map.
    NextPair,
}

fn begin_value(goals: &mut Items<Goal>, token: Token<'_>) -> Result<bool, YamlError>
    ensures { Meets (spec.for_value token.entry) goals.old result goals.new }
{
    match token {
        Token::Scalar(_) => Ok(true),
        Token::OpenList => {
            goals.push(Goal::ItemOrEnd)?;
            Ok(true)
        }
        Token::OpenMap => {
            goals.push(Goal::PairOrEnd)?;
            Ok(true)
        }
        _ => Ok(false),
    }
}

/// Whether a piece may stand where this has to come; what it leaves to come is added, the first last.
fn meet(goals: &mut Items<Goal>, goal: Goal, token: Token<'_>) -> Result<bool, YamlError>
    ensures { Meets (spec.step goal token.entry) goals.old result goals.new }
{
    match (goal, token) {
        (Goal::Value, token) => begin_value(goals, token),
        (Goal::ItemOrEnd, Token::CloseList) | (Goal::NextItem, Token::CloseList) => Ok(true),
        (Goal::ItemOrEnd, token) => {
            goals.push(Goal::NextItem)?;
            begin_value(goals, token)
        }
        (Goal::NextItem, Token::Comma) => {
            goals.push(Goal::NextItem)?;
            goals.push(Goal::Value)?;
            Ok(true)
        }
        (Goal::PairOrEnd, Token::CloseMap) | (Goal::NextPair, Token::CloseMap) => Ok(true),
        (Goal::PairOrEnd, Token::Key(_)) | (Goal::Pair, Token::Key(_)) => {
            goals.push(Goal::NextPair)?;
            goals.push(Goal::Value)?;
            Ok(true)
        }
        (Goal::NextPair, Token::Comma) => {
            goals.push(Goal::Pair)?;
            Ok(true)
        }
        _ => Ok(false),
    }
}

/// Whether the text is a value as a whole, whatever its scalars and keys are.
fn is_flow(alloc: Global, text: &[u8]) -> Result<bool, YamlError>
    requires ascii { IsAscii text.now }
    requires short { length text.now < 2 ^ 32 }
    ensures { Gives (spec.answers_flow text.now) result }
{
    let mut goals = Items::new(alloc);
    goals.push(Goal::Value)?;
    let mut pieces = Pieces::new(text);
    for _turn in 0..text.len() {
        let Some(goal) = goals.pop() else {
            return Ok(pieces.is_empty());
        };
        let token = pieces.take();
        if !meet(&mut goals, goal, token)? {
            return Ok(false);
        }
    }
    if goals.is_empty() {
        Ok(pieces.is_empty())
    } else {
        Ok(false)
    }
}

/// A scalar as a node of the tree.
#[tactic(auto, unfolding(crate::specs::Flow::scalar))]
fn scalar(alloc: Global, line: u32, words: &Words<'_>) -> Result<Tree, YamlError>
    ensures { Gives (spec.scalar line words.now) result }
{
    if let Some(kind) = scalar_fault(words) {
        return Err(YamlError::Fault(YamlFault { line, kind }));
    }
    Ok(Tree {
        line,
        value: Value::Scalar(owned(alloc, words.text())?),
    })
}

/// A text of its own with these bytes.
fn owned(alloc: Global, bytes: &[u8]) -> Result<Text, YamlError>
    requires ascii { IsAscii bytes.now }
    requires short { length bytes.now < 2 ^ 32 }
    ensures { Gives (spec.as_text bytes.now) result }
{
    match str::from_utf8(bytes) {
        Ok(text) => Ok(Text::new(alloc, text)?),
        Err(_) => unreachable!(),
    }
}

/// Whether the map may have this key.
#[tactic(auto, unfolding(crate::specs::Flow::new_key))]
fn claim<'a>(keys: &mut Keys<'a>, line: u32, words: &Words<'a>) -> Result<(), YamlError>
    ensures value { Gives (spec.new_key line keys.old words.now) result }
    ensures keys { OnOk result (SameKeys keys.new (keys.old ++ words.now.text ∷ [])) }
{
    if let Some(kind) = key_fault(words) {
        return Err(YamlError::Fault(YamlFault { line, kind }));
    }
    if !keys.add(words.text())? {
        return Err(YamlError::Fault(YamlFault {
            line,
            kind: YamlKind::DuplicateKey,
        }));
    }
    Ok(())
}

/// The key that a piece has to be, or this fault where it isn't one.
pub fn key<'a>(
    keys: &mut Keys<'a>,
    line: u32,
    other: YamlKind,
    token: Token<'a>,
) -> Result<Words<'a>, YamlError>
    ensures value { Gives (spec.key line other keys.old token.entry) result }
    ensures keys { IfOk result (λ words. SameKeys keys.new (keys.old ++ words.text ∷ [])) }
{
    match token {
        Token::Key(words) => {
            claim(keys, line, &words)?;
            Ok(words)
        }
        _ => Err(YamlError::Fault(YamlFault { line, kind: other })),
    }
}

/// A pair with a key of its own.
pub fn pair(alloc: Global, line: u32, words: &Words<'_>, value: Tree) -> Result<Pair, YamlError>
    ensures { Gives (spec.as_pair line words.now.text value) result }
{
    Ok(Pair {
        key: owned(alloc, words.text())?,
        line,
        value,
    })
}

/// Reads what stands inside lists and maps by a function that it is given, so that each rule is
/// proved by itself.
#[derive(Clone, Copy)]
struct Reader<F> {
    alloc: Global,
    /// How many lists and maps may still be opened.
    depth: usize,
    line: u32,
    value: F,
}

impl<F: Fn(Global, usize, u32, &mut Pieces<'_>) -> Result<Tree, YamlError>> Reader<F> {
    fn value(&self, pieces: &mut Pieces<'_>) -> Result<Tree, YamlError>
        requires { Nests self.now.depth self.now.line (F.pre self.now.value) (F.post self.now.value) }
        ensures { Reads (spec.value self.now.line self.now.depth pieces.old) result pieces.new }
    {
        (self.value)(self.alloc, self.depth, self.line, pieces)
    }

    /// Items up to the end of the list.
    fn items(&self, pieces: &mut Pieces<'_>) -> Result<Items<Tree>, YamlError>
        requires { Nests self.now.depth self.now.line (F.pre self.now.value) (F.post self.now.value) }
        ensures { Reads (spec.items_from self.now.line (spec.value self.now.line self.now.depth) (length pieces.old) [] pieces.old) result pieces.new }
    {
        let mut found = Items::new(self.alloc);
        for _turn in 0..pieces.left() {
            found.push(self.value(pieces)?)?;
            match pieces.take() {
                Token::Comma => {}
                Token::CloseList => return Ok(found),
                _ => return Err(self.refuse(YamlKind::Flow)),
            }
        }
        Err(self.refuse(YamlKind::Flow))
    }

    /// Pairs up to the end of the map.
    fn pairs(&self, pieces: &mut Pieces<'_>) -> Result<Items<Pair>, YamlError>
        requires { Nests self.now.depth self.now.line (F.pre self.now.value) (F.post self.now.value) }
        ensures { Reads (spec.pairs_from self.now.line (spec.value self.now.line self.now.depth) (length pieces.old) [] [] pieces.old) result pieces.new }
    {
        let mut keys = Keys::new(self.alloc);
        let mut found = Items::new(self.alloc);
        for _turn in 0..pieces.left() {
            let words = key(&mut keys, self.line, YamlKind::Flow, pieces.take())?;
            let value = self.value(pieces)?;
            found.push(pair(self.alloc, self.line, &words, value)?)?;
            match pieces.take() {
                Token::Comma => {}
                Token::CloseMap => return Ok(found),
                _ => return Err(self.refuse(YamlKind::Flow)),
            }
        }
        Err(self.refuse(YamlKind::Flow))
    }

    /// Behind `[`.
    fn list(&self, pieces: &mut Pieces<'_>) -> Result<Items<Tree>, YamlError>
        requires { Nests self.now.depth self.now.line (F.pre self.now.value) (F.post self.now.value) }
        ensures { Reads (spec.items self.now.line (spec.value self.now.line self.now.depth) pieces.old) result pieces.new }
    {
        if let Token::CloseList = pieces.peek() {
            pieces.take();
            return Ok(Items::new(self.alloc));
        }
        self.items(pieces)
    }

    /// Behind `{`.
    fn map(&self, pieces: &mut Pieces<'_>) -> Result<Items<Pair>, YamlError>
        requires { Nests self.now.depth self.now.line (F.pre self.now.value) (F.post self.now.value) }
        ensures { Reads (spec.pairs self.now.line (spec.value self.now.line self.now.depth) pieces.old) result pieces.new }
    {
        if let Token::CloseMap = pieces.peek() {
            pieces.take();
            return Ok(Items::new(self.alloc));
        }
        self.pairs(pieces)
    }

    /// A value with one more list or map around it.
    fn nested(&self, pieces: &mut Pieces<'_>) -> Result<Tree, YamlError>
        requires { Nests self.now.depth self.now.line (F.pre self.now.value) (F.post self.now.value) }
        ensures { Reads (spec.value self.now.line (self.now.depth + 1) pieces.old) result pieces.new }
    {
        let line = self.line;
        match pieces.take() {
            Token::Scalar(words) => scalar(self.alloc, line, &words),
            Token::OpenList => Ok(Tree {
                line,
                value: Value::List(self.list(pieces)?),
            }),
            Token::OpenMap => Ok(Tree {
                line,
                value: Value::Map(self.map(pieces)?),
            }),
            _ => Err(self.refuse(YamlKind::Flow)),
        }
    }

    fn refuse(&self, kind: YamlKind) -> YamlError
        ensures { result ≡ Fault (record { line = self.now.line; kind = kind }) }
    {
        YamlError::Fault(YamlFault {
            line: self.line,
            kind,
        })
    }
}

/// A value where no list and no map may be opened.
fn shallow(alloc: Global, line: u32, pieces: &mut Pieces<'_>) -> Result<Tree, YamlError>
    ensures { Reads (spec.value line 0 pieces.old) result pieces.new }
{
    match pieces.take() {
        Token::Scalar(words) => scalar(alloc, line, &words),
        Token::OpenList | Token::OpenMap => Err(YamlError::Fault(YamlFault {
            line,
            kind: YamlKind::TooDeep,
        })),
        _ => Err(YamlError::Fault(YamlFault {
            line,
            kind: YamlKind::Flow,
        })),
    }
}

/// A value with lists and maps no deeper than `depth`.
fn value(alloc: Global, depth: usize, line: u32, pieces: &mut Pieces<'_>) -> Result<Tree, YamlError>
    ensures { Reads (spec.value line depth pieces.old) result pieces.new }
{
    if depth == 0 {
        return shallow(alloc, line, pieces);
    }
    Reader {
        alloc,
        depth: depth - 1,
        line,
        value,
    }
    .nested(pieces)
}

/// A text that must be a value on one line, with lists and maps no deeper than `depth`.
///
/// # Errors
///
/// The first fault of the text, or that memory was refused.
#[tactic(auto, unfolding(crate::specs::Flow::flow))]
pub fn flow(alloc: Global, depth: usize, line: u32, text: &[u8]) -> Result<Tree, YamlError>
    requires ascii { IsAscii text.now }
    requires short { length text.now < 2 ^ 32 }
    ensures { Gives (spec.flow line depth text.now) result }
{
    if is_indicator(text) {
        return Err(YamlError::Fault(YamlFault {
            line,
            kind: YamlKind::Indicator,
        }));
    }
    if !is_flow(alloc, text)? {
        return Err(YamlError::Fault(YamlFault {
            line,
            kind: YamlKind::Flow,
        }));
    }
    let mut pieces = Pieces::new(text);
    value(alloc, depth, line, &mut pieces)
}
