//! The reader of values.

ghost use Rattle.std.specs.Prelude.{◌≡◌, ◌<◌, ◌≤◌, ◌^◌, ◌+◌, ◌∷◌, [], ◌++◌, ℕ, List, Bool, true, false, IsTrue, length, slice_range, IfOk, OnOk, IfErr, MatchOption, MatchResult, Some, None, is_some};
ghost use Rattle.text_tokens.specs.declared.faults.TextKind.TheVariants.{BadExpression, TooDeep};
ghost use Rattle.text_tokens.specs.Tokens.{Token, tokens_of};
ghost use Rattle.text_tokens.specs.Pieces.{token_of, placed_piece, rest_from};
ghost use Rattle.text_tokens.specs.Names.{is_among};
ghost use Rattle.text_tokens.specs.Faults.{tokens_in, CanGoOn, IsAtFault, IsBlameless, IfFault};
ghost use Rattle.rational_expressions.specs.Values.{IsValue, IsValueFault, IsValueText, value_blame, number_blame, place_of};
ghost use Rattle.rational_expressions.specs.ValueReader.{Context, advance};
ghost use Rattle.rational_expressions.specs.ValueItems.{HasRead, product_items, sum_items};

use crate::expressions::{Expression, Item};
use out_of_memory::OutOfMemory;
use std::alloc::Global;
use text_tokens::{Kind, Name, Piece, TextError, TextFault, TextKind, next_piece, number_value};

/// What may come next in the innermost sum.
#[derive(Clone, Copy, Debug, PartialEq, Eq)]
enum Mode {
    /// An atom; `true` where a first sign may come too.
    BeforeAtom(bool),
    /// The number behind `^`.
    BeforeExponent,
    /// What goes on behind a power; `true` where it is a mere atom, which may still be raised.
    Behind(bool),
}

/// What the product that is read does with the sum before it. A first `+` does nothing.
#[derive(Clone, Copy, Debug, PartialEq, Eq)]
enum SumMark {
    Nothing,
    Negate,
    Add,
    Subtract,
}

/// What the power that is read does with the product before it. A division has the offset of its `/`.
#[derive(Clone, Copy, Debug, PartialEq, Eq)]
enum ProductMark {
    Nothing,
    Multiply,
    Divide(u32),
}

/// A sum that goes on.
#[derive(Clone, Copy, Debug, PartialEq, Eq)]
struct Level {
    sum: SumMark,
    product: ProductMark,
}

/// What the reader does with a token. A sign says whether it is `-`.
#[derive(Clone, Copy, Debug)]
enum Action {
    Operand(Item),
    Exponent(u8),
    Open,
    Close,
    Sign(bool),
    Factor(ProductMark),
    Raise,
}

/// The innermost sum, the sums around it from the outermost on, the items so far, and how many signs
/// were read.
#[derive(Debug, Drop)]
struct Reader {
    mode: Mode,
    level: Level,
    outer: Vec<Level>,
    items: Vec<Item>,
    signs: u32,
}

const NEW_LEVEL: Level = Level {
    sum: SumMark::Nothing,
    product: ProductMark::Nothing,
};

/// Adds the operation that ends a product.
fn push_product(items: &mut Vec<Item>, mark: ProductMark) -> Result<(), OutOfMemory>
    ensures { OnOk result (items.new.items ≡ items.old.items ++ product_items mark) }
{
    match mark {
        ProductMark::Nothing => {}
        ProductMark::Multiply => items.push(Item::Multiply)?,
        ProductMark::Divide(at) => items.push(Item::Divide(at))?,
    }
    Ok(())
}

/// Adds the operations that end a product and the sum around it.
fn push_sum(items: &mut Vec<Item>, level: Level) -> Result<(), OutOfMemory>
    ensures { OnOk result (items.new.items ≡ items.old.items ++ (product_items level.product ++ sum_items level.sum)) }
{
    push_product(items, level.product)?;
    match level.sum {
        SumMark::Nothing => {}
        SumMark::Negate => items.push(Item::Negate)?,
        SumMark::Add => items.push(Item::Add)?,
        SumMark::Subtract => items.push(Item::Subtract)?,
    }
    Ok(())
}

/// The place of the first name with these bytes. None exactly where there is none.
fn place_of(names: &[Name], word: &[u8]) -> Option<u32>
    requires { length names.now < 2 ^ 32 }
    ensures { MatchOption result (is_among names.now word.now ≡ false) (λ i. (is_among names.now word.now ≡ true) × (i ≡ place_of names.now word.now)) }
{
    for i in 0..names.len() {
        if names[i].as_str().as_bytes() == word {
            return Some(i as u32);
        }
    }
    None
}

impl Reader {
    ghost use Rattle.rational_expressions.specs.declared.value_reader.Action.TheVariants as action;
    ghost use Rattle.rational_expressions.specs.ValueItems.{HasRead, HasDone, accepts_of, is_whole_at, product_items, sum_items, action_of, number_action, sign_action, is_exponent_mode};

    /// A reader that has read nothing.
    fn new(alloc: Global) -> Reader
        ensures { (names : List (List ℕ)) → HasRead names [] result }
    {
        Reader {
            mode: Mode::BeforeAtom(true),
            level: NEW_LEVEL,
            outer: Vec::new(alloc),
            items: Vec::new(alloc),
            signs: 0,
        }
    }

    /// Whether what was read is a whole value.
    fn is_whole(&self) -> bool
        ensures { result ≡ is_whole_at self.now.mode self.now.outer.items }
    {
        match self.mode {
            Mode::Behind(_) => self.outer.is_empty(),
            _ => false,
        }
    }

    /// All items, with the operations that wait.
    fn into_items(self) -> Result<Vec<Item>, OutOfMemory>
        ensures { IfOk result (λ v. v.items ≡ self.items.items ++ (product_items self.level.product ++ sum_items self.level.sum)) }
    {
        let Reader {
            mode: _,
            level,
            outer: _,
            mut items,
            signs: _,
        } = self;
        push_sum(&mut items, level)?;
        Ok(items)
    }

    /// Whether a value may go on with a token of this kind.
    fn accepts(&self, kind: Kind) -> bool
        ensures { result ≡ accepts_of self.now.mode self.now.outer.items kind }
    {
        match self.mode {
            Mode::BeforeAtom(sign_allowed) => match kind {
                Kind::Number | Kind::Name | Kind::Opening => true,
                Kind::Plus | Kind::Minus => sign_allowed,
                _ => false,
            },
            Mode::BeforeExponent => match kind {
                Kind::Number => true,
                _ => false,
            },
            Mode::Behind(power_allowed) => match kind {
                Kind::Plus | Kind::Minus | Kind::Star | Kind::Slash => true,
                Kind::Caret => power_allowed,
                Kind::Closing => !self.outer.is_empty(),
                _ => false,
            },
        }
    }

    /// Takes a number or a name.
    fn operand(&mut self, item: Item) -> Result<(), OutOfMemory>
        ensures { OnOk result (HasDone (action.Operand item) self.old self.new) }
    {
        self.items.push(item)?;
        self.mode = Mode::Behind(true);
        Ok(())
    }

    /// Takes an exponent.
    fn exponent(&mut self, exponent: u8) -> Result<(), OutOfMemory>
        ensures { OnOk result (HasDone (action.Exponent exponent) self.old self.new) }
    {
        self.items.push(Item::Power(exponent))?;
        self.mode = Mode::Behind(false);
        Ok(())
    }

    /// Takes `(`.
    fn open(&mut self) -> Result<(), OutOfMemory>
        ensures { OnOk result (HasDone action.Open self.old self.new) }
    {
        self.outer.push(self.level)?;
        self.level = NEW_LEVEL;
        self.mode = Mode::BeforeAtom(true);
        Ok(())
    }

    /// Takes `)`.
    fn close(&mut self) -> Result<(), OutOfMemory>
        ensures { OnOk result (HasDone action.Close self.old self.new) }
    {
        push_sum(&mut self.items, self.level)?;
        if let Some(level) = self.outer.pop() {
            self.level = level;
        }
        self.mode = Mode::Behind(true);
        Ok(())
    }

    /// Takes `+` or `-`.
    fn sign(&mut self, is_minus: bool) -> Result<(), OutOfMemory>
        requires { self.old.signs ≤ 1000 }
        ensures { OnOk result (HasDone (action.Sign is_minus) self.old self.new) }
    {
        let sum = match self.mode {
            Mode::BeforeAtom(_) => {
                if is_minus {
                    SumMark::Negate
                } else {
                    SumMark::Nothing
                }
            }
            _ => {
                push_sum(&mut self.items, self.level)?;
                if is_minus {
                    SumMark::Subtract
                } else {
                    SumMark::Add
                }
            }
        };
        self.level = Level {
            sum,
            product: ProductMark::Nothing,
        };
        self.mode = Mode::BeforeAtom(false);
        self.signs += 1;
        Ok(())
    }

    /// Takes `*` or `/`.
    fn factor(&mut self, mark: ProductMark) -> Result<(), OutOfMemory>
        requires { self.old.signs ≤ 1000 }
        ensures { OnOk result (HasDone (action.Factor mark) self.old self.new) }
    {
        push_product(&mut self.items, self.level.product)?;
        self.level = Level {
            sum: self.level.sum,
            product: mark,
        };
        self.mode = Mode::BeforeAtom(false);
        self.signs += 1;
        Ok(())
    }

    /// Takes `^`.
    fn raise(&mut self)
        requires { self.old.signs ≤ 1000 }
        ensures { HasDone action.Raise self.old self.new }
    {
        self.mode = Mode::BeforeExponent;
        self.signs += 1;
    }

    /// Does an action; on a refusal the reader is to be dropped.
    fn perform(&mut self, action: Action) -> Result<(), OutOfMemory>
        requires { self.old.signs ≤ 1000 }
        ensures { OnOk result (HasDone action self.old self.new) }
    {
        match action {
            Action::Operand(item) => self.operand(item),
            Action::Exponent(exponent) => self.exponent(exponent),
            Action::Open => self.open(),
            Action::Close => self.close(),
            Action::Sign(is_minus) => self.sign(is_minus),
            Action::Factor(mark) => self.factor(mark),
            Action::Raise => {
                self.raise();
                Ok(())
            }
        }
    }

    /// What a number does: it is an operand, or an exponent of at most 64.
    fn number_action(&self, digits: &[u8]) -> Result<Action, TextKind>
        ensures ok { IfOk result (λ a. (number_blame (is_exponent_mode self.now.mode) digits.now ≡ None) × (a ≡ number_action (is_exponent_mode self.now.mode) digits.now)) }
        ensures fault { IfErr result (λ k. number_blame (is_exponent_mode self.now.mode) digits.now ≡ Some k) }
    {
        let Some(number) = number_value(digits) else {
            return Err(TextKind::NumberTooWide);
        };
        match self.mode {
            Mode::BeforeExponent => {
                if number > 64 {
                    return Err(TextKind::OutOfRange);
                }
                Ok(Action::Exponent(number as u8))
            }
            _ => Ok(Action::Operand(Item::Number(number))),
        }
    }

    /// What a sign does, of which there are at most 1000.
    fn sign_action(&self, kind: Kind, at: u32) -> Result<Action, TextKind>
        ensures ok { OnOk result (self.now.signs < 1000) }
        ensures action { IfOk result (λ a. a ≡ sign_action kind at) }
        ensures fault { IfErr result (λ k. (1000 ≤ self.now.signs) × (k ≡ TooDeep)) }
    {
        if self.signs >= 1000 {
            return Err(TextKind::TooDeep);
        }
        Ok(match kind {
            Kind::Plus => Action::Sign(false),
            Kind::Minus => Action::Sign(true),
            Kind::Star => Action::Factor(ProductMark::Multiply),
            Kind::Slash => Action::Factor(ProductMark::Divide(at)),
            _ => Action::Raise,
        })
    }

    /// What an accepted token does, or what it is blamed for.
    fn action(&self, bytes: &[u8], piece: Piece, names: &[Name]) -> Result<Action, TextKind>
        requires begins { piece.at ≤ piece.end }
        requires ends { piece.end ≤ length bytes.now }
        requires size { length bytes.now < 2 ^ 32 }
        requires few { length names.now < 2 ^ 32 }
        ensures ok { let token = (placed_piece bytes.now piece).token in
            IfOk result (λ a. (before later : List Token) (h : HasRead names.now before self.now) →
            (value_blame names.now before token later ≡ None) × (a ≡ action_of names.now h.context.place token)) }
        ensures fault { IfErr result (λ k. (before later : List Token) → HasRead names.now before self.now →
            value_blame names.now before (placed_piece bytes.now piece).token later ≡ Some k) }
    {
        let token = &bytes[piece.at..piece.end];
        match piece.kind {
            Kind::Number => self.number_action(token),
            Kind::Name => match place_of(names, token) {
                Some(place) => Ok(Action::Operand(Item::Place(place))),
                None => Err(TextKind::UnknownName),
            },
            Kind::Opening => {
                if self.outer.len() >= 32 {
                    return Err(TextKind::TooDeep);
                }
                Ok(Action::Open)
            }
            Kind::Closing => Ok(Action::Close),
            // No value goes on with it, so it isn't accepted.
            Kind::Other => Ok(Action::Raise),
            _ => self.sign_action(piece.kind, piece.at as u32),
        }
    }

    /// Takes a token. The fault is the one that the token has at its place.
    fn take(&mut self, bytes: &[u8], piece: Piece, names: &[Name]) -> Result<(), TextError>
        requires begins { piece.at ≤ piece.end }
        requires ends { piece.end ≤ length bytes.now }
        requires size { length bytes.now < 2 ^ 32 }
        requires few { length names.now < 2 ^ 32 }
        requires signs { self.old.signs ≤ 1000 }
        ensures ok { let token = (placed_piece bytes.now piece).token in
            OnOk result ((before later : List Token) → HasRead names.now before self.old →
            CanGoOn IsValueText (before ++ token ∷ []) × (value_blame names.now before token later ≡ None) × HasRead names.now (before ++ token ∷ []) self.new) }
        ensures fault { let token = (placed_piece bytes.now piece).token in
            IfErr result (λ e. IfFault e (λ f. (f.at ≡ piece.at) × ((before later : List Token) → HasRead names.now before self.old →
            IsAtFault IsValueText (value_blame names.now) BadExpression before token later f.kind))) }
    {
        let at = piece.at as u32;
        if !self.accepts(piece.kind) {
            return Err(TextError::Fault(TextFault {
                at,
                kind: TextKind::BadExpression,
            }));
        }
        match self.action(bytes, piece, names) {
            Ok(action) => Ok(self.perform(action)?),
            Err(kind) => Err(TextError::Fault(TextFault { at, kind })),
        }
    }
}

/// Takes all tokens of a text.
fn read_tokens(bytes: &[u8], names: &[Name], reader: &mut Reader) -> Result<(), TextError>
    requires size { length bytes.now < 2 ^ 32 }
    requires few { length names.now < 2 ^ 32 }
    requires start { HasRead names.now [] reader.old }
    ensures ok { let tokens = tokens_in (tokens_of bytes.now) in
        OnOk result (HasRead names.now tokens reader.new × IsBlameless (value_blame names.now) [] tokens) }
    ensures end { OnOk result ((IsValueText (tokens_in (tokens_of bytes.now)) → ⊥) → IsValueFault names.now bytes.now (length bytes.now) BadExpression) }
    ensures fault { IfErr result (λ e. IfFault e (λ f. IsValueFault names.now bytes.now f.at f.kind)) }
{
    let mut from = 0;
    while let Some(piece) = next_piece(bytes, from) {
        reader.take(bytes, piece, names)?;
        from = piece.end;
    }
    Ok(())
}

/// The expression that a text writes over these names: a number stands for itself, and a name for the
/// value at its first place.
///
/// The text is `[sign] product { sign product }`, a product is `power { ("*" | "/") power }`, a power is
/// `atom [ "^" number ]`, an atom is a number, a name or a text in parentheses, and spaces may stand
/// between tokens. A fault names the first token at fault, as `TextKind` says.
pub fn read_value(alloc: Global, text: &str, names: &[Name]) -> Result<Expression, TextError>
    requires size { length text.now < 2 ^ 32 }
    requires few { length names.now < 2 ^ 32 }
    ensures ok { IfOk result (λ e. IsValue names.now text.now e) }
    ensures fault { IfErr result (λ e. IfFault e (λ f. IsValueFault names.now text.now f.at f.kind)) }
{
    let mut reader = Reader::new(alloc);
    read_tokens(text.as_bytes(), names, &mut reader)?;
    if !reader.is_whole() {
        return Err(TextError::Fault(TextFault {
            at: text.len() as u32,
            kind: TextKind::BadExpression,
        }));
    }
    Ok(Expression::from_items(reader.into_items()?))
}
