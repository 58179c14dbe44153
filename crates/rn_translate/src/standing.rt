// Where a pattern or a name class stands in the compact text, and what is written round it.
ghost use Rattle.std.specs.Prelude.{◌≡◌, ◌++◌, ◌&&◌, [], None, nat_le, not};
ghost use Rattle.rn_translate.specs.Layouts.{around, is_alone, is_tight, needs_parentheses, operands, operator_term, then_behind};
ghost use Rattle.rn_translate.specs.Translation.{before_child, behind_child, standing_of};
ghost use Rattle.rn_translate.specs.inside.Meanings.{class_meant, layout_meant, sign_terms};

use crate::signs::Sign;

/// An operator between patterns or name classes.
#[derive(Clone, Copy, Debug, PartialEq, Eq)]
pub(crate) enum Operator {
    /// `,`, of a group.
    Comma,
    /// `&`, of an interleave.
    Ampersand,
    /// `|`, of a choice.
    Bar,
}

impl Operator {
    /// The sign that stands between operands.
    pub fn sign(self) -> Sign
        ensures { sign_terms result ≡ operator_term self }
    {
        match self {
            Operator::Comma => Sign::Comma,
            Operator::Ampersand => Sign::Ampersand,
            Operator::Bar => Sign::Bar,
        }
    }
}

/// Where a pattern or a name class stands.
#[derive(Clone, Copy, Debug, PartialEq, Eq)]
pub(crate) enum Standing {
    /// Between braces, or alone: it needs no parentheses.
    Alone,
    /// Beside such an operator: with others it needs parentheses.
    Beside(Operator),
    /// Before `?`, `*` or `+`, or behind `-`: with any operator it needs parentheses.
    Tight,
}

impl Standing {
    /// Whether what has this operator needs parentheses.
    pub fn needs_parentheses(self, operator: Operator) -> bool
        ensures { result ≡ needs_parentheses self operator }
    {
        match self {
            Standing::Alone => false,
            Standing::Beside(around) => around != operator,
            Standing::Tight => true,
        }
    }

    /// Whether so many operands of this operator need parentheses.
    pub fn parts(self, operator: Operator, count: usize) -> bool
        ensures { result ≡ (not (nat_le count 1) && needs_parentheses self operator) }
    {
        count > 1 && self.needs_parentheses(operator)
    }

    /// Whether it stands before a sign of repetition, or behind `-`.
    pub fn is_tight(self) -> bool
        ensures { result ≡ is_tight self }
    {
        matches!(self, Standing::Tight)
    }

    /// Whether it needs no parentheses.
    pub fn is_alone(self) -> bool
        ensures { result ≡ is_alone self }
    {
        matches!(self, Standing::Alone)
    }
}

/// How the children of an element stand, and what is written between and behind them.
#[derive(Clone, Copy, Debug)]
pub(crate) struct Layout {
    /// What comes after the name class that the children begin with; nothing if they begin with none.
    pub class: Sign,
    /// Where the children stand, but for that name class.
    pub standing: Standing,
    /// What is written between them.
    pub separator: Sign,
    /// What closes them.
    pub inner: Sign,
    /// What comes after that.
    pub closing: Sign,
    /// What comes last.
    pub outer: Sign,
}

impl Layout {
    /// Children of this standing one after the other, and behind them this sign.
    pub fn around(standing: Standing, closing: Sign) -> Layout
        ensures meant { layout_meant result ≡ record {
          class = None;
          standing = standing;
          separator = [];
          behind = sign_terms closing;
        } }
        ensures closing { result.closing ≡ closing }
        ensures outer { result.outer ≡ Sign.Nothing }
    {
        Layout {
            class: Sign::Nothing,
            standing,
            separator: Sign::Nothing,
            inner: Sign::Nothing,
            closing,
            outer: Sign::Nothing,
        }
    }

    /// No children.
    pub fn none() -> Layout
        ensures { layout_meant result ≡ around [] }
    {
        Layout::around(Standing::Alone, Sign::Nothing)
    }

    /// These signs behind what closes the children.
    pub fn then(self, closing: Sign, outer: Sign) -> Layout
        requires closing { self.closing ≡ Sign.Nothing }
        requires outer { self.outer ≡ Sign.Nothing }
        ensures { layout_meant result ≡ then_behind (layout_meant self)
            (sign_terms closing ++ sign_terms outer) }
    {
        Layout {
            class: self.class,
            standing: self.standing,
            separator: self.separator,
            inner: self.inner,
            closing,
            outer,
        }
    }

    /// So many operands of an operator at a standing: of one alone, no more than that.
    pub fn operands(standing: Standing, operator: Operator, count: usize) -> Layout
        ensures meant { layout_meant result ≡ operands standing operator count }
        ensures closing { result.closing ≡ Sign.Nothing }
        ensures outer { result.outer ≡ Sign.Nothing }
    {
        if count <= 1 {
            return Layout::around(standing, Sign::Nothing);
        }
        let inner = if standing.needs_parentheses(operator) {
            Sign::CloseParenthesis
        } else {
            Sign::Nothing
        };
        Layout {
            class: Sign::Nothing,
            standing: Standing::Beside(operator),
            separator: operator.sign(),
            inner,
            closing: Sign::Nothing,
            outer: Sign::Nothing,
        }
    }

    /// Where a child after so many others stands.
    pub fn standing_of(self, before: usize) -> Standing
        ensures { result ≡ standing_of (class_meant self.class) self.standing before }
    {
        if before == 0 && self.class != Sign::Nothing {
            return Standing::Alone;
        }
        self.standing
    }

    /// What is written before a child after so many others.
    pub fn before(self, before: usize) -> Sign
        ensures { sign_terms result ≡ before_child (class_meant self.class)
            (sign_terms self.separator) before }
    {
        let without = if self.class == Sign::Nothing { 0 } else { 1 };
        if before > without {
            self.separator
        } else {
            Sign::Nothing
        }
    }

    /// What is written behind a child after so many others.
    pub fn behind(self, before: usize) -> Sign
        ensures { sign_terms result ≡ behind_child (class_meant self.class) before }
    {
        if before == 0 {
            self.class
        } else {
            Sign::Nothing
        }
    }
}
