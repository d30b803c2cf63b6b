//! What the grammar sees of a token.
ghost use Rattle.std.specs.{Prelude.{◌≡◌, ◌↔◌, true, List}, List.{Contains}};
ghost use Rattle.fb_grammar.specs.{declared.kind.Kind.{Kind}, Kind.{code_of, is_among}};

/// What the grammar sees of a token: a reserved word, a symbol, or a class of the other words and literals.
#[derive(Clone, Copy, Debug, PartialEq, Eq)]
pub enum Kind {
    // units
    FunctionBlock,
    EndFunctionBlock,
    Adapter,
    EndAdapter,
    Subapplication,
    EndSubapplication,
    System,
    EndSystem,
    Application,
    EndApplication,
    Device,
    EndDevice,
    Resource,
    EndResource,
    Mappings,
    EndMappings,
    // interfaces
    EventInput,
    EventOutput,
    EndEvent,
    Var,
    VarInput,
    VarOutput,
    EndVar,
    Plugs,
    EndPlugs,
    Sockets,
    EndSockets,
    // networks
    Fbs,
    EndFbs,
    Subapps,
    EndSubapps,
    EventConnections,
    DataConnections,
    AdapterConnections,
    EndConnections,
    // charts
    EcStates,
    EndStates,
    EcTransitions,
    EndTransitions,
    Algorithm,
    EndAlgorithm,
    Service,
    EndService,
    With,
    To,
    Array,
    Of,
    // statements
    If,
    Then,
    Elsif,
    Else,
    EndIf,
    Case,
    EndCase,
    For,
    By,
    Do,
    EndFor,
    While,
    EndWhile,
    Repeat,
    Until,
    EndRepeat,
    Exit,
    Return,
    // expressions
    And,
    Or,
    Xor,
    Not,
    Mod,
    True,
    False,
    // names: those spelled IN, ON and ST, and all others
    NameIn,
    NameOn,
    NameSt,
    Name,
    // literals: the numbers `0` and `1`, other whole or based numbers, numbers with a point
    Zero,
    One,
    Number,
    RealNumber,
    // typed literals, by the class of their type
    TypedTruth,
    TypedInteger,
    TypedBits,
    TypedFree,
    TypedOther,
    // strings
    Text,
    // symbols
    Assign,
    LessEqual,
    GreaterEqual,
    NotEqual,
    Power,
    Arrow,
    Range,
    Semicolon,
    Colon,
    Comma,
    Point,
    OpenParenthesis,
    CloseParenthesis,
    OpenBracket,
    CloseBracket,
    Equal,
    Less,
    Greater,
    Plus,
    Minus,
    Times,
    Divide,
    Ampersand,
    Other,
    // structures
    TypeWord,
    EndType,
    Struct,
    EndStruct,
    // after all tokens: the end of the text, or a comment that is never closed
    End,
    NeverClosed,
}

impl Kind {
    /// Its place in the list of kinds.
    pub fn code(self) -> u8
        ensures { result ≡ code_of self }
    {
        self as u8
    }

    /// Whether this is one of the kinds.
    pub fn is_among(self, kinds: &[Kind]) -> bool
        ensures { result ≡ is_among kinds.now self }
    {
        kinds.iter().any(|kind| kind.code() == self.code())
    }
}

/// Each kind has its own number, so `is_among` finds exactly the members of a list.
pub fn own_numbers()
    ensures own { (a b : Kind) → code_of a ≡ code_of b → a ≡ b }
    ensures members { (kinds : List Kind) (kind : Kind) → (is_among kinds kind ≡ true)
        ↔ Contains kinds kind }
{}
