//! What can be wrong with a unit.

use std::fmt;

/// What can be wrong with a unit.
#[derive(Clone, Copy, Debug, PartialEq, Eq)]
pub enum Code {
    /// The text spells no declaration.
    Syntax,
    /// The declared name is not the unit's.
    NameDiffers,
    /// A second or later declaration of a name in its name space.
    Duplicate,
    /// A block type with an execution control chart and with a network.
    MixedKind,
    /// The type of an instance, a plug or a socket is absent or broken.
    UnknownType,
    /// The type of an instance, a plug or a socket is of another kind.
    WrongKind,
    /// A name after `WITH` is no data input of an input event, no data output of an output event.
    WithUnknown,
    /// A state of a transition is not declared.
    StateUnknown,
    /// The event of a transition is not an input event, or that of an action not an output event.
    EventUnknown,
    /// The algorithm of an action is not declared.
    AlgorithmUnknown,
    /// A name in an expression is no variable.
    VariableUnknown,
    /// An operation does not suit what it is applied to.
    Class,
    /// An end of a connection names no port of the connection's sort.
    PortUnknown,
    /// An end of a connection names a port of the wrong side.
    PortSide,
    /// The ends of a connection have different types.
    DataType,
    /// The destination of a data connection has a source already.
    SecondSource,
    /// The end of an adapter connection is connected already.
    SecondAdapter,
    /// A connection of a subapplication joins two of its own ports.
    PassThrough,
    /// A parameter of an instance is no data input of its type.
    ParameterUnknown,
    /// A constant does not fit its type.
    Literal,
    /// An earlier mapping has the same path.
    MappedTwice,
    /// A mapping names no resource of the system.
    NoSuchResource,
    /// A further name of a reference is no field of the type before it.
    MemberUnknown,
    /// A structure carries itself.
    StructRecursive,
}

impl Code {
    ghost use Rattle.std.specs.Prelude.{◌≡◌};
    ghost use Rattle.fb_iface.specs.Code.{code_number, code_word};

    /// The number of the code, from 1.
    pub fn number(self) -> u8
        ensures { result ≡ code_number self }
    {
        match self {
            Code::Syntax => 1,
            Code::NameDiffers => 2,
            Code::Duplicate => 3,
            Code::MixedKind => 4,
            Code::UnknownType => 5,
            Code::WrongKind => 6,
            Code::WithUnknown => 7,
            Code::StateUnknown => 8,
            Code::EventUnknown => 9,
            Code::AlgorithmUnknown => 10,
            Code::VariableUnknown => 11,
            Code::Class => 12,
            Code::PortUnknown => 13,
            Code::PortSide => 14,
            Code::DataType => 15,
            Code::SecondSource => 16,
            Code::SecondAdapter => 17,
            Code::PassThrough => 18,
            Code::ParameterUnknown => 19,
            Code::Literal => 20,
            Code::MappedTwice => 21,
            Code::NoSuchResource => 22,
            Code::MemberUnknown => 23,
            Code::StructRecursive => 24,
        }
    }

    /// The word of the code, as `SYNTAX`.
    pub fn as_str(self) -> &'static str
        ensures { result.now ≡ code_word self }
    {
        match self {
            Code::Syntax => "SYNTAX",
            Code::NameDiffers => "NAME_DIFFERS",
            Code::Duplicate => "DUPLICATE",
            Code::MixedKind => "MIXED_KIND",
            Code::UnknownType => "UNKNOWN_TYPE",
            Code::WrongKind => "WRONG_KIND",
            Code::WithUnknown => "WITH_UNKNOWN",
            Code::StateUnknown => "STATE_UNKNOWN",
            Code::EventUnknown => "EVENT_UNKNOWN",
            Code::AlgorithmUnknown => "ALGORITHM_UNKNOWN",
            Code::VariableUnknown => "VARIABLE_UNKNOWN",
            Code::Class => "CLASS",
            Code::PortUnknown => "PORT_UNKNOWN",
            Code::PortSide => "PORT_SIDE",
            Code::DataType => "DATA_TYPE",
            Code::SecondSource => "SECOND_SOURCE",
            Code::SecondAdapter => "SECOND_ADAPTER",
            Code::PassThrough => "PASS_THROUGH",
            Code::ParameterUnknown => "PARAMETER_UNKNOWN",
            Code::Literal => "LITERAL",
            Code::MappedTwice => "MAPPED_TWICE",
            Code::NoSuchResource => "NO_SUCH_RESOURCE",
            Code::MemberUnknown => "MEMBER_UNKNOWN",
            Code::StructRecursive => "STRUCT_RECURSIVE",
        }
    }
}

impl fmt::Display for Code {
    ghost use Rattle.std.specs.Prelude.{Some};
    ghost use Rattle.fb_iface.specs.Code.{code_word};

    ghost output = { λ code. Some (code_word code) };

    fn fmt<W: fmt::Write>(&self, f: &mut fmt::Formatter<W>) -> fmt::Result {
        f.pad(self.as_str())
    }
}
