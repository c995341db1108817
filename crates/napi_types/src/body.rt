//! What a value is.
ghost use Rattle.std.specs.Prelude.{◌≡◌, Some, option_map, IsTrue};
ghost use Rattle.napi_types.specs.parts.Bodies.{kind_of, is_linked, child_of, without_child};

use crate::{Kind, TextNo, ValueId};

/// What a value is, its properties and elements aside. An array and an error are objects.
#[derive(Clone, Copy, Debug, PartialEq, Eq)]
pub enum Body {
    Undefined,
    Null,
    Boolean(bool),
    /// A whole number, from -(2^53-1) to 2^53-1.
    Number(i64),
    Bigint(i64),
    Str(TextNo),
    /// A symbol, with its description where it has one.
    Symbol(Option<TextNo>),
    Object {
        array: bool,
        error: bool,
    },
    /// A function is an entry of an addon, with a payload that its frames are given.
    Function {
        addon: u32,
        entry: u32,
        payload: u64,
    },
    External(u64),
    /// An object with at most one hidden child, which no property and no element names. The tag tells what the value is for.
    ///
    /// A child is named here where the value is made. The body of a value that is there names none: its child stands beside the body.
    Linked {
        tag: u8,
        to: Option<ValueId>,
    },
}

impl Body {
    /// The kind that `typeof` tells.
    pub fn kind(self) -> Kind
        ensures { result ≡ kind_of self }
    {
        match self {
            Body::Undefined => Kind::Undefined,
            Body::Null => Kind::Null,
            Body::Boolean(_) => Kind::Boolean,
            Body::Number(_) => Kind::Number,
            Body::Bigint(_) => Kind::Bigint,
            Body::Str(_) => Kind::String,
            Body::Symbol(_) => Kind::Symbol,
            Body::Object { .. } => Kind::Object,
            Body::Function { .. } => Kind::Function,
            Body::External(_) => Kind::External,
            Body::Linked { .. } => Kind::Object,
        }
    }

    /// The hidden child that is named here, `None` exactly where none is.
    pub fn child(self) -> Option<ValueId>
        ensures { option_map (λ v. v.0) result ≡ child_of self }
    {
        match self {
            Body::Linked { to, .. } => to,
            _ => None,
        }
    }

    /// The same, with no child named.
    pub fn without_child(self) -> Body
        ensures { result ≡ without_child self }
    {
        match self {
            Body::Linked { tag, .. } => Body::Linked { tag, to: None },
            other => other,
        }
    }

    /// The same, with this child named.
    pub fn with_child(self, to: ValueId) -> Body
        requires { IsTrue (is_linked self) }
        ensures child { child_of result ≡ Some to.0 }
        ensures rest { without_child result ≡ without_child self }
    {
        match self {
            Body::Linked { tag, .. } => Body::Linked { tag, to: Some(to) },
            other => other,
        }
    }
}
