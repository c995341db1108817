//! Statuses and value kinds, with the numbers of the Node-API manual.
ghost use Rattle.std.specs.Prelude.{◌≡◌, IfSome, IfNone, ℕ};
ghost use Rattle.napi_types.specs.plain.Numbers.{status_number, kind_number};

/// What a call answers: the manual's `napi_status`, and two of this project's own.
///
/// `NoMemory` (1000) and `TraceFull` (1001) say that a call stopped. They leave no entry.
#[derive(Clone, Copy, Debug, PartialEq, Eq)]
pub enum Status {
    Ok,
    InvalidArg,
    ObjectExpected,
    StringExpected,
    NameExpected,
    FunctionExpected,
    NumberExpected,
    BooleanExpected,
    ArrayExpected,
    GenericFailure,
    PendingException,
    Cancelled,
    EscapeCalledTwice,
    HandleScopeMismatch,
    CallbackScopeMismatch,
    QueueFull,
    Closing,
    BigintExpected,
    DateExpected,
    ArraybufferExpected,
    DetachableArraybufferExpected,
    WouldDeadlock,
    NoExternalBuffersAllowed,
    CannotRunJs,
    NoMemory,
    TraceFull,
}

impl Status {
    /// The number of `napi_status`; 1000 and 1001 for the two of this project's own.
    pub fn number(self) -> u16
        ensures { result ≡ status_number self }
    {
        match self {
            Status::Ok => 0,
            Status::InvalidArg => 1,
            Status::ObjectExpected => 2,
            Status::StringExpected => 3,
            Status::NameExpected => 4,
            Status::FunctionExpected => 5,
            Status::NumberExpected => 6,
            Status::BooleanExpected => 7,
            Status::ArrayExpected => 8,
            Status::GenericFailure => 9,
            Status::PendingException => 10,
            Status::Cancelled => 11,
            Status::EscapeCalledTwice => 12,
            Status::HandleScopeMismatch => 13,
            Status::CallbackScopeMismatch => 14,
            Status::QueueFull => 15,
            Status::Closing => 16,
            Status::BigintExpected => 17,
            Status::DateExpected => 18,
            Status::ArraybufferExpected => 19,
            Status::DetachableArraybufferExpected => 20,
            Status::WouldDeadlock => 21,
            Status::NoExternalBuffersAllowed => 22,
            Status::CannotRunJs => 23,
            Status::NoMemory => 1000,
            Status::TraceFull => 1001,
        }
    }

    /// The status of a number, `None` exactly outside the 26 numbers.
    pub fn from_number(n: u16) -> Option<Status>
        ensures some { IfSome result (λ status. status_number status ≡ n) }
        ensures none { IfNone result ((status : Status) → status_number status ≡ n → ⊥) }
    {
        match n {
            0 => Some(Status::Ok),
            1 => Some(Status::InvalidArg),
            2 => Some(Status::ObjectExpected),
            3 => Some(Status::StringExpected),
            4 => Some(Status::NameExpected),
            5 => Some(Status::FunctionExpected),
            6 => Some(Status::NumberExpected),
            7 => Some(Status::BooleanExpected),
            8 => Some(Status::ArrayExpected),
            9 => Some(Status::GenericFailure),
            10 => Some(Status::PendingException),
            11 => Some(Status::Cancelled),
            12 => Some(Status::EscapeCalledTwice),
            13 => Some(Status::HandleScopeMismatch),
            14 => Some(Status::CallbackScopeMismatch),
            15 => Some(Status::QueueFull),
            16 => Some(Status::Closing),
            17 => Some(Status::BigintExpected),
            18 => Some(Status::DateExpected),
            19 => Some(Status::ArraybufferExpected),
            20 => Some(Status::DetachableArraybufferExpected),
            21 => Some(Status::WouldDeadlock),
            22 => Some(Status::NoExternalBuffersAllowed),
            23 => Some(Status::CannotRunJs),
            1000 => Some(Status::NoMemory),
            1001 => Some(Status::TraceFull),
            _ => None,
        }
    }
}

/// The kind of a value, the manual's `napi_valuetype`. An array is an object.
#[derive(Clone, Copy, Debug, PartialEq, Eq)]
pub enum Kind {
    Undefined,
    Null,
    Boolean,
    Number,
    String,
    Symbol,
    Object,
    Function,
    External,
    Bigint,
}

impl Kind {
    /// The number of `napi_valuetype`, from 0 to 9.
    pub fn number(self) -> u8
        ensures { result ≡ kind_number self }
    {
        match self {
            Kind::Undefined => 0,
            Kind::Null => 1,
            Kind::Boolean => 2,
            Kind::Number => 3,
            Kind::String => 4,
            Kind::Symbol => 5,
            Kind::Object => 6,
            Kind::Function => 7,
            Kind::External => 8,
            Kind::Bigint => 9,
        }
    }
}
