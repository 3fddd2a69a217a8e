//! The calls that an object has by their own names.

/// A call, by its word.
#[derive(Clone, Copy)]
pub enum Call {
    Push,
    PushBack,
    PushFront,
    Extend,
    Cancel,
    Contains,
    HasStream,
    Clear,
    Len,
    IsEmpty,
    Capacity,
    Limit,
    IsFull,
    SizeHint,
    IsTerminated,
    Debug,
    Other,
}

impl Call {
    /// The call of this word.
    pub fn of(word: &str) -> Call {
        match word {
            "push" => Call::Push,
            "push_back" => Call::PushBack,
            "push_front" => Call::PushFront,
            "extend" => Call::Extend,
            "cancel" => Call::Cancel,
            "contains" => Call::Contains,
            "has_stream" => Call::HasStream,
            "clear" => Call::Clear,
            "len" => Call::Len,
            "is_empty" => Call::IsEmpty,
            "capacity" => Call::Capacity,
            "limit" => Call::Limit,
            "is_full" => Call::IsFull,
            "size_hint" => Call::SizeHint,
            "is_terminated" => Call::IsTerminated,
            "debug" => Call::Debug,
            _ => Call::Other,
        }
    }
}

/// The reply to a query: what the method of this name returns.
macro_rules! reply {
    ($object:expr, Clear) => {
        calls_world::reply::Reply::Done($object.clear())
    };
    ($object:expr, Len) => {
        calls_world::reply::Reply::Number($object.len())
    };
    ($object:expr, IsEmpty) => {
        calls_world::reply::Reply::Is($object.is_empty())
    };
    ($object:expr, Capacity) => {
        calls_world::reply::Reply::Number($object.capacity())
    };
    ($object:expr, Limit) => {
        calls_world::reply::Reply::Number($object.limit())
    };
    ($object:expr, IsFull) => {
        calls_world::reply::Reply::Is($object.is_full())
    };
    ($object:expr, SizeHint) => {
        calls_world::reply::Reply::Hint($object.size_hint())
    };
    ($object:expr, IsTerminated) => {
        calls_world::reply::Reply::Is($object.is_terminated())
    };
}

/// The reply to a call, if it is one of these queries, or `Debug`.
macro_rules! ask {
    ($object:expr, $call:expr, $text:expr; $($query:ident)*) => {
        match $call {
            $(crate::ask::Call::$query => crate::ask::reply!($object, $query),)*
            crate::ask::Call::Debug => {
                $text.append(format_args!("{:?}", $object));
                calls_world::reply::Reply::Written
            }
            _ => calls_world::reply::Reply::Nothing,
        }
    };
}

pub(crate) use ask;
pub(crate) use reply;
