//! What a value is and has, its creation number aside.
ghost use Rattle.std.specs.Prelude.{◌≡◌, ◌+◌, ◌^◌, ◌<◌, ◌≤◌, IfOk, IsTrue, OnOk, OnErr, None, option_map, is_some};
ghost use Rattle.std.specs.List.{range_with_len};
ghost use Rattle.napi_types.specs.parts.Bodies.{is_linked, child_of};
ghost use Rattle.napi_types.specs.parts.NewValues.{array_of, error_of};
ghost use Rattle.napi_types.specs.parts.Properties.{most_index, property_at, element_at};
ghost use Rattle.napi_types.specs.parts.Values.{with_property, without_property, with_element, with_link};
ghost use Rattle.value_store.specs.Contents.{value_here, body_here, properties_here, elements_here, HasValue, ChangesPlace};

use crate::parts::Parts;
use napi_types::{Body, NoMemory, TextNo, ValueId};
use std::alloc::Global;
use std::mem::size_of;

/// An array as it is created.
const ARRAY: Body = Body::Object {
    array: true,
    error: false,
};

/// An error as it is created.
const ERROR: Body = Body::Object {
    array: false,
    error: true,
};

/// The name of an error's message.
pub(crate) const MESSAGE: TextNo = TextNo(0);

/// The name of an error's code.
pub(crate) const CODE: TextNo = TextNo(1);

/// The hidden child that a body names. (It stands here, so that a collection calls no other crate for it.)
pub(crate) fn child_in(body: &Body) -> Option<ValueId>
    ensures { option_map (λ v. v.0) result ≡ child_of body.now }
{
    match body {
        Body::Linked { to, .. } => *to,
        _ => None,
    }
}

/// What a value is, and what it has by names and by indices. Its creation number is kept beside it. A linked value's child is named
/// by the body.
#[derive(Drop)]
pub(crate) enum Contents {
    /// A value with no property and no element.
    Plain(Body),
    /// A value with one property, by its name and its value, and no element.
    // (The body goes last, so that the name lies beside the variant's tag.)
    One(TextNo, ValueId, Body),
    /// A value, and its properties and elements. These are made at the second property or at the first element.
    Full(Body, Box<Parts>),
}

const _: () = prove!(size_of::<Contents>() == 40);

impl Contents {
    /// An array of so many values, whose numbers count up from the first.
    pub(crate) fn array(alloc: Global, first: u64, count: u32) -> Result<Contents, NoMemory>
        requires count { count ≤ most_index + 1 }
        requires numbers { first + count < 2 ^ 64 }
        ensures { IfOk result (λ place. HasValue place (λ n. array_of n (range_with_len first count))) }
    {
        let mut place = Contents::Plain(ARRAY);
        for at in 0..count {
            place.set_element(alloc, at, ValueId(first + u64::from(at)))?;
        }
        Ok(place)
    }

    /// An error: an object with its message and, where one is given, its code, in this order.
    pub(crate) fn error(
        alloc: Global,
        code: Option<ValueId>,
        message: ValueId,
    ) -> Result<Contents, NoMemory>
        ensures { IfOk result (λ place. HasValue place (λ n. error_of n (option_map (λ c. c.0) code) message.0)) }
    {
        let mut place = Contents::Plain(ERROR);
        place.set_prop(alloc, MESSAGE, message)?;
        if let Some(code) = code {
            place.set_prop(alloc, CODE, code)?;
        }
        Ok(place)
    }

    /// Sets a property. A name that is there keeps its place, and a new one goes last. The first takes no memory.
    pub(crate) fn set_prop(
        &mut self,
        alloc: Global,
        name: TextNo,
        to: ValueId,
    ) -> Result<(), NoMemory>
        ensures set { OnOk result (ChangesPlace self.old self.new (with_property name.0 to.0)) }
        ensures err { OnErr result (self.new ≡ self.old) }
        ensures absent { OnErr result (property_at name.0 (properties_here self.old) ≡ None) }
    {
        match self {
            Contents::Plain(body) => {
                *self = Contents::One(name, to, *body);
                Ok(())
            }
            Contents::One(first, value, body) => {
                if first.0 == name.0 {
                    *value = to;
                    return Ok(());
                }
                let mut parts = Parts::with_one(alloc, *first, *value)?;
                parts.set_prop(alloc, name, to)?;
                *self = Contents::Full(*body, Box::new(alloc, parts)?);
                Ok(())
            }
            Contents::Full(_, parts) => parts.set_prop(alloc, name, to),
        }
    }

    /// Removes a property, and tells whether the name was there. The others keep their order.
    pub(crate) fn remove_prop(&mut self, alloc: Global, name: TextNo) -> bool
        ensures removed { ChangesPlace self.old self.new (without_property name.0) }
        ensures was { result ≡ is_some (property_at name.0 (properties_here self.old)) }
    {
        match self {
            Contents::Plain(_) => false,
            Contents::One(first, _, body) => {
                if first.0 != name.0 {
                    return false;
                }
                *self = Contents::Plain(*body);
                true
            }
            Contents::Full(_, parts) => parts.remove_prop(alloc, name),
        }
    }

    /// Sets an element. What lies between the end and a later index is holes, which take no memory.
    pub(crate) fn set_element(
        &mut self,
        alloc: Global,
        at: u32,
        to: ValueId,
    ) -> Result<(), NoMemory>
        requires { at ≤ most_index }
        ensures set { OnOk result (ChangesPlace self.old self.new (with_element at to.0)) }
        ensures err { OnErr result (self.new ≡ self.old) }
        ensures absent { OnErr result (element_at at (elements_here self.old) ≡ None) }
    {
        match self {
            Contents::Plain(body) => {
                let mut parts = Parts::new(alloc);
                parts.set_element(alloc, at, to)?;
                *self = Contents::Full(*body, Box::new(alloc, parts)?);
                Ok(())
            }
            Contents::One(name, value, body) => {
                let mut parts = Parts::with_one(alloc, *name, *value)?;
                parts.set_element(alloc, at, to)?;
                *self = Contents::Full(*body, Box::new(alloc, parts)?);
                Ok(())
            }
            Contents::Full(_, parts) => parts.set_element(alloc, at, to),
        }
    }

    /// Sets the hidden child of a linked value. It takes no memory.
    pub(crate) fn link(&mut self, to: ValueId)
        requires { IsTrue (is_linked (body_here self.old)) }
        ensures { ChangesPlace self.old self.new (with_link to.0) }
    {
        match self {
            Contents::Plain(body) => *body = body.with_child(to),
            Contents::One(_, _, body) => *body = body.with_child(to),
            Contents::Full(body, _) => *body = body.with_child(to),
        }
    }
}
