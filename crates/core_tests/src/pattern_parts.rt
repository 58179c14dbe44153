// What constructors of patterns are given besides patterns, and the constructors by number.
ghost use Rattle.std.specs.Prelude.{All, IfOk, IsTrue};
ghost use Rattle.rn_pattern.specs.Store.{KeepsTrees};

use crate::samples::name;
use rn_pattern::{Data, NameClass, Patterns, Value};
use std::alloc::{AllocError, Global};
use std::rc::RcStr;

/// What constructors are given besides patterns.
#[derive(Drop)]
pub struct Parts {
    /// A choice of names that isn't in order.
    pub class: NameClass,
    /// A value of a type of the empty library.
    pub value: Value,
    /// Data with a parameter.
    pub data: Data,
}

/// The value `x` of the type `token` of the empty library.
pub fn token_value(alloc: Global) -> Result<Value, AllocError> {
    Ok(Value {
        library: RcStr::from_str(alloc, "")?,
        type_name: String::from_str(alloc, "token")?,
        text: String::from_str(alloc, "x")?,
    })
}

/// A choice of names that isn't in order, a value, and data with a parameter.
pub fn new_parts(alloc: Global) -> Result<Parts, AllocError> {
    let mut params = Vec::new(alloc);
    params.push((String::from_str(alloc, "k")?, String::from_str(alloc, "v")?))?;
    let data = Data {
        library: RcStr::from_str(alloc, "u")?,
        type_name: String::from_str(alloc, "t")?,
        params,
    };
    Ok(Parts {
        class: unsorted_names(alloc)?,
        value: token_value(alloc)?,
        data,
    })
}

/// A choice of three names, of which one is there twice and none in order.
fn unsorted_names(alloc: Global) -> Result<NameClass, AllocError> {
    let mut members = Vec::new(alloc);
    members.push(name(alloc, "u", "n")?)?;
    members.push(name(alloc, "u", "m")?)?;
    members.push(name(alloc, "u", "n")?)?;
    Ok(NameClass::Choice(members))
}

/// A pattern of each constructor, of the numbers 0 to 12, over patterns of the store.
pub fn constructed_pattern<P: Patterns>(
    store: &mut P,
    parts: &Parts,
    a: P::Id,
    members: &[P::Id],
    number: usize,
) -> Result<P::Id, AllocError>
    requires a { IsTrue (P.knows store.old a) }
    requires members { All (λ i. IsTrue (P.knows store.old i)) members.now }
    ensures known { IfOk result (λ i. IsTrue (P.knows store.new i)) }
    ensures kept { KeepsTrees (P.knows store.old) (P.tree_of store.old)
        (P.knows store.new) (P.tree_of store.new) }
{
    match number {
        0 => store.not_allowed(),
        1 => store.empty(),
        2 => store.text(),
        3 => store.reference("c"),
        4 => store.value(
            &parts.value.library,
            &parts.value.type_name,
            &parts.value.text,
        ),
        5 => store.datum(
            &parts.data.library,
            &parts.data.type_name,
            &parts.data.params,
            Some(a),
        ),
        6 => store.list(a),
        7 => store.attribute(&parts.class, a),
        8 => store.element(&parts.class, a),
        9 => store.choice(members),
        10 => store.group(members),
        11 => store.ileave(members),
        _ => store.one_or_more(a),
    }
}
