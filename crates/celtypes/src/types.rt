//! Types.

ghost use Rattle.std.specs.Prelude.{◌≡◌, Some, option_map, IfOk};
ghost use Rattle.celtypes.specs.Computed.{same, common, all_are, element};
ghost use Rattle.celtypes.specs.Seen.{type_seen, types_seen};
ghost use Rattle.celtypes.specs.Types.{list};

use std::alloc::{AllocError, Global};
use std::fmt::{self, Display, Formatter};

/// The type of an expression.
#[derive(Drop)]
pub enum CelType {
    /// Signed numbers.
    Int,
    /// Unsigned numbers.
    Uint,
    /// Truth values.
    Bool,
    /// Strings.
    Text,
    /// `null` alone.
    Null,
    /// Lists with items of one type.
    List(Box<CelType>),
    /// Maps with keys of one type and values of one type.
    Map(Box<CelType>, Box<CelType>),
    /// Any value: its type shows only where it is used.
    Dyn,
}

impl Display for CelType {
    fn fmt<W: fmt::Write>(&self, f: &mut Formatter<W>) -> fmt::Result {
        match self {
            CelType::Int => f.write_str("int"),
            CelType::Uint => f.write_str("uint"),
            CelType::Bool => f.write_str("bool"),
            CelType::Text => f.write_str("string"),
            CelType::Null => f.write_str("null"),
            CelType::List(item) => write!(f, "list({item})"),
            CelType::Map(key, value) => write!(f, "map({key}, {value})"),
            CelType::Dyn => f.write_str("dyn"),
        }
    }
}

impl Clone for CelType {
    ghost is_clone = { λ t u. type_seen u ≡ type_seen t };

    fn clone(&self) -> Result<CelType, AllocError> {
        copy(self)
    }
}

/// A copy of the type.
#[cycle(copy)]
pub(crate) fn copy(of: &CelType) -> Result<CelType, AllocError>
    ensures { IfOk result (λ t. type_seen t ≡ type_seen of.now) }
{
    match of {
        CelType::Int => Ok(CelType::Int),
        CelType::Uint => Ok(CelType::Uint),
        CelType::Bool => Ok(CelType::Bool),
        CelType::Text => Ok(CelType::Text),
        CelType::Null => Ok(CelType::Null),
        CelType::List(item) => Ok(CelType::List(copy_box(item)?)),
        CelType::Map(key, value) => {
            let key = copy_box(key)?;
            let value = copy_box(value)?;
            Ok(CelType::Map(key, value))
        }
        CelType::Dyn => Ok(CelType::Dyn),
    }
}

#[cycle(copy)]
fn copy_box(of: &Box<CelType>) -> Result<Box<CelType>, AllocError>
    ensures { IfOk result (λ t. type_seen t.value ≡ type_seen of.now.value) }
{
    let copied = copy(of)?;
    Ok(Box::new(*Box::allocator(of), copied)?)
}

/// Whether the types are the same.
#[cycle(same)]
pub(crate) fn same(left: &CelType, right: &CelType) -> bool
    ensures { result ≡ same (type_seen left.now) (type_seen right.now) }
{
    match left {
        CelType::Int => matches!(right, CelType::Int),
        CelType::Uint => matches!(right, CelType::Uint),
        CelType::Bool => matches!(right, CelType::Bool),
        CelType::Text => matches!(right, CelType::Text),
        CelType::Null => matches!(right, CelType::Null),
        CelType::Dyn => matches!(right, CelType::Dyn),
        CelType::List(item) => match right {
            CelType::List(other) => same(item, other),
            CelType::Int | CelType::Uint | CelType::Bool | CelType::Text => false,
            CelType::Null | CelType::Map(_, _) | CelType::Dyn => false,
        },
        CelType::Map(key, value) => match right {
            CelType::Map(other_key, other_value) => same(key, other_key)
                && same(value, other_value),
            CelType::Int | CelType::Uint | CelType::Bool | CelType::Text => false,
            CelType::Null | CelType::List(_) | CelType::Dyn => false,
        },
    }
}

/// The type that both are, or dyn.
pub(crate) fn common(left: CelType, right: &CelType) -> CelType
    ensures { type_seen result ≡ common (type_seen left) (type_seen right.now) }
{
    if same(&left, right) {
        left
    } else {
        CelType::Dyn
    }
}

fn all_are(first: &CelType, rest: &[CelType]) -> bool
    ensures { result ≡ all_are (type_seen first.now) (types_seen rest.now) }
{
    for other in rest {
        if !same(first, other) {
            return false;
        }
    }
    true
}

/// The type that all are, or dyn.
pub(crate) fn element(alloc: Global, types: &Vec<CelType>) -> Result<Box<CelType>, AllocError>
    ensures { IfOk result (λ t. type_seen t.value ≡ element (types_seen types.now.items)) }
{
    let all = match types.as_slice().split_first() {
        Some((first, rest)) => {
            if all_are(first, rest) {
                copy(first)?
            } else {
                CelType::Dyn
            }
        }
        None => CelType::Dyn,
    };
    Ok(Box::new(alloc, all)?)
}

/// The type of lists with items of the type.
pub(crate) fn list_of(alloc: Global, item: CelType) -> Result<Option<CelType>, AllocError>
    ensures { IfOk result (λ o. option_map type_seen o ≡ Some (list (type_seen item))) }
{
    Ok(Some(CelType::List(Box::new(alloc, item)?)))
}
