// Copies of name classes.
ghost use Rattle.std.specs.Prelude.{◌≡◌, IfOk, map};
ghost use Rattle.rn_pattern.specs.View.{name_class_view};

use crate::tree::NameClass;
use std::alloc::{AllocError, Global};

impl NameClass {
    /// A copy of the name class; the texts of namespaces are shared by both.
    #[cycle(copy_class)]
    pub fn try_clone(&self, alloc: Global) -> Result<NameClass, AllocError>
        ensures { IfOk result (λ c. name_class_view c ≡ name_class_view self.now) }
    {
        Ok(match self {
            NameClass::AnyName(None) => NameClass::AnyName(None),
            NameClass::AnyName(Some(except)) => NameClass::AnyName(Some(boxed_class(
                alloc, except,
            )?)),
            NameClass::NsName(uri, None) => NameClass::NsName(uri.clone()?, None),
            NameClass::NsName(uri, Some(except)) => {
                NameClass::NsName(uri.clone()?, Some(boxed_class(alloc, except)?))
            }
            NameClass::Name(uri, local) => NameClass::Name(uri.clone()?, local.try_clone()?),
            NameClass::Choice(members) => NameClass::Choice(copy_classes(alloc, members)?),
        })
    }
}

/// A copy of the name class, in a box of its own.
#[cycle(copy_class)]
fn boxed_class(alloc: Global, class: &NameClass) -> Result<Box<NameClass>, AllocError>
    ensures { IfOk result (λ c. name_class_view c.value ≡ name_class_view class.now) }
{
    let copy = class.try_clone(alloc)?;
    Ok(Box::new(alloc, copy)?)
}

#[cycle(copy_class)]
fn copy_classes(alloc: Global, classes: &[NameClass]) -> Result<Vec<NameClass>, AllocError>
    ensures { IfOk result (λ v. map name_class_view v.items ≡ map name_class_view classes.now) }
{
    let mut copies = Vec::new(alloc);
    for class in classes {
        copies.push(class.try_clone(alloc)?)?;
    }
    Ok(copies)
}
