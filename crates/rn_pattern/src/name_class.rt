// The canonical form of a name class: choices within choices replaced by their members, in order, without repeats.
ghost use Rattle.std.specs.Prelude.{◌≡◌, ◌++◌, IfOk, OnOk, map};
ghost use Rattle.rn_pattern.specs.Canonical.{canonical_name, name_class_of, sorted_once};
ghost use Rattle.rn_pattern.specs.inside.NameParts.{name_parts};
ghost use Rattle.rn_pattern.specs.Order.{name_cmp};
ghost use Rattle.rn_pattern.specs.View.{name_class_view};
ghost use Rattle.rn_pattern.specs.inside.PartViews.{name_classes_view};

use crate::tree::NameClass;
use std::alloc::{AllocError, Global};
use std::cmp::Ordering;

impl NameClass {
    /// A copy in canonical form, which holds the same names (6.1).
    #[cycle(canonical_name)]
    pub(crate) fn canonical(&self, alloc: Global) -> Result<NameClass, AllocError>
        ensures { IfOk result (λ c. name_class_view c ≡ canonical_name (name_class_view self.now)) }
    {
        match self {
            NameClass::AnyName(except) => match except {
                None => Ok(NameClass::AnyName(None)),
                Some(except) => {
                    let except = except.canonical(alloc)?;
                    Ok(NameClass::AnyName(Some(Box::new(alloc, except)?)))
                }
            },
            NameClass::NsName(uri, except) => match except {
                None => Ok(NameClass::NsName(uri.clone()?, None)),
                Some(except) => {
                    let except = except.canonical(alloc)?;
                    Ok(NameClass::NsName(uri.clone()?, Some(Box::new(alloc, except)?)))
                }
            },
            NameClass::Name(uri, local) => Ok(NameClass::Name(uri.clone()?, local.try_clone()?)),
            NameClass::Choice(members) => {
                let mut parts = Vec::new(alloc);
                push_parts(alloc, members, &mut parts)?;
                choice_of(parts)
            }
        }
    }
}

/// Adds the canonical forms of the members, and in the place of a choice among them those of its members. So all that
/// is in a choice is put in order at once, however deep choices are within one another.
#[cycle(canonical_name)]
fn push_parts(
    alloc: Global,
    members: &[NameClass],
    parts: &mut Vec<NameClass>,
) -> Result<(), AllocError>
    ensures { OnOk result (map name_class_view parts.new.items
        ≡ map name_class_view parts.old.items ++ name_parts (name_classes_view members.now)) }
{
    for member in members {
        match member {
            NameClass::Choice(within) => push_parts(alloc, within, parts)?,
            _ => parts.push(member.canonical(alloc)?)?,
        }
    }
    Ok(())
}

/// The choice of the members in order, each once; the member itself if there is one.
fn choice_of(mut members: Vec<NameClass>) -> Result<NameClass, AllocError>
    ensures { IfOk result (λ c. name_class_view c
        ≡ name_class_of (sorted_once name_cmp (map name_class_view members.items))) }
{
    members.sort_by(|c, d| c.cmp(d))?;
    members.dedup_by(|c, d| c.cmp(d) == Ordering::Equal);
    Ok(match members.len() {
        1 => members.remove(0),
        _ => NameClass::Choice(members),
    })
}
