// Patterns and name classes with their names resolved.
ghost use Rattle.std.specs.Prelude.{◌≡◌, List, [], map, IfOk};
ghost use Rattle.std.specs.Cow.{cow_str_bytes};
ghost use Rattle.std.specs.Rc.{rc_str_bytes};
ghost use Rattle.rn_pattern.specs.Opened.{pair};
ghost use Rattle.rn_pattern.specs.Tree as tree;
ghost use Rattle.rn_pattern.specs.Tree.{name_trees_of};
ghost use Rattle.rn_text.specs.Texts.{Text};
ghost use Rattle.rn_pattern.specs.View.{name_class_view, parameters_view, pattern_view, boxed_view, shared_trees};
ghost use Rattle.rn_syntax.specs.Tree as source;
ghost use Rattle.rn_syntax.specs.View as seen;
ghost use Rattle.rn_assemble.specs.inside.ContextBindings.{InContext};
ghost use Rattle.rn_assemble.specs.Resolve as resolve;

use crate::resolving::context::Context;
use crate::resolving::nodes::{
    choice, group, interleave, list, mixed_pattern, new_member, one_or_more, optional_pattern,
    reference, typed_datum, typed_value,
};
use rn_pattern::{NameClass, Named, Pattern, SmallString, new_box};
use rn_syntax::{AnyName, Data, Datatype, Nc, Operator, Param, Pat, Postfix, PrefixedName, Value};
use std::alloc::{AllocError, Global};
use std::rc::{Rc, RcStr};

#[inline(always)]
fn name(alloc: Global, own: &RcStr, name: &str) -> Result<NameClass, AllocError>
    ensures { IfOk result (λ c. name_class_view c ≡ tree.name (rc_str_bytes own.now) name.now) }
{
    Ok(NameClass::Name(own.clone()?, SmallString::from_str(alloc, name)?))
}

/// The name in the namespace of its prefix.
fn prefixed_name(
    alloc: Global,
    context: Context<'_, '_>,
    name: &PrefixedName<'_>,
) -> Result<NameClass, AllocError>
    ensures { InContext context.entry (λ inherited ds. IfOk result (λ c. name_class_view c
        ≡ tree.name (resolve.namespace_of inherited ds name.now.prefix.name.now)
        name.now.local.now)) }
{
    Ok(NameClass::Name(
        context.namespace(name.prefix.name).clone()?,
        SmallString::from_str(alloc, name.local)?,
    ))
}

/// Every name, or every name of a namespace.
fn every_name(context: Context<'_, '_>, any: &AnyName<'_>) -> Result<NameClass, AllocError>
    ensures { InContext context.entry (λ inherited ds. IfOk result (λ c. name_class_view c
        ≡ resolve.every_name inherited ds (seen.any_view any.now))) }
{
    match any {
        AnyName::Any => Ok(NameClass::AnyName(None)),
        AnyName::AnyOf(prefix) => Ok(NameClass::NsName(
            context.namespace(prefix.name).clone()?,
            None,
        )),
    }
}

/// Every name, or every name of a namespace, without the names of a class.
fn every_name_but(
    alloc: Global,
    context: Context<'_, '_>,
    any: &AnyName<'_>,
    except: NameClass,
) -> Result<NameClass, AllocError>
    ensures { InContext context.entry (λ inherited ds. IfOk result (λ c. name_class_view c
        ≡ resolve.every_name_but inherited ds (seen.any_view any.now) (name_class_view except))) }
{
    let except = Box::new(alloc, except)?;
    match any {
        AnyName::Any => Ok(NameClass::AnyName(Some(except))),
        AnyName::AnyOf(prefix) => Ok(NameClass::NsName(
            context.namespace(prefix.name).clone()?,
            Some(except),
        )),
    }
}

fn class_choice(members: Vec<NameClass>) -> NameClass
    ensures { name_class_view result ≡ tree.name_choice
        (name_trees_of (map name_class_view members.items)) }
{
    NameClass::Choice(members)
}

/// The name class, where a name without prefix is in the namespace `own`.
#[cycle(name_class)]
pub(crate) fn name_class(
    alloc: Global,
    context: Context<'_, '_>,
    own: &RcStr,
    class: &Nc<'_>,
) -> Result<NameClass, AllocError>
    ensures { InContext context.entry (λ inherited ds. IfOk result (λ c. name_class_view c
        ≡ resolve.resolved_class inherited ds (rc_str_bytes own.now) (seen.class_view class.now))) }
{
    match class {
        Nc::Local(given) => name(alloc, own, given),
        Nc::Prefixed(given) => prefixed_name(alloc, context, given),
        Nc::All(any) => every_name(context, any),
        Nc::AllBut(any, except) => {
            let except = name_class(alloc, context, own, except)?;
            every_name_but(alloc, context, any, except)
        }
        Nc::Choice(classes) => Ok(class_choice(name_classes(alloc, context, own, classes)?)),
    }
}

#[cycle(name_class)]
fn name_classes(
    alloc: Global,
    context: Context<'_, '_>,
    own: &RcStr,
    classes: &[Nc<'_>],
) -> Result<Vec<NameClass>, AllocError>
    ensures { InContext context.entry (λ inherited ds. IfOk result
        (λ v. name_trees_of (map name_class_view v.items)
        ≡ resolve.resolved_classes inherited ds (rc_str_bytes own.now)
        (seen.classes_view classes.now))) }
{
    let mut members = Vec::with_capacity(alloc, classes.len())?;
    for class in classes {
        members.push(name_class(alloc, context, own, class)?)?;
    }
    Ok(members)
}

fn library<'c>(context: Context<'c, '_>, datatype: &Datatype<'_>) -> &'c RcStr
    ensures { InContext context.entry (λ inherited ds. rc_str_bytes result.now
        ≡ resolve.type_library inherited ds (seen.datatype_view datatype.now)) }
{
    match datatype {
        Datatype::String(_) | Datatype::Token(_) => &context.bindings.constants.none,
        Datatype::Named(prefix, _) => context.library(prefix.name),
    }
}

fn type_name<'t>(datatype: &'t Datatype<'_>) -> &'t str
    ensures { (inherited : Text) (ds : List source.Declaration)
        → result.now ≡ resolve.type_name inherited ds (seen.datatype_view datatype.now) }
{
    match datatype {
        Datatype::String(_) => "string",
        Datatype::Token(_) => "token",
        Datatype::Named(_, name) => name,
    }
}

/// A value; one without a datatype is of the built-in token.
fn value(alloc: Global, context: Context<'_, '_>, value: &Value<'_>) -> Result<Pattern, AllocError>
    ensures { InContext context.entry (λ inherited ds. IfOk result (λ p. pattern_view p
        ≡ resolve.typed_value inherited ds (seen.type_view value.now.datatype)
        (cow_str_bytes value.now.text))) }
{
    let text = value.text.as_str();
    match &value.datatype {
        Some(datatype) => typed_value(alloc, library(context, datatype), type_name(datatype), text),
        None => typed_value(alloc, &context.bindings.constants.none, "token", text),
    }
}

fn params(alloc: Global, given: &[Param<'_>]) -> Result<Vec<(String, String)>, AllocError>
    ensures { IfOk result (λ v. parameters_view v.items ≡ seen.params_view given.now) }
{
    let mut params = Vec::with_capacity(alloc, given.len())?;
    for param in given {
        params.push((
            String::from_str(alloc, param.name)?,
            String::from_str(alloc, param.text.as_str())?,
        ))?;
    }
    Ok(params)
}

fn datum(alloc: Global, context: Context<'_, '_>, data: &Data<'_>) -> Result<Pattern, AllocError>
    ensures { InContext context.entry (λ inherited ds. IfOk result (λ p. pattern_view p
        ≡ tree.datum (resolve.type_library inherited ds (seen.datatype_view «data».now.datatype))
        (resolve.type_name inherited ds (seen.datatype_view «data».now.datatype))
        (seen.params_view «data».now.params.items))) }
{
    let params = params(alloc, &data.params)?;
    typed_datum(
        alloc,
        library(context, &data.datatype),
        type_name(&data.datatype),
        params,
        None,
    )
}

/// The datatype without the values of a pattern.
#[inline(never)]
fn datum_but(
    alloc: Global,
    context: Context<'_, '_>,
    data: &Data<'_>,
    except: Box<Pattern>,
) -> Result<Pattern, AllocError>
    ensures { InContext context.entry (λ inherited ds. IfOk result (λ p. pattern_view p
        ≡ tree.datum_but
        (resolve.type_library inherited ds (seen.datatype_view «data».now.datatype))
        (resolve.type_name inherited ds (seen.datatype_view «data».now.datatype))
        (seen.params_view «data».now.params.items) (boxed_view except))) }
{
    let params = params(alloc, &data.params)?;
    typed_datum(
        alloc,
        library(context, &data.datatype),
        type_name(&data.datatype),
        params,
        Some(except),
    )
}

fn chain(operator: Operator, members: Vec<Rc<Pattern>>) -> Pattern
    ensures { (inherited : Text) (ds : List source.Declaration)
        → pattern_view result
        ≡ resolve.operator_node inherited ds operator (shared_trees members.items) }
{
    match operator {
        Operator::Comma => group(members),
        Operator::Ampersand => interleave(members),
        Operator::Bar => choice(members),
    }
}

/// An element; a name without prefix is in the default namespace.
#[cycle(pattern)]
#[inline(never)]
fn element(
    alloc: Global,
    context: Context<'_, '_>,
    named: &rn_syntax::Named<'_>,
) -> Result<Pattern, AllocError>
    ensures { InContext context.entry (λ inherited ds. IfOk result (λ p. pattern_view p
        ≡ tree.element (resolve.resolved_class inherited ds (resolve.default_of inherited ds)
        (seen.class_view named.now.class))
        (resolve.resolved_pattern inherited ds (seen.pattern_view named.now.content)))) }
{
    let content = resolve_pattern(alloc, context, &named.content)?;
    let class = name_class(alloc, context, context.default_namespace(), &named.class)?;
    Ok(Pattern::Element(new_box(alloc, Named { class, content })?))
}

/// An attribute; a name without prefix is in no namespace.
#[cycle(pattern)]
#[inline(never)]
fn attribute(
    alloc: Global,
    context: Context<'_, '_>,
    named: &rn_syntax::Named<'_>,
) -> Result<Pattern, AllocError>
    ensures { InContext context.entry (λ inherited ds. IfOk result (λ p. pattern_view p
        ≡ tree.attribute (resolve.resolved_class inherited ds [] (seen.class_view named.now.class))
        (resolve.resolved_pattern inherited ds (seen.pattern_view named.now.content)))) }
{
    let content = resolve_pattern(alloc, context, &named.content)?;
    let class = name_class(
        alloc,
        context,
        &context.bindings.constants.none,
        &named.class,
    )?;
    Ok(Pattern::Attribute(new_box(alloc, Named { class, content })?))
}

#[cycle(pattern)]
#[inline(never)]
fn mixed(alloc: Global, context: Context<'_, '_>, content: &Pat<'_>) -> Result<Pattern, AllocError>
    ensures { InContext context.entry (λ inherited ds. IfOk result (λ p. pattern_view p
        ≡ tree.interleave (pair (resolve.resolved_pattern inherited ds
        (seen.pattern_view content.now)) tree.text))) }
{
    let content = resolve_pattern(alloc, context, content)?;
    mixed_pattern(alloc, &context.bindings.constants, content)
}

#[cycle(pattern)]
#[inline(never)]
fn repetition(
    alloc: Global,
    context: Context<'_, '_>,
    postfix: Postfix,
    content: &Pat<'_>,
) -> Result<Pattern, AllocError>
    ensures { InContext context.entry (λ inherited ds. IfOk result (λ p. pattern_view p
        ≡ resolve.repetition inherited ds postfix
        (resolve.resolved_pattern inherited ds (seen.pattern_view content.now)))) }
{
    let content = resolve_pattern(alloc, context, content)?;
    let constants = &context.bindings.constants;
    match postfix {
        Postfix::Question => optional_pattern(alloc, constants, content),
        Postfix::Star => optional_pattern(alloc, constants, one_or_more(alloc, content)?),
        Postfix::Plus => one_or_more(alloc, content),
    }
}

/// A written pattern with its names resolved, in a box.
#[cycle(pattern)]
#[inline(never)]
fn pattern(
    alloc: Global,
    context: Context<'_, '_>,
    written: &Pat<'_>,
) -> Result<Box<Pattern>, AllocError>
    ensures { InContext context.entry (λ inherited ds. IfOk result (λ p. boxed_view p
        ≡ resolve.resolved_pattern inherited ds (seen.pattern_view written.now))) }
{
    new_box(alloc, resolve_pattern(alloc, context, written)?)
}

/// A written pattern with its names resolved (RELAX NG 2001, 4.8 to 4.15). Its arms stay apart, to spare the stack.
#[cycle(pattern)]
pub(crate) fn resolve_pattern(
    alloc: Global,
    context: Context<'_, '_>,
    written: &Pat<'_>,
) -> Result<Pattern, AllocError>
    ensures { InContext context.entry (λ inherited ds. IfOk result (λ p. pattern_view p
        ≡ resolve.resolved_pattern inherited ds (seen.pattern_view written.now))) }
{
    match written {
        Pat::Element(named) => element(alloc, context, named),
        Pat::Attribute(named) => attribute(alloc, context, named),
        Pat::List(content) => Ok(list(pattern(alloc, context, content)?)),
        Pat::Mixed(content) => mixed(alloc, context, content),
        Pat::Empty => Ok(Pattern::Empty),
        Pat::NotAllowed => Ok(Pattern::NotAllowed),
        Pat::Text => Ok(Pattern::Text),
        Pat::Ref(name) => reference(alloc, name),
        Pat::Value(given) => value(alloc, context, given),
        Pat::Datum(data) => datum(alloc, context, data),
        Pat::DatumBut(data, _, except) => {
            let except = pattern(alloc, context, except)?;
            datum_but(alloc, context, data, except)
        }
        Pat::Repeated(postfix, content) => repetition(alloc, context, *postfix, content),
        Pat::Chain(operator, members) => {
            let members = patterns(alloc, context, members)?;
            Ok(chain(*operator, members))
        }
    }
}

#[cycle(pattern)]
#[inline(never)]
fn patterns(
    alloc: Global,
    context: Context<'_, '_>,
    written: &[Pat<'_>],
) -> Result<Vec<Rc<Pattern>>, AllocError>
    ensures { InContext context.entry (λ inherited ds. IfOk result
        (λ v. shared_trees v.items
        ≡ resolve.resolved_patterns inherited ds (seen.patterns_view written.now))) }
{
    let mut members = Vec::with_capacity(alloc, written.len())?;
    for member in written {
        let pattern = resolve_pattern(alloc, context, member)?;
        members.push(new_member(alloc, &context.bindings.constants, pattern)?)?;
    }
    Ok(members)
}
