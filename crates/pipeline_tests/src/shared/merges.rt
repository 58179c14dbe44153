// What a merge answers for sets, and what its layers do. A helper that lacks memory, or is given what it can't take, ends its test.
use crate::shared::comparing::{expect_text, same_for};
use crate::shared::given_texts::{owned, written_set};
use crate::shared::tables::Subject;
use rn_assemble::{Grammar, Refusal, assemble};
use rn_merge::{ProgramFault, fault_line, merge, refusal_line};
use rn_modset::ModuleSet;
use rn_pattern::{Interned, Patterns, Plain};
use rn_simplify::{Normal, normalise, normalise_in, print};
use std::process::Abort;

/// The line with which each printed schema begins.
pub const FIRST_LINE: &str = "default namespace = \"\"\n";

/// The text that a merge prints of a set.
fn printed(rt: &(impl Abort + AllocGlobal), set: &ModuleSet) -> String {
    merge(rt.alloc(), set).expect(rt, "the set is refused")
}

/// The text that a merge prints of the set that a text writes.
pub fn merged(rt: &(impl Abort + AllocGlobal), text: &str) -> String {
    printed(rt, &written_set(rt, text))
}

/// The answer of a merge, as rows write it.
pub fn shown(rt: &(impl Abort + AllocGlobal), answer: Result<String, Refusal>) -> String {
    match answer {
        Ok(text) => owned(rt, lines_of(rt, text.as_str())),
        Err(refusal) => expect_text(rt, refusal_line(rt.alloc(), &refusal)),
    }
}

/// What a merge answers for a set, as rows write it.
pub fn answer(rt: &(impl Abort + AllocGlobal), set: &ModuleSet) -> String {
    shown(rt, merge(rt.alloc(), set))
}

/// What a merge answers for the set that a text writes, as rows write it.
pub fn answer_of_text(rt: &(impl Abort + AllocGlobal), text: &str) -> String {
    answer(rt, &written_set(rt, text))
}

/// The lines behind the first one of a schema.
fn lines_of<'a>(rt: &impl Abort, text: &'a str) -> &'a str {
    text.strip_prefix(FIRST_LINE)
        .expect(rt, "the first line is missing")
}

/// A merge, which answers for a set the printed lines behind the first one, or the line of its refusal.
pub struct Merge;

impl Subject for Merge {
    fn answers<R: Abort + AllocGlobal>(&self, rt: &R, given: &str, wanted: &str) {
        let found = answer(rt, &written_set(rt, given));
        same_for(rt, given, found.as_str(), wanted);
    }
}

/// What a set prints is printed again, as the text of a set of its own: of the module `z` in revision 9.
fn prints_again_for(rt: &(impl Abort + AllocGlobal), set: &ModuleSet, given: &str) {
    let text = printed(rt, set);
    let again = expect_text(rt, format!(in rt.alloc(); "@z 9\n{text}"));
    let again = printed(rt, &written_set(rt, again.as_str()));
    same_for(rt, given, again.as_str(), text.as_str());
}

/// What a set prints is printed again, as the text of a set of its own.
pub fn prints_again(rt: &(impl Abort + AllocGlobal), set: &ModuleSet) {
    prints_again_for(rt, set, "");
}

/// A merge of what a set prints, by which the same is printed again.
pub struct MergeAgain;

impl Subject for MergeAgain {
    fn answers<R: Abort + AllocGlobal>(&self, rt: &R, given: &str, _wanted: &str) {
        prints_again_for(rt, &written_set(rt, given), given);
    }
}

/// The grammar of a set.
pub fn grammar(rt: &(impl Abort + AllocGlobal), set: &ModuleSet) -> Box<Grammar> {
    let grammar = assemble(rt.alloc(), set).expect(rt, "no grammar");
    Box::new(rt.alloc(), grammar).expect(rt, "no memory")
}

/// The canonical form of a grammar, built in the store.
fn normal_in<P: Patterns>(
    rt: &(impl Abort + AllocGlobal),
    grammar: &Grammar,
    store: &mut P,
) -> Box<Normal> {
    let normal = normalise_in(rt.alloc(), grammar, store).expect(rt, "no memory");
    Box::new(rt.alloc(), normal).expect(rt, "no memory")
}

/// The schema of a grammar, whose canonical form is built in the store, has these lines behind the first one.
fn prints_in<P: Patterns>(
    rt: &(impl Abort + AllocGlobal),
    grammar: &Grammar,
    store: &mut P,
    given: &str,
    wanted: &str,
) {
    let text = print(rt.alloc(), &normal_in(rt, grammar, store)).expect(rt, "no text");
    same_for(rt, given, lines_of(rt, text.as_str()), wanted);
}

/// The schema of a set has these lines behind the first one, whether its canonical grammar is built in a store of its
/// own or in either store.
fn prints_in_each(rt: &(impl Abort + AllocGlobal), set: &ModuleSet, given: &str, wanted: &str) {
    let grammar = grammar(rt, set);
    let normal = normalise(rt.alloc(), &grammar).expect(rt, "no memory");
    let text = print(rt.alloc(), &normal).expect(rt, "no text");
    same_for(rt, given, lines_of(rt, text.as_str()), wanted);
    prints_in(rt, &grammar, &mut Plain::new(rt.alloc()), given, wanted);
    prints_in(rt, &grammar, &mut Interned::new(rt.alloc()), given, wanted);
}

/// A merge whose canonical grammar is built in a store of its own, in one that looks for equal patterns, and in one that
/// doesn't.
pub struct EachStore;

impl Subject for EachStore {
    fn answers<R: Abort + AllocGlobal>(&self, rt: &R, given: &str, wanted: &str) {
        prints_in_each(rt, &written_set(rt, given), given, wanted);
    }
}

/// What a set prints is printed through each store.
pub fn prints_in_each_store(rt: &(impl Abort + AllocGlobal), set: &ModuleSet) {
    let text = printed(rt, set);
    prints_in_each(rt, set, "", lines_of(rt, text.as_str()));
}

/// The line of a fault.
pub fn line_of(rt: &(impl Abort + AllocGlobal), fault: ProgramFault) -> String {
    expect_text(rt, fault_line(rt.alloc(), &fault))
}
