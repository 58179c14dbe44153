// Sets whose modules declare long URIs, of which a merge makes short texts for a while. A set prints its schema with and without that, through either store,
// and what it prints is printed again.
use crate::shared::comparing::{expect_text, same, same_count, same_for};
use crate::shared::given_texts::{owned, repeated, written_set};
use crate::shared::merges::{EachStore, Merge, MergeAgain, answer, merged};
use crate::shared::tables::{Subject, each_schema, each_set};
use rn_assemble::assemble;
use rn_merge::refusal_line;
use rn_modset::ModuleSet;
use std::process::Abort;

/// A text with sixty letters in the place of each `^`. So `^0123` has the most bytes of a URI that is kept.
pub fn lengthened(rt: &(impl Abort + AllocGlobal), text: &str) -> String {
    let sixty = repeated(rt, "", "u", 60, "");
    expect_text(rt, text.replace(rt.alloc(), "^", sixty.as_str()))
}

/// A set prints a schema with short texts and without them, and the schema prints itself again, where `^` means sixty letters.
pub fn prints(rt: &(impl Abort + AllocGlobal), given: &str, wanted: &str) {
    let given = lengthened(rt, given);
    let wanted = lengthened(rt, wanted);
    Merge.answers(rt, given.as_str(), wanted.as_str());
    EachStore.answers(rt, given.as_str(), wanted.as_str());
    MergeAgain.answers(rt, given.as_str(), wanted.as_str());
}

/// What prints a schema in each of these ways.
struct InEachWay;

impl Subject for InEachWay {
    fn answers<R: Abort + AllocGlobal>(&self, rt: &R, given: &str, wanted: &str) {
        prints(rt, given, wanted);
    }
}

/// Long URIs in names of elements and attributes.
const NAMES: &str = r#"namespace p = "^^" start = element p:a { empty }
=>
namespace n1 = "^^"
start = element n1:a { empty }
--
namespace p = "^^" start = element p:* { text }
=>
namespace n1 = "^^"
start = element n1:* { text }
--
namespace p = "^^" start = element p:* - p:a { text }
=>
namespace n1 = "^^"
start = element n1:* - n1:a { text }
--
namespace p = "^^" start = element * - (p:b | p:* - p:a | p:a) { text }
=>
namespace n1 = "^^"
start = element * - ((n1:* - n1:a) | n1:a | n1:b) { text }
--
default namespace = "^^" start = element a { attribute b { text } }
=>
namespace n1 = "^^"
start = element n1:a { attribute b { text } }
--
default namespace p = "^^" start = element a { attribute p:b { text }, element p:* { text } }
=>
namespace n1 = "^^"
start = element n1:a { attribute n1:b { text }, element n1:* { text } }
--
namespace p = "^^" start = element r { attribute p:b { text }, attribute p:* - p:b { text }* }
=>
namespace n1 = "^^"
start = element r { attribute n1:b { text }, attribute n1:* - n1:b { text }* }
--
namespace p = "^^" namespace q = "^" ~ '^' start = element q:b | p:a | q:a { empty }
=>
namespace n1 = "^^"
start = element n1:a | n1:b { empty }
--
namespace p = "^^" namespace q = "^^q" start = element p:a { empty } b = element q:b { empty }
=>
namespace n1 = "^^"
start = element n1:a { empty }
--
namespace p = "^^" start = text
=>
start = text
--
namespace p = "^\x{9}^" namespace q = '^^"x' start = element q:b | p:a { empty }
=>
namespace n1 = "^\x{9}^"
namespace n2 = "^^" ~ '"' ~ "x"
start = element n1:a | n2:b { empty }
--
@a
namespace p = "^^" start = element p:a { b }
@b
default namespace = "^^" b = element b { empty }
=>
namespace n1 = "^^"
start = element n1:a { b }
b = element n1:b { empty }
--
@a
namespace p = "^^b" start = element p:a { b }
@b
namespace p = "^^a" b = element p:b { empty }
=>
namespace n1 = "^^a"
namespace n2 = "^^b"
start = element n2:a { b }
b = element n1:b { empty }
"#;

#[test]
fn long_namespaces_are_printed(rt: HostRuntime) {
    each_schema(&rt, &InEachWay, NAMES);
}

/// Long URIs of datatype libraries.
const LIBRARIES: &str = r#"datatypes d = "^^" start = element r { d:t "v" }
=>
datatypes d1 = "^^"
start = element r { d1:t "v" }
--
datatypes d = "^^" start = element r { (d:t - d:t "x") | d:t { k = "w" } | d:t | d:t "v" }
=>
datatypes d1 = "^^"
start = element r { d1:t "v" | d1:t | (d1:t - d1:t "x") | d1:t { k = "w" } }
--
datatypes d = "^^b" datatypes e = "^^a" start = element r { d:t - (d:u "2" | e:u "1" | "3") }
=>
datatypes d1 = "^^a"
datatypes d2 = "^^b"
start = element r { d2:t - ("3" | d1:u "1" | d2:u "2") }
--
datatypes d = "^^" start = element r { d:t { k = "v" l = "w" } - d:t }
=>
datatypes d1 = "^^"
start = element r { d1:t { k = "v" l = "w" } - d1:t }
--
datatypes d = "^^" start = element r { attribute k { d:t "b" | d:t "a" } | list { d:t "b", d:t "a" } }
=>
datatypes d1 = "^^"
start = element r { list { d1:t "b", d1:t "a" } | attribute k { d1:t "a" | d1:t "b" } }
--
datatypes d = "^^" datatypes e = "^^" start = element r { e:u | e:t "v" | d:t "v" }
=>
datatypes d1 = "^^"
start = element r { d1:t "v" | d1:u }
--
namespace p = "^^" datatypes p = "^^" start = element p:a { p:t }
=>
namespace n1 = "^^"
datatypes d1 = "^^"
start = element n1:a { d1:t }
"#;

#[test]
fn long_libraries_are_printed(rt: HostRuntime) {
    each_schema(&rt, &InEachWay, LIBRARIES);
}

/// URIs that mean something by themselves, beside long ones that begin with them.
const SPECIAL: &str =
    r#"namespace e = "" namespace g = "g" namespace h = "http://www.w3.org/XML/1998/namespace^" namespace p = "^^" namespace v = "v"
start = element v:a | p:a | h:a | xml:a | g:a | e:a { empty }
=>
namespace n1 = "g"
namespace n2 = "http://www.w3.org/XML/1998/namespace^"
namespace n3 = "^^"
namespace n4 = "v"
start = element a | n1:a | xml:a | n2:a | n3:a | n4:a { empty }
--
namespace e = "" namespace h = "http://www.w3.org/XML/1998/namespace^" namespace p = "^^"
start = element p:* | h:* | xml:* | e:* { attribute xml:lang { text } }
=>
namespace n0 = ""
namespace n1 = "http://www.w3.org/XML/1998/namespace^"
namespace n2 = "^^"
start = element n0:* | xml:* | n1:* | n2:* { attribute xml:lang { text } }
--
namespace p = "^^" namespace x = "http://www.w3.org/XML/1998/namespace" start = element x:a { attribute p:b { text } }
=>
namespace n1 = "^^"
start = element xml:a { attribute n1:b { text } }
--
namespace d = "http://www.w3.org/2000/xmlns" namespace h = "http://www.w3.org/2000/xmlns^" start = element h:a | d:a { attribute h:b { text } }
=>
namespace n1 = "http://www.w3.org/2000/xmlns"
namespace n2 = "http://www.w3.org/2000/xmlns^"
start = element n1:a | n2:a { attribute n2:b { text } }
--
datatypes d = "http://www.w3.org/2001/XMLSchema-datatypes^" datatypes e = "^^" datatypes f = ""
start = element r { e:t | d:t | xsd:t | f:token | d:QName "v" | f:token "w" }
=>
datatypes d1 = "http://www.w3.org/2001/XMLSchema-datatypes^"
datatypes d2 = "^^"
start = element r { "w" | d1:QName "v" | token | xsd:t | d1:t | d2:t }
--
namespace p = "^^" namespace x = "http://www.w3.org/2001/XMLSchema-datatypes"
datatypes x = "http://www.w3.org/XML/1998/namespace" datatypes s = "http://www.w3.org/2001/XMLSchema-datatypes"
start = element p:a | x:a { x:t | s:ID }
=>
namespace n1 = "http://www.w3.org/2001/XMLSchema-datatypes"
namespace n2 = "^^"
datatypes d1 = "http://www.w3.org/XML/1998/namespace"
start = element n1:a | n2:a { xsd:ID | d1:t }
"#;

#[test]
fn special_uris_stay_what_they_are(rt: HostRuntime) {
    each_schema(&rt, &InEachWay, SPECIAL);
}

/// Long namespaces that are inherited to modules that are included.
const INHERITED: &str = r#"@main
namespace p = "^^b" namespace q = "^^a" include "lib" inherit = p include "lib" inherit = q start = element r { x }
@lib
x |= element e { empty }
=>
namespace n1 = "^^a"
namespace n2 = "^^b"
start = element r { x }
x = element n1:e { empty } | element n2:e { empty }
--
@main
namespace p = "^^b" namespace q = "^^a" include "mid" inherit = p include "mid" inherit = q
@mid
namespace v = inherit include "lib" inherit = v start |= element v:m { x }
@lib
default namespace w = inherit x |= element l { attribute w:k { text } }
=>
namespace n1 = "^^a"
namespace n2 = "^^b"
start = element n1:m { x } | element n2:m { x }
x = element n1:l { attribute n1:k { text } } | element n2:l { attribute n2:k { text } }
--
@main
default namespace = "^^a" namespace q = "^^b" include "lib" inherit = q { y = element o { empty } }
@lib
start = element s { x, y } x = element e { empty } y = text
=>
namespace n1 = "^^a"
namespace n2 = "^^b"
start = element n2:s { x, y }
x = element n2:e { empty }
y = element n1:o { empty }
--
@main
default namespace = "^^a" include "mid"
@mid
default namespace = "^^b" include "lib" start = element s { x }
@lib
x = element e { empty }
=>
namespace n1 = "^^b"
start = element n1:s { x }
x = element n1:e { empty }
--
@main
namespace p = "^^" include "lib" inherit = xml include "lib" inherit = p include "lib"
@lib
start |= element s { text }
=>
namespace n1 = "^^"
start = element s { text } | element xml:s { text } | element n1:s { text }
"#;

#[test]
fn long_namespaces_are_handed_on(rt: HostRuntime) {
    each_schema(&rt, &InEachWay, INHERITED);
}

/// Sets with a long URI that are refused.
const REFUSED: &str = r#"namespace p = "^^" start = text a = element p:a { b }
=> Undefined b

namespace p = "^^" start = a a = element p:a { empty } | b b = a
=> Recursive a

namespace p = "^^" start = x x = element p:a { empty } x = element p:a { empty }
=> PlainTwice x

namespace p = "^^" start = x x |= element p:a { empty } x &= element p:a { empty }
=> MixedMethods x

@a
namespace p = "^^a" start = element p:a { text }
@b
namespace p = "^^b" start = element p:a { text }
=> PlainTwice start

namespace p = "^^" namespace x = "http://www.w3.org/2000/xmlns" start = element p:a { attribute x:b { text } }
=> NameClass start

namespace p = "^^" namespace x = "http://www.w3.org/2000/xmlns" start = element p:a { attribute * - x:* { text } }
=> NameClass start

namespace p = "^^" start = text z = element p:* - p:* { text }
=> NameClass z

default namespace = "^^" start = element a { attribute xmlns { text } }
=> NameClass start

namespace p = "^^" namespace p = "^^" start = text
=> Prefix a

default namespace = "^^" x = element a { text }
=> NoStart

@main
default namespace = "^^" include "lib" { z = text } start = text
@lib
y = empty
=> Override main z

default namespace = "^^" include "gone" start = text
=> Missing a "gone""#;

/// The line of the refusal of a set that is put together without short texts.
fn plain_refusal(rt: &(impl Abort + AllocGlobal), set: &ModuleSet) -> String {
    match assemble(rt.alloc(), set) {
        Ok(_) => owned(rt, "none"),
        Err(refusal) => expect_text(rt, refusal_line(rt.alloc(), &refusal)),
    }
}

/// What refuses a set with short texts and without them, where `^` means sixty letters.
struct Refused;

impl Subject for Refused {
    fn answers<R: Abort + AllocGlobal>(&self, rt: &R, given: &str, wanted: &str) {
        let set = written_set(rt, lengthened(rt, given).as_str());
        same_for(rt, given, answer(rt, &set).as_str(), wanted);
        same_for(rt, given, plain_refusal(rt, &set).as_str(), wanted);
    }
}

#[test]
fn long_uris_keep_refusals(rt: HostRuntime) {
    each_set(&rt, &Refused, REFUSED);
}

/// A set with a namespace of so many letters, and an element that is brought in 104 times, whose name has 40,000. What it prints has
/// 4,162,254 bytes besides the namespace.
fn printed_with(rt: &(impl Abort + AllocGlobal), letters: usize) -> String {
    let front = repeated(rt, "@main\nnamespace p = \"", "u", letters, "\" ");
    let end = "start = element p:a { x }\n@lib\nx &= element ";
    let main = repeated(rt, front.as_str(), "include \"lib\" ", 104, end);
    repeated(rt, main.as_str(), "n", 40_000, " { empty }")
}

#[test]
fn all_bytes_of_a_long_namespace_count(rt: HostRuntime) {
    let fits = printed_with(&rt, 32_050);
    same_count(&rt, merged(&rt, fits.as_str()).len(), 4_194_304);
    let long = printed_with(&rt, 32_051);
    let found = answer(&rt, &written_set(&rt, long.as_str()));
    same(&rt, found.as_str(), "OutputTooLarge");
}
