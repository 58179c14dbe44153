// Sentences on tokens: what isn't allowed where it is, what is no token, and prefixes.
use crate::report::shown_name;
use rn_outline::{Wanted, unquoted_name};
use rn_text::{Kind, TextFault, Token, tokens};
use std::alloc::{AllocError, Global};

/// The sentence on what is no token, white space or comment.
const LEXICAL: &str = "nothing that the compact syntax has begins like this";

/// The sentence on a literal without its end.
const UNCLOSED: &str =
    "this literal is not closed; only between three quotation marks it goes on in the next line";

/// The sentence on a backslash that no name follows.
const BACKSLASH: &str = "a backslash stands only before a name";

/// The sentence on an escape outside a literal.
const ESCAPE: &str = "an escape such as \\x{41} is read in literals alone";

/// The sentence on a character that no document has (XML 1.0, section 2.2).
const CONTROL: &str = "XML does not allow this control character";

/// The sentence on the byte of a text at which there is no token, white space or comment.
pub fn lexical_sentence(text: &str, at: usize) -> &'static str {
    let rest = text.as_bytes().get(at..).unwrap_or(&[]);
    if rest.starts_with(b"\\x{") {
        return ESCAPE;
    }
    match rest.first() {
        Some(b'"' | b'\'') => UNCLOSED,
        Some(b'\\') => BACKSLASH,
        Some(0..=31) => CONTROL,
        _ => LEXICAL,
    }
}

/// The tokens of a text; none where it has a fault.
fn tokens_of(alloc: Global, text: &str) -> Result<Vec<Token<'_>>, AllocError> {
    match tokens(alloc, text.as_bytes()) {
        Ok(tokens) => Ok(tokens),
        Err(TextFault::Memory) => Err(AllocError),
        Err(_) => Ok(Vec::new(alloc)),
    }
}

/// The number of the first token that does not begin before a byte.
fn number_at(tokens: &[Token<'_>], at: usize) -> usize {
    tokens.partition_point(|token| token.start < at)
}

/// The name that stands at a byte of a text, or behind the word `parent` there; without its backslash.
pub fn name_at(alloc: Global, text: &str, at: usize) -> Result<String, AllocError> {
    let tokens = tokens_of(alloc, text)?;
    let number = name_number(tokens.as_slice(), number_at(tokens.as_slice(), at));
    shown_name(alloc, unquoted_name(token_text(tokens.as_slice(), number)))
}

/// The number of the name that is referred to by the token of this number, which may be the word `parent`.
fn name_number(tokens: &[Token<'_>], number: usize) -> usize {
    if keyword_at(tokens, number) == Some("parent") {
        number.saturating_add(1)
    } else {
        number
    }
}

/// The sentence on the token that isn't allowed where it is, or on the end of the text, with what could come there.
pub fn unexpected_token(
    alloc: Global,
    text: &str,
    at: usize,
    wanted: Option<Wanted>,
) -> Result<String, AllocError> {
    let tokens = tokens_of(alloc, text)?;
    let number = number_at(tokens.as_slice(), at);
    let mut sentence = faulty_token(alloc, tokens.as_slice(), number)?;
    if let Some(keyword) = keyword_as_name(tokens.as_slice(), number, wanted) {
        push_keyword(alloc, &mut sentence, keyword)?;
    } else if let Some(wanted) = wanted {
        sentence.push_str(format!(in alloc; "; {wanted} is expected")?.as_str())?;
    }
    Ok(sentence)
}

/// The sentence on the token that isn't allowed where it is in a text whose outline has no fault.
pub fn unexpected_sign(alloc: Global, text: &str, at: usize) -> Result<String, AllocError> {
    let tokens = tokens_of(alloc, text)?;
    let number = number_at(tokens.as_slice(), at);
    let mut sentence = faulty_token(alloc, tokens.as_slice(), number)?;
    sentence.push_str(match token_text(tokens.as_slice(), number) {
        "," | "|" | "&" => "; patterns that are joined by different signs need parentheses",
        "?" | "*" | "+" => "; behind a pattern there is one of ?, * and +",
        _ => "",
    })?;
    Ok(sentence)
}

/// That the token isn't allowed where it is, or that there is none.
fn faulty_token(alloc: Global, tokens: &[Token<'_>], number: usize) -> Result<String, AllocError> {
    match tokens.get(number) {
        Some(token) => {
            let token = shown_name(alloc, token.text)?;
            format!(in alloc; "`{token}` can't stand here")
        }
        None => String::from_str(alloc, "the schema ends too early"),
    }
}

/// The text of the token with this number; nothing where there is none.
fn token_text<'a>(tokens: &[Token<'a>], number: usize) -> &'a str {
    tokens.get(number).map_or("", |token| token.text)
}

/// The token with this number, where it is a keyword.
fn keyword_at<'a>(tokens: &[Token<'a>], number: usize) -> Option<&'a str> {
    match tokens.get(number) {
        Some(token) if token.kind == Kind::Keyword => Some(token.text),
        _ => None,
    }
}

/// Whether the token with this number is the sign of a definition.
fn is_assignment(tokens: &[Token<'_>], number: usize) -> bool {
    matches!(token_text(tokens, number), "=" | "|=" | "&=")
}

/// The keyword in the place of a name: before the sign of a definition, or in the place of a pattern or of a
/// name.
fn keyword_as_name<'a>(
    tokens: &[Token<'a>],
    number: usize,
    wanted: Option<Wanted>,
) -> Option<&'a str> {
    if is_assignment(tokens, number) {
        return keyword_at(tokens, number.checked_sub(1)?);
    }
    let is_name = matches!(wanted, Some(Wanted::Pattern | Wanted::Name));
    if is_name || is_assignment(tokens, number.saturating_add(1)) {
        return keyword_at(tokens, number);
    }
    None
}

/// Appends how a name is written that is a keyword (compact syntax, section 2, quotedIdentifier).
fn push_keyword(alloc: Global, sentence: &mut String, keyword: &str) -> Result<(), AllocError> {
    let advice = format!(in alloc;
        "; `{keyword}` is a keyword, which is written `\\{keyword}` where it is a name"
    )?;
    sentence.push_str(advice.as_str())
}

/// The sentence on a prefix that is not declared, or may not be declared so; or on a second default namespace (compact
/// syntax, section 4.1).
pub fn prefix_sentence(alloc: Global, text: &str, at: usize) -> Result<String, AllocError> {
    let tokens = tokens_of(alloc, text)?;
    let number = number_at(tokens.as_slice(), at);
    let word = token_text(tokens.as_slice(), number);
    if word == "default" {
        return String::from_str(alloc, "this is a second default namespace");
    }
    let (before, _) = tokens.as_slice().split_at(number.min(tokens.len()));
    let prefix = prefix_of(word);
    let sentence = match before.last().map(|token| token.text) {
        Some("namespace") => namespace_sentence(before, prefix),
        Some("datatypes") => library_sentence(before, prefix),
        _ => undeclared_sentence(before, prefix),
    };
    let prefix = shown_name(alloc, prefix)?;
    format!(in alloc; "the prefix `{prefix}` {sentence}")
}

/// What stands before the colon of a name; a name without one whole, without its backslash.
fn prefix_of(word: &str) -> &str {
    match word.split_once(':') {
        Some((prefix, _)) => prefix,
        None => unquoted_name(word),
    }
}

/// Whether a declaration among the tokens binds the prefix. The keyword is `namespace` or `datatypes`.
fn declares(tokens: &[Token<'_>], keyword: &str, prefix: &str) -> bool {
    tokens.windows(2).any(|pair| match pair {
        [word, name] => word.text == keyword && unquoted_name(name.text) == prefix,
        _ => false,
    })
}

/// What is wrong with the declaration of a namespace's prefix behind these tokens.
fn namespace_sentence(before: &[Token<'_>], prefix: &str) -> &'static str {
    if declares(before, "namespace", prefix) {
        "is declared twice"
    } else if prefix == "xmlns" {
        "can't be declared"
    } else {
        "stands for http://www.w3.org/XML/1998/namespace and for nothing else"
    }
}

/// What is wrong with the declaration of a datatype library's prefix behind these tokens.
fn library_sentence(before: &[Token<'_>], prefix: &str) -> &'static str {
    if declares(before, "datatypes", prefix) {
        "is declared twice"
    } else {
        "stands for http://www.w3.org/2001/XMLSchema-datatypes and for nothing else"
    }
}

/// What is said of a prefix that is not declared for what it is used for; before it are these tokens.
fn undeclared_sentence(before: &[Token<'_>], prefix: &str) -> &'static str {
    if declares(before, "namespace", prefix) {
        "is declared for a namespace, and not for datatypes"
    } else if declares(before, "datatypes", prefix) {
        "is declared for datatypes, and not for a namespace"
    } else {
        "is not declared"
    }
}
