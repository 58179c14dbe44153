//! What the definitions mean, by examples: laws whose clauses are documents that are valid and documents that are not
//! (RELAX NG 2001, 6), items that are no documents (section 2), and name classes that may stand or not
//! (section 4.16). `Accepts` and `Rejects` also say that the example is a document.
#![tactic(auto)]

ghost use Rattle.std.specs.Prelude.{[], ◌∷◌, codes};
ghost use Rattle.rn_pattern.specs.Tree.{any_name, any_name_but, ns_name, ns_name_but, name, attribute, element, empty, list, text};
ghost use Rattle.rn_pattern.specs.Document.{string, IsDocument};
ghost use Rattle.rn_pattern.specs.NameRules.{KeepsNameRules, declarations};
ghost use Rattle.matching_examples.specs.Examples.{Accepts, Rejects, plain, string_is, token_x, token_x_y, string_x_y, any_string, unknown_type, unknown_value, tag, leaf, bare_a, bare_b, bare_doc, said, x_one, y_two, z_three, blank, no_break_space, padded_x_y, padded_x, no_library, a_or_b, b_of_text, a_of, a_with, a_with_x, a_with_y_x, b_with_x, b_of_a, a_of_b, a_then_b, a_and_b, a_twice_and_b, doc_of, doc_a_b, doc_b_a, doc_a, doc_a_a, doc_a_b_a, doc_a_a_a_b, doc_padded_by, doc_text_a_text, doc_text_b, doc_led_by, doc_ended_by, doc_with_x, mixed_a, some_a, any_a, a_with_x_of, a_holding, x_then_y, some_x, string_but_x, token_but_x, one, any_int, positive, numbers, spellings, x_and_y, x_beside_y, x_and_string, all_but_x, x_is_one, x_is_empty, x_in_u, named_by, of_u, of_u_but_a, all_but_a, all_but_u, a_or_of_u, a_in_u, b_in_u, b_in_v, through_two, nested, doc_doc_a_a, doc_doc_b};

/// An element with the content and attributes that its pattern matches: nothing for `empty`, strings for `text`
/// (sections 6.2.3 and 6.2.4); it stands in a choice (6.2.1), behind one reference.
pub fn elements_hold_what_their_pattern_matches()
    // 6.2.3: `empty` matches no attribute and no content
    ensures a_alone { Accepts a_or_b no_library bare_a }
    // 6.2.4: `text` matches a string
    ensures b_of_text { Accepts a_or_b no_library b_of_text }
    // 6.2.4: and no content
    ensures b_alone { Accepts a_or_b no_library bare_b }
    // 6.1: neither name class holds the name
    ensures c_alone { Rejects a_or_b no_library (leaf (codes "c")) }
    // 6.2.3: a string that is not white space is not nothing
    ensures a_of_x { Rejects a_or_b no_library (a_of (codes "x")) }
    // 6.2.3: an attribute is not nothing
    ensures a_with_x { Rejects a_or_b no_library a_with_x }
    // 6.2.4: an element is no string
    ensures b_of_a { Rejects a_or_b no_library b_of_a }
    // 6.1: the local name alone is not the name
    ensures a_in_other_namespace { Rejects a_or_b no_library a_in_u }
    // 6.2.4: `text` matches no attribute
    ensures b_with_attribute { Rejects a_or_b no_library b_with_x }
{}

/// White space before, between and behind elements says nothing (section 6.2.7); other strings there aren't matched.
pub fn white_space_pads_elements()
    // 6.2.7: no white space is needed
    ensures none { Accepts a_then_b no_library doc_a_b }
    // 6.2.7: the four characters of white space, before, between and behind elements
    ensures blank { Accepts a_then_b no_library (doc_padded_by blank) }
    // 6.2.7: a letter is no white space
    ensures letter { Rejects a_then_b no_library (doc_padded_by (codes "x")) }
    // 6.2.7: a no-break space is no white space
    ensures no_break_space { Rejects a_then_b no_library (doc_padded_by no_break_space) }
    // 6.2.2: white space alone has no elements in it
    ensures no_elements { Rejects a_then_b no_library (doc_of (string blank ∷ [])) }
    // 6.2.7: a letter before an element is not matched
    ensures letter_before { Rejects a_then_b no_library (doc_led_by (codes "x")) }
    // 6.2.7: a letter behind an element is not matched
    ensures letter_behind { Rejects a_then_b no_library (doc_ended_by (codes "x")) }
    // 6.2.7: white space before elements, and none behind
    ensures blank_before { Accepts a_then_b no_library (doc_led_by blank) }
    // 6.2.7: white space behind elements, and none before
    ensures blank_behind { Accepts a_then_b no_library (doc_ended_by blank) }
    // 6.2.7: elements match no attribute of their parent
    ensures attribute { Rejects a_then_b no_library doc_with_x }
{}

/// Weak matching of the content of an element and of the text of an attribute (section 6.2.7): white space may be taken
/// for no content, and no content for the empty string.
pub fn content_matches_weakly()
    // white space for no content
    ensures blank_for_nothing { Accepts (a_holding empty) no_library (a_of blank) }
    // a letter is no white space
    ensures letter_for_nothing { Rejects (a_holding empty) no_library (a_of (codes "x")) }
    // no content for the empty string, which is a string
    ensures nothing_for_string { Accepts (a_holding any_string) no_library bare_a }
    // no content for the empty string, which is the value
    ensures nothing_for_empty_value { Accepts (a_holding (string_is [])) no_library bare_a }
    // no content for the empty string, which is another value
    ensures nothing_for_value { Rejects (a_holding token_x) no_library bare_a }
    // white space is taken for no content, and not twice for the empty string
    ensures blank_for_empty_value { Rejects (a_holding (string_is [])) no_library (a_of blank) }
    // 6.2.8: data is one string
    ensures element_for_string { Rejects (a_holding any_string) no_library a_of_b }
    // white space for no content, in an attribute
    ensures blank_attribute { Accepts (a_holding x_is_empty) no_library
        (a_with (said (codes "x") blank ∷ [])) }
    // an attribute whose text is no white space, for no content
    ensures some_attribute { Rejects (a_holding x_is_empty) no_library a_with_x }
    // white space for no content, beside an attribute
    ensures blank_beside_attribute { Accepts (a_holding x_is_one) no_library (a_with_x_of blank) }
    // no content for the empty string, beside an attribute
    ensures nothing_beside_attribute { Accepts (a_holding x_and_string) no_library a_with_x }
{}

/// A list matches a string by its words between white space (section 6.2.10).
pub fn lists_split_at_white_space()
    // two words
    ensures two { Accepts (a_holding x_then_y) no_library (a_of (codes "x y")) }
    // white space of any kind and length, at the ends too
    ensures padded { Accepts (a_holding x_then_y) no_library (a_of padded_x_y) }
    // two words without white space between are one word
    ensures run_together { Rejects (a_holding x_then_y) no_library (a_of (codes "xy")) }
    // one word where two are wanted
    ensures one { Rejects (a_holding x_then_y) no_library (a_of (codes "x")) }
    // 6.2.2: words in another order
    ensures turned { Rejects (a_holding x_then_y) no_library (a_of (codes "y x")) }
    // 6.2.5: three words, each of which is x
    ensures three_of_some { Accepts (a_holding some_x) no_library (a_of (codes "x x x")) }
    // 6.2.5: three words, one of which is not x
    ensures other_of_some { Rejects (a_holding some_x) no_library (a_of (codes "x y x")) }
    // 6.2.5: no word
    ensures none_of_some { Rejects (a_holding some_x) no_library bare_a }
    // 6.2.7 and 6.2.3: the empty string has no words
    ensures none_of_none { Accepts (a_holding (list empty)) no_library bare_a }
    // a list matches no attribute
    ensures attribute { Rejects (a_holding some_x) no_library (a_with_x_of (codes "x")) }
{}

/// Values of the built-in types, and data with an except (sections 6.2.8 and 6.2.9).
pub fn values_and_excepts()
    // a string equals itself
    ensures string_itself { Accepts (a_holding string_x_y) no_library (a_of (codes "x y")) }
    // white space counts in a string
    ensures string_padded { Rejects (a_holding string_x_y) no_library (a_of padded_x_y) }
    // white space is normalised in a token: more of it parts the same words
    ensures token_padded { Accepts (a_holding token_x_y) no_library (a_of padded_x_y) }
    // white space is normalised in a token, and not dropped between words
    ensures token_run_together { Rejects (a_holding token_x_y) no_library (a_of (codes "xy")) }
    // a string that the except does not match
    ensures string_other { Accepts (a_holding string_but_x) no_library (a_of (codes "y")) }
    // a string that the except matches
    ensures string_excepted { Rejects (a_holding string_but_x) no_library (a_of (codes "x")) }
    // a string that is the excepted one with white space round it is another string
    ensures string_padded_other { Accepts (a_holding string_but_x) no_library (a_of padded_x) }
    // a token that is the excepted one with white space round it is the same token
    ensures token_excepted { Rejects (a_holding token_but_x) no_library (a_of padded_x) }
    // a token that the except does not match
    ensures token_other { Accepts (a_holding token_but_x) no_library (a_of (codes "y")) }
    // a value matches no attribute
    ensures value_with_attribute { Rejects (a_holding token_x) no_library
        (a_with_x_of (codes "x")) }
    // data matches no attribute
    ensures data_with_attribute { Rejects (a_holding any_string) no_library
        (a_with_x_of (codes "x")) }
    // data with an except matches no attribute
    ensures except_with_attribute { Rejects (a_holding string_but_x) no_library
        (a_with_x_of (codes "y")) }
    // 6.2.9: the built-in types are string and token
    ensures unknown_type { Rejects (a_holding unknown_type) no_library (a_of (codes "1")) }
    // 6.2.9: the built-in library has no values of other types than string and token
    ensures unknown_value { Rejects (a_holding unknown_value) no_library (a_of (codes "1")) }
{}

/// Data and values of a datatype library: what its table allows, and takes as equal (section 6.2.8).
pub fn datatype_libraries_answer()
    // the value itself
    ensures value_itself { Accepts (a_holding one) numbers (a_of (codes "1")) }
    // a text that the library takes as equal
    ensures value_equal { Accepts (a_holding one) numbers (a_of (codes "01")) }
    // the value itself, where the library takes nothing else as equal
    ensures value_itself_apart { Accepts (a_holding one) spellings (a_of (codes "1")) }
    // a text that another library takes as equal, and this one does not
    ensures value_apart { Rejects (a_holding one) spellings (a_of (codes "01")) }
    // a text of another number
    ensures value_other { Rejects (a_holding one) numbers (a_of (codes "0")) }
    // the text as it is, white space with it: the table does not have it
    ensures value_padded { Rejects (a_holding one) numbers (a_of (codes " 1")) }
    // a library that has no answer
    ensures value_unknown { Rejects (a_holding one) no_library (a_of (codes "1")) }
    // a text that the type allows
    ensures data_allowed { Accepts (a_holding any_int) numbers (a_of (codes "0")) }
    // a text that the type does not allow
    ensures data_refused { Rejects (a_holding any_int) numbers (a_of (codes "x")) }
    // a text that the type with its parameter allows
    ensures data_allowed_with_parameter { Accepts (a_holding positive) numbers (a_of (codes "1")) }
    // a text that the type allows, and the type with its parameter does not
    ensures data_refused_by_parameter { Rejects (a_holding positive) numbers (a_of (codes "0")) }
{}

/// A group matches its members in their order (section 6.2.2), an interleave in any order, a repeated member as often
/// as it is repeated (6.2.6).
pub fn groups_and_interleaves()
    // 6.2.2: the members in their order
    ensures group_in_order { Accepts a_then_b no_library doc_a_b }
    // 6.2.2: the members in the other order
    ensures group_turned { Rejects a_then_b no_library doc_b_a }
    // 6.2.2: a member of the group without a part
    ensures group_short { Rejects a_then_b no_library doc_a }
    // 6.2.6: the members in their order
    ensures interleave_in_order { Accepts a_and_b no_library doc_a_b }
    // 6.2.6: the members in the other order
    ensures interleave_turned { Accepts a_and_b no_library doc_b_a }
    // 6.2.6: a member of the interleave without a part
    ensures interleave_short { Rejects a_and_b no_library doc_a }
    // 6.2.6: a member that is written twice has two parts, one of another member between
    ensures repeats_apart { Accepts a_twice_and_b no_library doc_a_b_a }
    // 6.2.6: a member that is written twice has one part alone
    ensures repeats_short { Rejects a_twice_and_b no_library doc_a_b }
    // 6.2.6: a member that is written twice has three parts
    ensures repeats_long { Rejects a_twice_and_b no_library doc_a_a_a_b }
    // 6.2.6 and 6.2.4: strings on both sides of an element
    ensures mixed { Accepts mixed_a no_library doc_text_a_text }
    // 6.1: an element of another name
    ensures mixed_other { Rejects mixed_a no_library doc_text_b }
{}

/// One or more, and with `empty` beside it none or more (section 6.2.5).
pub fn repetitions()
    // one part
    ensures some_once { Accepts some_a no_library doc_a }
    // two parts
    ensures some_twice { Accepts some_a no_library doc_a_a }
    // no part
    ensures some_never { Rejects some_a no_library bare_doc }
    // 6.2.1 and 6.2.3: `empty`, the other member of the choice
    ensures any_never { Accepts any_a no_library bare_doc }
    // two parts beside `empty`
    ensures any_twice { Accepts any_a no_library doc_a_a }
    // a part that does not match
    ensures any_other { Rejects any_a no_library doc_a_b }
{}

/// Attributes match in any order, also in a group, and each must be matched (sections 6.2.2 and 6.2.7).
pub fn attributes_have_no_order()
    // 6.2.2: a bag of attributes is split among the members
    ensures in_order { Accepts (a_holding x_and_y) no_library (a_with (x_one ∷ y_two ∷ [])) }
    // 6.2.2: a bag of attributes has no order
    ensures turned { Accepts (a_holding x_and_y) no_library a_with_y_x }
    // 6.2.7: the attribute y is not there
    ensures short { Rejects (a_holding x_and_y) no_library a_with_x }
    // 6.2.2: the attribute z is left
    ensures long { Rejects (a_holding x_and_y) no_library (a_with (x_one ∷ y_two ∷ z_three ∷ [])) }
    // 6.1 and 6.2.5: each attribute is of another name than the excepted one
    ensures except_others { Accepts (a_holding all_but_x) no_library
        (a_with (y_two ∷ z_three ∷ [])) }
    // 6.1: the excepted name
    ensures except_x { Rejects (a_holding all_but_x) no_library a_with_x }
    // 6.1: the excepted name beside another
    ensures except_x_with_other { Rejects (a_holding all_but_x) no_library a_with_y_x }
    // 6.2.7 and 6.2.8: the text of the attribute is the value
    ensures value_itself { Accepts (a_holding x_is_one) no_library a_with_x }
    // 6.2.8: the text of the attribute is not the value
    ensures value_other { Rejects (a_holding x_is_one) no_library
        (a_with (said (codes "x") (codes "2") ∷ [])) }
    // 6.2.7: content is no attribute
    ensures value_in_content { Rejects (a_holding x_is_one) no_library (a_of (codes "1")) }
    // 6.2.6: an interleave splits attributes as a group does
    ensures interleaved { Accepts (a_holding x_beside_y) no_library a_with_y_x }
    // 6.2.7: the attribute x is not there
    ensures interleaved_short { Rejects (a_holding x_beside_y) no_library (a_with (y_two ∷ [])) }
    // 6.2.7: content beside the attribute is left
    ensures value_beside_content { Rejects (a_holding x_is_one) no_library
        (a_with_x_of (codes "y")) }
{}

/// Names that a name class holds (section 6.1).
pub fn name_classes_hold_names()
    // any name, in any namespace
    ensures any_name { Accepts (named_by any_name) no_library b_in_u }
    // a name that the except does not hold
    ensures but_a_other { Accepts (named_by all_but_a) no_library bare_b }
    // the excepted local name in another namespace than the except's
    ensures but_a_elsewhere { Accepts (named_by all_but_a) no_library a_in_u }
    // the excepted name
    ensures but_a_itself { Rejects (named_by all_but_a) no_library bare_a }
    // a name of the namespace
    ensures of_u { Accepts (named_by of_u) no_library b_in_u }
    // a name in no namespace
    ensures of_u_in_none { Rejects (named_by of_u) no_library bare_b }
    // a name of another namespace
    ensures of_u_in_other { Rejects (named_by of_u) no_library b_in_v }
    // a name of the namespace that the except does not hold
    ensures of_u_but_a_other { Accepts (named_by of_u_but_a) no_library b_in_u }
    // the excepted name
    ensures of_u_but_a_itself { Rejects (named_by of_u_but_a) no_library a_in_u }
    // a name of another namespace
    ensures of_u_but_a_elsewhere { Rejects (named_by of_u_but_a) no_library b_in_v }
    // a name that the first member of the choice holds
    ensures choice_first { Accepts (named_by a_or_of_u) no_library bare_a }
    // a name that the second member of the choice holds
    ensures choice_second { Accepts (named_by a_or_of_u) no_library b_in_u }
    // a name that neither member of the choice holds
    ensures choice_none { Rejects (named_by a_or_of_u) no_library bare_b }
{}

/// A reference matches what its definition matches, through other references too (sections 4.19 and 6.3).
pub fn references_stand_for_definitions()
    // what the definition of first matches itself
    ensures through_one { Accepts through_two no_library bare_b }
    // what the definition of second matches, to which that of first refers
    ensures through_two { Accepts through_two no_library bare_a }
    // what neither definition matches
    ensures through_none { Rejects through_two no_library (leaf (codes "c")) }
    // a definition that refers to itself inside an element
    ensures nested_empty { Accepts nested no_library bare_doc }
    // a definition that refers to itself inside an element matches at two levels
    ensures nested { Accepts nested no_library doc_doc_a_a }
    // what the definition does not match, at the second level
    ensures nested_other { Rejects nested no_library doc_doc_b }
{}

/// What an item must keep to be a document (section 2).
pub fn documents_and_other_items()
    // two attributes with one local name, in two namespaces
    ensures two_names { IsDocument (a_with (x_one ∷ x_in_u ∷ [])) }
    // two attributes with one name
    ensures one_name_twice { ¬ IsDocument (a_with (x_one ∷ x_one ∷ [])) }
    // an element inside with two attributes of one name
    ensures one_name_twice_inside { ¬ IsDocument (doc_of (a_with (x_one ∷ x_one ∷ []) ∷ [])) }
    // two strings side by side
    ensures two_strings { ¬ IsDocument
        (tag (codes "a") (string (codes "x") ∷ string (codes "y") ∷ [])) }
    // a string that is empty
    ensures empty_string { ¬ IsDocument (a_of []) }
    // no element
    ensures no_element { ¬ IsDocument (string (codes "x")) }
{}

/// The restrictions on name classes (section 4.16).
pub fn name_classes_keep_restrictions()
    // an except of anyName may hold an nsName
    ensures any_but_namespace { KeepsNameRules (element all_but_u empty) }
    // an except of anyName may hold no anyName
    ensures any_but_any { ¬ KeepsNameRules (element (any_name_but any_name) empty) }
    // an except of anyName may hold no anyName at any depth
    ensures any_but_any_inside { ¬ KeepsNameRules
        (element (any_name_but (ns_name_but (codes "urn:u") any_name)) empty) }
    // an except of nsName may hold a name
    ensures namespace_but_name { KeepsNameRules (element of_u_but_a empty) }
    // an except of nsName may hold no nsName
    ensures namespace_but_namespace { ¬ KeepsNameRules
        (element (ns_name_but (codes "urn:u") of_u) empty) }
    // an attribute in no namespace
    ensures attribute { KeepsNameRules x_is_one }
    // an attribute may not be xmlns in no namespace
    ensures attribute_xmlns { ¬ KeepsNameRules (attribute (plain (codes "xmlns")) text) }
    // an element may be xmlns in no namespace
    ensures element_xmlns { KeepsNameRules (element (plain (codes "xmlns")) empty) }
    // an attribute may have no name in the namespace of declarations
    ensures attribute_declaration { ¬ KeepsNameRules
        (attribute (name declarations (codes "x")) text) }
    // an attribute may not have any name of the namespace of declarations
    ensures attributes_of_declarations { ¬ KeepsNameRules (attribute (ns_name declarations) text) }
{}
